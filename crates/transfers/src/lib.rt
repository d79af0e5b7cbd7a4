// Document 01, "The sheet": rows 5 to 13 of the lines that pass heat, waste gas or electricity from one end to another. A function has its
// kind's row of the table of kinds, a step a field from the left, and then what the lines above must say. It is written out, and no row of
// a table in code, for the reason in `kinds`.
#![tactic(auto, unfolding(sheet::specs::Kinds::rules, checks::specs::Judged::fields_number, checks::specs::Judged::order_number, checks::specs::Steps::words_number))]

ghost use Rattle.std.specs.Prelude.{◌≡◌, eqb};
ghost use Rattle.quantity.specs.Limits.{limits};
ghost use Rattle.sheet.specs.declared.Kind.TheVariants.{MeasurableHeat, WasteGas, Electricity};
ghost use Rattle.checks.specs.Numbers.{number_judged};
ghost use Rattle.checks.specs.Steps.{ends_number};
ghost use Rattle.checks.specs.Judged.{kind_number};

use checks::above::Above;
use checks::ranges::LAST;
use checks::refusals::Refusal;
use checks::shape::{counted, field};
use lines::LineRead;
use order::ends;

// The highest megajoules.
const MEGAJOULES: u64 = 1000000000000;

// The highest kilowatt-hours.
const KILOWATT_HOURS: u64 = 100000000000;

// The highest factor of heat, mg CO2 per MJ.
const HEAT_FACTOR: u64 = 400000;

// The highest factor of electricity, mg per kWh.
const ELECTRICITY_FACTOR: u64 = 2000000;

// "H and W need two different ends": rows 9 and 10 of both.
fn different_ends(from: u64, to: u64, above: Above) -> Result<(), Refusal>
    ensures { number_judged result ≡ ends_number from to (eqb from to) above }
{
    ends(from, to, above, from == to)
}

// `H,from,to,MJ,factor`
pub fn measurable_heat(l: &LineRead, above: Above) -> Result<(), Refusal>
    ensures { number_judged result ≡ kind_number limits MeasurableHeat l.now.count l.now.words above }
{
    counted(l.count, 4)?;
    let from = l.words[0];
    field(from, 0, LAST)?;
    let to = l.words[1];
    field(to, 0, LAST)?;
    field(l.words[2], 1, MEGAJOULES)?;
    field(l.words[3], 0, HEAT_FACTOR)?;
    different_ends(from, to, above)
}

// `W,from,to,MJ`
pub fn waste_gas(l: &LineRead, above: Above) -> Result<(), Refusal>
    ensures { number_judged result ≡ kind_number limits WasteGas l.now.count l.now.words above }
{
    counted(l.count, 3)?;
    let from = l.words[0];
    field(from, 0, LAST)?;
    let to = l.words[1];
    field(to, 0, LAST)?;
    field(l.words[2], 1, MEGAJOULES)?;
    different_ends(from, to, above)
}

// `E,from,to,kWh,factor`
pub fn electricity(l: &LineRead, above: Above) -> Result<(), Refusal>
    ensures { number_judged result ≡ kind_number limits Electricity l.now.count l.now.words above }
{
    counted(l.count, 4)?;
    let from = l.words[0];
    field(from, 0, LAST)?;
    let to = l.words[1];
    field(to, 0, LAST)?;
    field(l.words[2], 1, KILOWATT_HOURS)?;
    field(l.words[3], 0, ELECTRICITY_FACTOR)?;
    ends(from, to, above, (from == 0) & (to == 0))
}
