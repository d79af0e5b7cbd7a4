// Document 01, "The sheet", and document 02, ticket 4: rows 5 to 13 and 17 of a P line, of a B line, of a G line, of a K line and of an N line;
// the other kinds have crates of their own. A function has its kind's row of the table of kinds, a step a field from the left, and then what
// the lines above must say. One function over rows held as constants was tried, with an earlier compiler: it did not inline the row and put it
// on the stack, for each line (docs/BENCHMARK.md, "Dropped").
#![tactic(auto, unfolding(sheet::specs::Kinds::rules, checks::specs::Judged::fields_number, checks::specs::Judged::order_number, checks::specs::Steps::words_number))]

ghost use Rattle.std.specs.Prelude.{◌≡◌};
ghost use Rattle.quantity.specs.Limits.{limits};
ghost use Rattle.sheet.specs.declared.Kind.TheVariants.{Process, BoughtPrecursor, OwnGood, PrecursorFigures, PrecursorUse};
ghost use Rattle.checks.specs.Numbers.{number_judged};
ghost use Rattle.checks.specs.Judged.{kind_number};

use checks::above::Above;
use checks::ranges::{KILOS, LAST, PRECURSOR};
use checks::refusals::Refusal;
use checks::shape::{counted, field};
use lines::LineRead;
use order::{ends, known, left, next, unstated};
use quantity::Kilos;

// The highest specific figure of a bought precursor, mg per kg.
const SPECIFIC_FIGURE: u64 = 100000000;

// The highest rank of figures: the published default.
const RANK: u64 = 3;

// `P,n,kg`
pub fn process(l: &LineRead, above: Above) -> Result<(), Refusal>
    ensures { number_judged result ≡ kind_number limits Process l.now.count l.now.words above }
{
    counted(l.count, 2)?;
    let n = l.words[0];
    field(n, 1, LAST)?;
    let output = l.words[1];
    field(output, 1, KILOS)?;
    next(n, above)
}

// `B,n,kg,direct,indirect`
pub fn bought_precursor(l: &LineRead, above: Above) -> Result<(), Refusal>
    ensures { number_judged result ≡ kind_number limits BoughtPrecursor l.now.count l.now.words above }
{
    counted(l.count, 4)?;
    let n = l.words[0];
    field(n, 1, LAST)?;
    field(l.words[1], 1, KILOS)?;
    field(l.words[2], 0, SPECIFIC_FIGURE)?;
    field(l.words[3], 0, SPECIFIC_FIGURE)?;
    known(n, above)
}

// `G,from,to,kg`
pub fn own_good(l: &LineRead, above: Above) -> Result<(), Refusal>
    ensures { number_judged result ≡ kind_number limits OwnGood l.now.count l.now.words above }
{
    counted(l.count, 3)?;
    let from = l.words[0];
    field(from, 0, LAST)?;
    let to = l.words[1];
    field(to, 0, LAST)?;
    let kg = l.words[2];
    field(kg, 1, KILOS)?;
    ends(from, to, above, !((1 <= from) & (from < to)))?;
    left(Kilos(kg), above)
}

// `K,precursor,rank,direct,indirect`
pub fn precursor_figures(l: &LineRead, above: Above) -> Result<(), Refusal>
    ensures { number_judged result ≡ kind_number limits PrecursorFigures l.now.count l.now.words above }
{
    counted(l.count, 4)?;
    field(l.words[0], 1, PRECURSOR)?;
    let rank = l.words[1];
    field(rank, 1, RANK)?;
    field(l.words[2], 0, SPECIFIC_FIGURE)?;
    field(l.words[3], 0, SPECIFIC_FIGURE)?;
    unstated(rank, above)
}

// `N,process,precursor,kg`
pub fn precursor_use(l: &LineRead, above: Above) -> Result<(), Refusal>
    ensures { number_judged result ≡ kind_number limits PrecursorUse l.now.count l.now.words above }
{
    counted(l.count, 3)?;
    let n = l.words[0];
    field(n, 1, LAST)?;
    field(l.words[1], 1, PRECURSOR)?;
    field(l.words[2], 1, KILOS)?;
    known(n, above)
}
