// Document 01, "Sheets sent back", and document 02, ticket 4: a line judged by its letter, under the lines above it.
#![tactic(auto, unfolding(checks::specs::Judged::fields_number))]

ghost use Rattle.std.specs.Prelude.{◌≡◌};
ghost use Rattle.quantity.specs.Limits.{limits};
ghost use Rattle.sheet.specs.Kinds.{kind_of};
ghost use Rattle.checks.specs.Numbers.{number_judged};
ghost use Rattle.checks.specs.Judged.{kind_number};

use checks::above::Above;
use checks::refusals::Refusal;
use kinds::{bought_precursor, own_good, precursor_figures, precursor_use, process};
use lines::LineRead;
use sheet::Kind;
use source_streams::source_stream;
use transfers::{electricity, measurable_heat, waste_gas};

// Rows 4 to 13 and 17 of a line by its letter, its count of fields and its words. The line and what the lines above say of it are two parameters,
// here and in the function of each kind: document 01 judges a line by itself first, and then under the lines above.
pub fn line_refusal(l: &LineRead, above: Above) -> Result<(), Refusal>
    ensures { number_judged result ≡ kind_number limits (kind_of l.now.letter) l.now.count l.now.words above }
{
    match Kind::from(l.letter) {
        Kind::Process => process(l, above),
        Kind::SourceStream => source_stream(l, above),
        Kind::MeasurableHeat => measurable_heat(l, above),
        Kind::WasteGas => waste_gas(l, above),
        Kind::Electricity => electricity(l, above),
        Kind::BoughtPrecursor => bought_precursor(l, above),
        Kind::OwnGood => own_good(l, above),
        Kind::PrecursorFigures => precursor_figures(l, above),
        Kind::PrecursorUse => precursor_use(l, above),
        Kind::Unknown => Err(Refusal::UnknownKind),
    }
}
