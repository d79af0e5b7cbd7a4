// Document 01, "Sheets sent back", rows 5 to 7: one step for the count of fields, one for each field.
ghost use Rattle.std.specs.Prelude.{◌≡◌, true, false};
ghost use Rattle.checks.specs.Numbers.{number_judged};
ghost use Rattle.checks.specs.Steps.{count_number, outside_number, word_number};

use super::refusals::Refusal;
use lines::{DASH, OTHER};

// Row 5.
pub fn counted(count: usize, fields: usize) -> Result<(), Refusal>
    ensures { number_judged result ≡ count_number count fields }
{
    if count == fields {
        Ok(())
    } else {
        Err(Refusal::WrongFieldCount)
    }
}

// Rows 6 and 7 of a word that is not of its range, nor `-` where it may stand.
fn outside(word: u64) -> Result<(), Refusal>
    ensures { number_judged result ≡ outside_number word }
{
    match word {
        DASH | OTHER => Err(Refusal::NotNumber),
        _ => Err(Refusal::OutOfRange),
    }
}

// Rows 6 and 7 of one field: a number of a range.
pub fn field(word: u64, lowest: u64, highest: u64) -> Result<(), Refusal>
    ensures { number_judged result ≡ word_number lowest highest false word }
{
    if (lowest <= word) & (word <= highest) {
        Ok(())
    } else {
        outside(word)
    }
}

// Rows 6 and 7 of one field: a number of a range, or `-`.
pub fn field_or_dash(word: u64, lowest: u64, highest: u64) -> Result<(), Refusal>
    ensures { number_judged result ≡ word_number lowest highest true word }
{
    if word == DASH {
        Ok(())
    } else {
        field(word, lowest, highest)
    }
}
