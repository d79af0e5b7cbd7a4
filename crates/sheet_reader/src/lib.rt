// Document 02, ticket 1: the records of a sheet, put into a lent list of numbers.
#![tactic(auto)]

ghost use Rattle.std.specs.Prelude.{◌≡◌};
ghost use Rattle.answers.specs.Given.{answer_of, gives};
ghost use Rattle.record_exchange.specs.Exchange.{records_read};

use checks::refusals::{Refusal, Refused};
use judged::judge_sheet;
use lent::RECORD;
use sheet_words::put_records;

// The words of the sheet's records at the start of the lent list, nine each, and how many records they are; where the sheet is refused the
// list stays as it was.
#[tactic(auto, using(crate::proofs::Outcomes::read_as, record_exchange::proofs::RoundTrip::words_long, attribution::proofs::RowFifteen::fifteen_never_given), unfolding(decimal::specs::Writing::written))]
pub fn read(sheet: &[u8], list: &mut [u64]) -> Result<usize, Refused>
    ensures { gives (answer_of result) list.new ≡ records_read sheet.now list.old }
{
    let judged = judge_sheet(sheet)?;
    let count = judged.lines;
    if list.len() < count * RECORD {
        return Err(Refused::from(Refusal::SpaceTooShort));
    }
    put_records(list, sheet);
    Ok(count)
}
