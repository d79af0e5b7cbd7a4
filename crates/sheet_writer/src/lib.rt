// Document 02, ticket 1: the sheet of lent records, written into a lent space.
#![tactic(auto)]

ghost use Rattle.std.specs.Prelude.{◌≡◌};
ghost use Rattle.answers.specs.Given.{answer_of, gives};
ghost use Rattle.record_exchange.specs.Exchange.{sheet_written};

use checks::refusals::{Refusal, Refused};
use judged::judge_records;
use record_lines::put_sheet;

// The sheet at the start of the lent space; where its records are refused the space stays as it was. The k-th record is line k.
#[tactic(auto, using(crate::proofs::Outcomes::written_as), unfolding(decimal::specs::Writing::written))]
pub fn write(records: &[u64], space: &mut [u8]) -> Result<usize, Refused>
    ensures { gives (answer_of result) space.new ≡ sheet_written records.now space.old }
{
    let judged = judge_records(records)?;
    let length = judged.length;
    if space.len() < length {
        return Err(Refused::from(Refusal::SpaceTooShort));
    }
    put_sheet(space, records, length);
    Ok(length)
}
