// Document 01, "The report": the report of a sheet, written into a lent space.
#![tactic(auto)]

ghost use Rattle.std.specs.Prelude.{◌≡◌, ◌≤◌, length};
ghost use Rattle.quantity.specs.Limits.{limits};
ghost use Rattle.decimal.specs.Writing.{Put};
ghost use Rattle.report.specs.Outcome.{outcome, carbon};
ghost use Rattle.answers.specs.Given.{LONGEST, answer_of, gives};

use answers::{LONGEST, put_refusal, put_within};
use checks::refusals::Refused;
use reckoner::reckon;
use rows::put_report;

// What the program `carbon` prints of a sheet: its report, or the refusal's number and line.
#[tactic(auto, using(crate::proofs::Job::can_be_written, crate::proofs::Job::report_short, crate::proofs::Job::printed_refusal, crate::proofs::Job::printed_report, decimal::proofs::Writing::length_written))]
pub fn print(sheet: &[u8], space: &mut [u8; LONGEST]) -> usize
    ensures put { Put space.old 0 (carbon limits sheet.now) space.new result }
    ensures bounded { result ≤ length space.new }
{
    match reckon(sheet) {
        Ok(r) => put_report(space, &r),
        Err(refused) => put_refusal(space, u64::from(refused.refusal), refused.line),
    }
}

// The report of a sheet at the start of the lent space; a refused sheet leaves the space as it was. A space of LONGEST bytes is never too
// short.
#[tactic(auto, using(crate::proofs::Job::can_be_written, crate::proofs::Job::report_short, crate::proofs::Job::refused_outcome, crate::proofs::Job::accepted_within, crate::proofs::Job::refused_enough, crate::proofs::Job::long_enough))]
pub fn report(sheet: &[u8], space: &mut [u8]) -> Result<usize, Refused>
    ensures space_after { gives (answer_of result) space.new ≡ outcome limits sheet.now space.old }
    ensures long_enough { LONGEST ≤ length space.old → (answer_of result).number ≡ 16 → ⊥ }
{
    let r = reckon(sheet)?;
    // At LONGEST itself either way gives the same report.
    if space.len() < LONGEST {
        return put_within(space, &r);
    }
    Ok(put_report(space, &r))
}
