// Document 01, "The report" and "Sheets sent back": a refusal, or the report of a reckoning, in a lent space.
#![tactic(auto)]

ghost use Rattle.std.specs.Prelude.{◌≡◌, ◌≤◌, [], length};
ghost use Rattle.decimal.specs.Writing.{Put};
ghost use Rattle.report.specs.Outcome.{printed};
ghost use Rattle.sheet.specs.Verdict.{refused};
ghost use Rattle.rows.specs.Held.{CanBeWritten, bytes_held};
ghost use Rattle.answers.specs.Given.{LONGEST, answer_of, gives};
ghost use Rattle.answers.specs.Within.{outcome_within};

use checks::refusals::{Refusal, Refused};
use quantity::limits::PROCESSES;
use reckoning::Reckoning;
use rows::put_report;
use space::{put_byte, put_bytes};

// No report has more bytes, and no refusal printed.
pub const LONGEST: usize = 210 * PROCESSES + 83;

// What the job gives, as other languages see it: number and line of a refusal, or 0 and 0, and the report's length, 0 for a refusal.
#[derive(Clone, Copy)]
pub struct Answer {
    pub number: u64,
    pub line: usize,
    pub length: usize,
}

impl From<Result<usize, Refused>> for Answer {
    ghost from_gives = { λ given answer. answer ≡ answer_of given };

    fn from(given: Result<usize, Refused>) -> Answer {
        match given {
            Ok(length) => Answer {
                number: 0,
                line: 0,
                length,
            },
            Err(refused) => Answer {
                number: u64::from(refused.refusal),
                line: refused.line,
                length: 0,
            },
        }
    }
}

// Writes a refusal's number, a comma, its line number and LF.
// Number and line are two parameters: a public function asks no more of its callers, and a `Refused` rules out numbers that it takes.
#[tactic(auto, using(decimal::proofs::Widths::twenty))]
pub fn put_refusal(space: &mut [u8], number: u64, line: usize) -> usize
    requires { LONGEST ≤ length space.old }
    ensures put { Put space.old 0 (printed (refused number line) []) space.new result }
    ensures bounded { result ≤ LONGEST }
{
    let comma = decimal::put(space, 0, number);
    let start = put_byte(space, comma, b',');
    let end = decimal::put(space, start, line as u64);
    put_byte(space, end, b'\n')
}

// The report of an accepted sheet, in a space that may be too short: it is written apart, and so measured, before the space is touched.
#[tactic(auto, unfolding(decimal::specs::Writing::written, sheet::specs::Verdict::first_of))]
pub fn put_within(space: &mut [u8], r: &Reckoning) -> Result<usize, Refused>
    requires { (CanBeWritten r.now) × (length (bytes_held r.now) ≤ LONGEST) }
    ensures { gives (answer_of result) space.new ≡ outcome_within (bytes_held r.now) space.old }
{
    let mut bytes = [0u8; LONGEST];
    let length = put_report(&mut bytes, r);
    if space.len() < length {
        return Err(Refused::from(Refusal::SpaceTooShort));
    }
    put_bytes(space, &bytes[..length]);
    Ok(length)
}
