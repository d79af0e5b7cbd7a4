// The functions that programs in other languages link: include/wiltoresh.h declares them.
#![tactic(auto)]

ghost use Rattle.std.specs.Prelude.{◌≡◌, ◌≤◌};
ghost use lib.ListN;
ghost use Rattle.quantity.specs.Limits.{limits};
ghost use Rattle.places.specs.LinePlace.{offending_line};
ghost use Rattle.report.specs.Outcome.{outcome};
ghost use Rattle.answers.specs.Given.{LONGEST, gives};

use answers::{Answer, LONGEST};
use places::line_place;
use writer::report;

// The whole job. The result is the refusal's number, 0 for an accepted sheet.
#[unsafe(no_mangle)]
pub extern "C" fn wiltoresh_report(
    sheet: &[u8],
    space: &mut [u8],
    line: &mut usize,
    length: &mut usize,
) -> u64
    ensures space_after { gives (record { number = result; line = line.new; length = length.new }) space.new
        ≡ outcome limits sheet.now space.old }
    ensures long_enough { LONGEST ≤ lib.ListN.length space.old → result ≡ 16 → ⊥ }
{
    let answer = Answer::from(report(sheet, space));
    *line = answer.line;
    *length = answer.length;
    answer.number
}

// The offending line: its length without its LF, and the place where it starts.
#[unsafe(no_mangle)]
pub extern "C" fn wiltoresh_line(sheet: &[u8], line: usize, start: &mut usize) -> usize
    ensures { record { start = start.exit.now; length = result } ≡ offending_line sheet.now line }
{
    let place = line_place(sheet, line);
    *start = place.start;
    place.length
}

// No report has more bytes: `wiltoresh_report` finds a space of this length never too short.
#[unsafe(no_mangle)]
pub extern "C" fn wiltoresh_longest() -> usize
    ensures { result ≡ LONGEST }
{
    LONGEST
}
