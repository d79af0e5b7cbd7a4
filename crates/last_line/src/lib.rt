// Document 01, "The report": its last line, `T,left,entered,raised,uncredited`, written into a lent space.
#![tactic(auto)]

ghost use Rattle.std.specs.Prelude.{◌≡◌, ◌+◌, ◌≤◌, length};
ghost use Rattle.decimal.specs.Writing.{Put};
ghost use Rattle.report.specs.Spelling.{signed};
ghost use Rattle.figures.specs.Figures.{held, tailed, line};
ghost use Rattle.last_line.specs.Totals.{total_fields};

use figures::{Figure, put_line};
use quantity::{Grams, SignedGrams};

// What the last line shows: the totals of the works.
#[derive(Clone, Copy)]
pub struct LastLine {
    pub left: Grams,
    pub entered: SignedGrams,
    pub raised: Grams,
    pub uncredited: Grams,
}

// A total that may carry `-`.
fn signed_figure(total: SignedGrams) -> Figure
    ensures { result ≡ held (signed total.0) }
{
    let grams = total.0;
    let size = grams.unsigned_abs();
    if grams < 0 {
        return Figure::Minus(size);
    }
    Figure::Whole(size)
}

// Writes the last line.
pub fn put_totals(space: &mut [u8], at: usize, last: LastLine) -> usize
    requires { at + (length (tailed (total_fields last)) + 2) ≤ length space.old }
    ensures { Put space.old at (line 84 (total_fields last)) space.new result }
{
    let fields = [
        Figure::Whole(last.left.0),
        signed_figure(last.entered),
        Figure::Whole(last.raised.0),
        Figure::Whole(last.uncredited.0),
    ];
    put_line(space, at, b'T', &fields)
}
