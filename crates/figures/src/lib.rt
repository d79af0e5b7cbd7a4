// Document 01, "The report": fields and lines written into a lent space. The definitions are in specs/ and in the report's.
#![tactic(auto)]

ghost use Rattle.std.specs.Prelude.{◌∷◌, ◌+◌, ◌≤◌, length};
ghost use Rattle.decimal.specs.Writing.{Put};
ghost use Rattle.figures.specs.Figures.{three, spelt, tailed, line};

use space::put_byte;

// A field of the report: a whole figure, one below zero, or a whole part and thousandths.
#[derive(Clone, Copy)]
pub enum Figure {
    Whole(u64),
    Minus(u64),
    Parts(u64, u64),
}

// Writes a dot and three digits, and gives the place after them, as all below do.
fn put_three(space: &mut [u8], at: usize, t: u64) -> usize
    requires { at + 4 ≤ length space.old }
    ensures { Put space.old at (46 ∷ three t) space.new result }
{
    let dot = put_byte(space, at, b'.');
    let hundreds = put_byte(space, dot, 48 + ((t / 100 % 10) as u8));
    let tens = put_byte(space, hundreds, 48 + ((t / 10 % 10) as u8));
    put_byte(space, tens, 48 + ((t % 10) as u8))
}

// Writes a comma and a field. A figure has no `Display`: nothing is formatted, for the reason at `decimal::put_before`.
pub fn put_figure(space: &mut [u8], at: usize, f: Figure) -> usize
    requires { at + (length (spelt f) + 1) ≤ length space.old }
    ensures { Put space.old at (44 ∷ spelt f) space.new result }
{
    let start = put_byte(space, at, b',');
    match f {
        Figure::Whole(n) => decimal::put(space, start, n),
        Figure::Minus(n) => {
            let next = put_byte(space, start, b'-');
            decimal::put(space, next, n)
        }
        Figure::Parts(w, t) => {
            let next = decimal::put(space, start, w);
            put_three(space, next, t)
        }
    }
}

// Writes a line: its letter, each field after a comma, LF.
pub fn put_line(space: &mut [u8], at: usize, letter: u8, fields: &[Figure]) -> usize
    requires { at + (length (tailed fields.now) + 2) ≤ length space.old }
    ensures { Put space.old at (line letter fields.now) space.new result }
{
    let mut next = put_byte(space, at, letter);
    for &field in fields {
        next = put_figure(space, next, field);
    }
    put_byte(space, next, b'\n')
}
