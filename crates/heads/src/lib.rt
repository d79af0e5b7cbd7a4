// A line's head: its letter, and the place behind its first field.
#![tactic(auto)]

ghost use Rattle.std.specs.Prelude.{◌≡◌, None, ◌-◌, ◌≤◌, ◌<◌, eqb, length, get_or};
ghost use Rattle.lines.specs.Lines.{LF};
ghost use Rattle.lines.specs.Records.{letter_in};
ghost use Rattle.heads.specs.Heads.{HeadIs, HeadAt};

use fields::{Stop, first_end};

// The letter that a line's first field is: its one byte, 0 where it has none or several, as in the reader's definition `letter_in`.
fn letter_in(first_field: &[u8]) -> u8
    ensures { result ≡ letter_in first_field.now }
{
    match first_field {
        [letter] => *letter,
        _ => 0,
    }
}

// The letter of a line, the place behind its first field, and the comma that stands there where that field is a letter, in a
// sheet that ends in LF.
#[derive(Clone, Copy)]
pub struct Head {
    pub letter: u8,
    pub end: usize,
    pub stop: Option<Stop>,
}

// The head of a line, whatever it is.
fn any_head(s: &[u8], start: usize) -> Head
    requires { start ≤ length s.now }
    ensures { HeadIs s.now start result.letter result.end × (result.stop ≡ None) }
{
    let end = first_end(s, start);
    Head {
        letter: letter_in(&s[start..end]),
        end,
        stop: None,
    }
}

fn ends_in_lf(s: &[u8]) -> bool
    ensures { result ≡ eqb (get_or s.now (length s.now - 1) 0) LF }
{
    matches!(s, [.., b'\n'])
}

// The head of a line, at once where it is a letter and a comma.
pub fn line_head(s: &[u8], start: usize) -> Head
    requires { start < length s.now }
    ensures { HeadAt s.now start result }
{
    match &s[start..] {
        [letter, b',', ..] if b',' < *letter && ends_in_lf(s) => Head {
            letter: *letter,
            end: start + 1,
            stop: Some(Stop::Comma),
        },
        _ => any_head(s, start),
    }
}
