// A field read from the sheet's bytes: what stands between two commas, or before the LF.
#![tactic(auto)]

ghost use Rattle.std.specs.Prelude.{MatchOption, ◌≡◌, ◌+◌, ◌-◌, ◌≤◌, length, drop};
ghost use Rattle.fields.specs.Scan.{field_length, word_of};
ghost use Rattle.fields.specs.Scan.{ScannedAt, FieldReadAt, FieldBounds};

use lines::{CAP, DASH, OTHER};

// What a field says: a number, where CAP stands for each above it; `-`; or something else.
#[derive(Clone, Copy)]
pub enum Said {
    Number(u64),
    Dash,
    Other,
}

// A field in one word.
impl From<Said> for u64 {
    ghost from_gives = { λ said word. word ≡ word_of said };

    fn from(said: Said) -> u64 {
        match said {
            Said::Number(n) => n,
            Said::Dash => DASH,
            Said::Other => OTHER,
        }
    }
}

// A field that was read, and the place of the comma or LF behind it, or of the sheet's end. A struct of its own beside `Scanned`,
// and no generic one: the field's name says what was read.
#[derive(Clone, Copy)]
pub struct FieldRead {
    pub said: Said,
    pub end: usize,
}

// The bytes of a field taken for digits: their value, if all of them are digits, and the field's end.
#[derive(Clone, Copy)]
struct Scanned {
    number: Option<u64>,
    end: usize,
}

// What stands behind a field: a comma, or the LF that ends the line.
#[derive(Clone, Copy)]
pub enum Stop {
    Comma,
    LineEnd,
}

// A decimal digit's value.
fn digit_of(byte: u8) -> Option<u64>
    ensures { MatchOption result (48 ≤ byte → byte ≤ 57 → ⊥) (λ n. (48 ≤ byte) × (byte ≤ 57) × (n ≡ byte - 48)) }
{
    match byte {
        b'0'..=b'9' => Some(u64::from(byte - b'0')),
        _ => None,
    }
}

// The field that starts here, in one pass over its bytes: it ends at a comma, at the LF or where the sheet ends.
fn scan_field(s: &[u8], start: usize) -> Scanned
    requires { start ≤ length s.now }
    ensures { ScannedAt s.now start result }
{
    let mut value = 0;
    for end in start..s.len() {
        match digit_of(s[end]) {
            Some(digit) => value = (value * 10 + digit).min(CAP),
            None => match s[end] {
                b',' | b'\n' => {
                    return Scanned {
                        number: Some(value),
                        end,
                    };
                }
                _ => {
                    return Scanned {
                        number: None,
                        end: first_end(s, end + 1),
                    };
                }
            },
        }
    }
    Scanned {
        number: Some(value),
        end: s.len(),
    }
}

// The field that starts here. A number is one or more decimal digits, however many, with no leading zero except `0` itself.
pub fn read_field(s: &[u8], start: usize) -> FieldRead
    requires { start ≤ length s.now }
    ensures field_read_at { FieldReadAt s.now start result }
    ensures bounded { FieldBounds s.now start result }
{
    let f = scan_field(s, start);
    let said = match &s[start..f.end] {
        [] | [b'0', _, ..] => Said::Other,
        [b'-'] => Said::Dash,
        _ => f.number.map_or(Said::Other, Said::Number),
    };
    FieldRead { said, end: f.end }
}

// The place behind the line's first field.
pub fn first_end(s: &[u8], start: usize) -> usize
    requires { start ≤ length s.now }
    ensures value { result ≡ start + field_length (drop start s.now) }
    ensures bounded { result ≤ length s.now }
{
    for end in start..s.len() {
        if let b',' | b'\n' = s[end] {
            return end;
        }
    }
    s.len()
}
