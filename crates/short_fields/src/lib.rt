// Short numbers and `-`, in a sheet whose last byte is LF: no digit is the last byte, and so no loop over digits asks for the sheet's end.
#![tactic(auto)]

ghost use Rattle.std.specs.Prelude.{◌≡◌, true, ◌<◌, length, get_or};
ghost use Rattle.fields.specs.Scan.{EndsInLF};
ghost use Rattle.short_fields.specs.Short.{is_leading, DigitsAt, ended_word, short_at};

use fields::Stop;
use lines::DASH;

// Digits that a field starts with: their value, and the place after them. Here and in `fields` and `heads` too the sheet and a place in it
// are given, for the reason in `records`.
#[derive(Clone, Copy)]
struct Digits {
    value: u64,
    end: usize,
}

// A short number or `-`: its word, the place behind it, and what stands there.
#[derive(Clone, Copy)]
pub struct ShortField {
    pub word: u64,
    pub end: usize,
    pub stop: Stop,
}

// A value below this stays below CAP with one digit more.
const SHORT: u64 = 100000000000000;

// The digits that a field starts with, as long as their value needs no cap. That the sheet ends in LF is a clause, and no type of
// such sheets: a line's head tells it of each line anew.
fn leading_digits(s: &[u8], start: usize) -> Digits
    requires start_in_bounds { (start < length s.now) × EndsInLF s.now }
    requires start_value { is_leading (get_or s.now start 0) ≡ true }
    ensures { DigitsAt s.now start result }
{
    let mut value = u64::from(s[start] - b'0');
    let mut end = start + 1;
    // not a `for` over the bytes: that would ask for the sheet's end at each digit
    while value < SHORT && s[end].is_ascii_digit() {
        value = value * 10 + u64::from(s[end] - b'0');
        end += 1;
    }
    Digits { value, end }
}

// A word whose field ends here, if a comma or LF stands here.
fn ended_word(s: &[u8], word: u64, end: usize) -> Option<ShortField>
    requires { end < length s.now }
    ensures { result ≡ ended_word s.now word end }
{
    let stop = match s[end] {
        b',' => Stop::Comma,
        b'\n' => Stop::LineEnd,
        _ => return None,
    };
    Some(ShortField { word, end, stop })
}

// The field that starts here, if it is a number below CAP or `-`, with a comma or LF behind it.
pub fn short_field(s: &[u8], start: usize) -> Option<ShortField>
    requires { (start < length s.now) × EndsInLF s.now }
    ensures { result ≡ short_at s.now start }
{
    // apart from the `match`, which would test for these digits last: lines would be read up to 10 percent slower
    if let b'1'..=b'9' = s[start] {
        let digits = leading_digits(s, start);
        return ended_word(s, digits.value, digits.end);
    }
    match s[start] {
        b'0' => ended_word(s, 0, start + 1),
        b'-' => ended_word(s, DASH, start + 1),
        _ => None,
    }
}
