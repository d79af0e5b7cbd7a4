// Where a line stands in the sheet, and the offending line had back.
#![tactic(auto)]

ghost use Rattle.std.specs.Prelude.{◌≡◌, ◌+◌, ◌≤◌, length, drop};
ghost use Rattle.lines.specs.Lines.{lines_of, line_start};
ghost use Rattle.lines.specs.Words.{line_length};
ghost use Rattle.places.specs.LinePlace.{offending_line, part_of, behind};
ghost use Rattle.places.specs.LineStart.{start_of};

// Where a line stands in the sheet, without its LF.
#[derive(Clone, Copy)]
pub struct Place {
    pub start: usize,
    pub length: usize,
}

// The place of the LF of the line that starts here, or of the sheet's end where it lacks it.
pub fn line_end(s: &[u8], start: usize) -> usize
    requires { start ≤ length s.now }
    ensures value { result ≡ start + line_length (drop start s.now) }
    ensures bounded { (start ≤ result) × (result ≤ length s.now) }
{
    let rest = &s[start..];
    let length = rest.iter().position(|&byte| byte == b'\n');
    start + length.unwrap_or(rest.len())
}

// The place where a line starts. Line 1 is the first.
fn line_start(s: &[u8], line: usize) -> usize
    ensures { result ≡ line_start (lines_of s.now) line }
{
    let mut start: usize = 0;
    for _ in 1..line {
        if s.len() <= start {
            return start;
        }
        start = line_end(s, start) + 1;
    }
    start
}

// The place where the line starts that ends here.
pub fn start_before(s: &[u8], end: usize) -> usize
    requires { end ≤ length s.now }
    ensures { result ≡ start_of s.now end }
{
    let mut start = end;
    while start > 0 && s[start - 1] != b'\n' {
        start -= 1;
    }
    start
}

// The place of a line in the sheet: of length 0 for line 0 and, at the sheet's end, past the last line. No Option: C gets these two numbers.
pub fn line_place(s: &[u8], line: usize) -> Place
    ensures { result ≡ offending_line s.now line }
{
    if line == 0 {
        return Place {
            start: 0,
            length: 0,
        };
    }
    let start = line_start(s, line);
    if s.len() <= start {
        return Place {
            start: s.len(),
            length: 0,
        };
    }
    let end = line_end(s, start);
    Place {
        start,
        length: end - start,
    }
}

// The offending line as that part of the lent sheet, without its LF: empty where the line is 0.
pub fn offending_line(s: &[u8], line: usize) -> &[u8]
    ensures result_value { result.now ≡ part_of s.now (offending_line s.now line) }
    ensures lent { result.ref_ptr ≡ behind s.entry.ref_ptr (offending_line s.now line).start }
{
    let place = line_place(s, line);
    let start = place.start;
    let end = start + place.length;
    &s[start..end]
}
