// A line read from the sheet's bytes: its letter, then its fields. And the lines of a sheet one after the other.
#![tactic(auto)]

ghost use Rattle.std.specs.Prelude.{◌≡◌, ◌-◌, ◌≤◌, ◌<◌, length};
ghost use Rattle.std.specs.Iterator.{at_most};
ghost use Rattle.lines.specs.Words.{ReadAt};
ghost use Rattle.records.specs.Reading.{ReadSoFar};
ghost use Rattle.records.specs.Lines.{GivesLine};

use fields::{Stop, read_field};
use heads::line_head;
use lines::{LineRead, WORDS};
use steps::{Step, next_field};

// The rest of a line of which some fields are read, whatever the others are. The first eight words are kept; fields past them are
// only counted. Always inlined: where it is called, each line's words go through memory, and a report of short lines has 29 percent more
// instructions.
#[inline(always)]
fn read_on(s: &[u8], start: usize, so_far: LineRead) -> LineRead
    requires { ReadSoFar s.now start so_far }
    ensures read_at { ReadAt s.now start result }
    ensures bounded { (start ≤ result.end) × (result.end ≤ length s.now) }
{
    let mut l = so_far;
    // the number of turns isn't known before: each field says where it ends
    while let Some(b',') = s.get(l.end) {
        let field = read_field(s, l.end + 1);
        // no `get_mut`: its contract says nothing of the words after a write
        if l.count < WORDS {
            l.words[l.count] = field.said.into();
        }
        l.count += 1;
        l.end = field.end;
    }
    l
}

// The line that starts here: its first eight fields as far as they are short numbers or `-`, and then whatever is left of it. The
// eight steps are no loop: each has its own loop over digits, and one loop for all fields takes longer (docs/BENCHMARK.md, "Time follows the
// instructions only in part"). The sheet and a place in it are given, and no rest of the sheet: the line's end is
// a place of the sheet too.
#[inline(always)]
pub fn read_line(s: &[u8], start: usize) -> LineRead
    requires { start < length s.now }
    ensures read_at { ReadAt s.now start result }
    ensures bounded { (start ≤ result.end) × (result.end ≤ length s.now) }
{
    let first = line_head(s, start);
    let a = next_field(s, Step::from(first));
    let b = next_field(s, a);
    let c = next_field(s, b);
    let d = next_field(s, c);
    let e = next_field(s, d);
    let f = next_field(s, e);
    let g = next_field(s, f);
    let h = next_field(s, g);
    let words = [
        a.word, b.word, c.word, d.word, e.word, f.word, g.word, h.word,
    ];
    let l = LineRead {
        letter: first.letter,
        count: h.count,
        words,
        end: h.end,
    };
    match h.stop {
        Some(Stop::LineEnd) => l,
        _ => read_on(s, start, l),
    }
}

// The lines of a sheet, each read where the one before it ended.
#[derive(Drop)]
pub struct Lines<'a> {
    sheet: &'a [u8],
    at: usize,
}

impl<'a> Lines<'a> {
    pub fn new(sheet: &'a [u8]) -> Lines<'a>
        ensures { (result.sheet.now ≡ sheet.now) × (result.at ≡ 0) }
    {
        Lines { sheet, at: 0 }
    }
}

impl Iterator for Lines<'_> {
    type Item = LineRead;

    ghost next_gives = { GivesLine };

    ghost remaining = { λ s. at_most (length s.sheet.now - s.at) };

    #[inline(always)]
    fn next(&mut self) -> Option<LineRead> {
        if self.sheet.len() <= self.at {
            return None;
        }
        let l = read_line(self.sheet, self.at);
        self.at = l.end + 1;
        Some(l)
    }
}
