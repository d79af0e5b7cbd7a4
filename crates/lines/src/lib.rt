// Document 01, "The sheet": lines, fields and records, whatever kinds of lines a list has. The definitions are in specs/.
#![tactic(auto)]

// As many fields as the longest line has after its first.
pub const WORDS: usize = 8;

// A field is held in one word. This is its number, where it stands for each that is as great or greater: it is above every range.
pub const CAP: u64 = 1000000000000000;

// The mark for `-`.
pub const DASH: u64 = CAP + 1;

// The mark for anything else. Marks and no enum: the comparisons with a range's ends refuse both, as they refuse a number above it.
pub const OTHER: u64 = CAP + 2;

// A line that was read: the letter that its first field is, 0 for another first field; how many fields follow it, the words of the
// first eight of them, and the place of its LF, or of the sheet's end where it lacks it.
#[derive(Clone, Copy)]
pub struct LineRead {
    // no Option: in the reader's definitions too, the letter of another first field is 0
    pub letter: u8,
    // not the length of `words`: fields past the eighth count too
    pub count: usize,
    pub words: [u64; WORDS],
    pub end: usize,
}
