// Document 02, ticket 1: the words of the records of an accepted sheet, nine a record, put into a lent list. The definitions are in lent.
#![tactic(auto)]

ghost use Rattle.std.specs.Prelude.{◌≡◌, ◌+◌, ◌≤◌, length};
ghost use Rattle.quantity.specs.Limits.{limits};
ghost use Rattle.decimal.specs.Writing.{Put};
ghost use Rattle.lines.specs.Records.{records_of};
ghost use Rattle.sheet.specs.Verdict.{accepted, first_of, sheet_checks};
ghost use Rattle.lent.specs.Lent.{RECORD, words_of};
ghost use Rattle.sheet_words.specs.LineWords.{as_lent, line_words};

use lent::{DASH_WORD, RECORD};
use lines::{DASH, LineRead};
use records::Lines;

// A field's word as a lent word.
fn as_lent(word: u64) -> u64
    ensures { result ≡ as_lent word }
{
    match word {
        DASH => DASH_WORD,
        number => number,
    }
}

// Puts the words of a line that was read at a place of a lent list: its letter, then eight fields, `-` as DASH_WORD, 0 for those that the line does
// not have. Gives the place after them.
fn put_words(list: &mut [u64], at: usize, l: LineRead) -> usize
    requires { at + RECORD ≤ length list.old }
    ensures { Put list.old at (line_words l) list.new result }
{
    list[at] = u64::from(l.letter);
    let first = at + 1;
    for (k, word) in l.words.iter().enumerate() {
        list[first + k] = as_lent(*word);
    }
    at + RECORD
}

// Puts the words of the records of an accepted sheet first in a lent list that has room for them. Gives the place after them.
pub fn put_records(list: &mut [u64], sheet: &[u8]) -> usize
    requires sheet_value { first_of (sheet_checks limits sheet.now) ≡ accepted }
    requires sheet_in_bounds { length (words_of (records_of sheet.now)) ≤ length list.old }
    ensures { Put list.old 0 (words_of (records_of sheet.now)) list.new result }
{
    let mut place = 0;
    for l in Lines::new(sheet) {
        place = put_words(list, place, l);
    }
    place
}
