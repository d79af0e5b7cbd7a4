// Document 02, ticket 1: the lines of lent records, measured, and written into a lent space. The definitions are in lent.
#![tactic(auto)]

ghost use Rattle.std.specs.Prelude.{◌≡◌, ◌∷◌, ◌++◌, [], ◌+◌, ◌≤◌, min, length};
ghost use Rattle.quantity.specs.Limits.{limits};
ghost use Rattle.decimal.specs.Writing.{Put};
ghost use Rattle.lines.specs.Lines.{LF, COMMA};
ghost use Rattle.lines.specs.Spelling.{spell_field};
ghost use Rattle.sheet.specs.Ranges.{KeepsRanges};
ghost use Rattle.sheet.specs.Verdict.{accepted, first_of, sheet_checks};
ghost use Rattle.lent.specs.Lent.{RECORD, field_lent, record_lent, spell_lent, sheet_lent};

use lent::{DASH_WORD, RECORD, field_count, line_length};
use quantity::limits::BYTES;

// ---- fields

// Writes a comma and a field before a place, and gives the place of the comma. Space and place are two parameters,
// here and wherever bytes are put: clauses say by `Put` where bytes stand in the whole space, and what is written gives the next place.
fn put_field(space: &mut [u8], end: usize, word: u64) -> usize
    requires { (length (spell_field (field_lent word)) + 1 ≤ end) × (end ≤ length space.old) }
    ensures { Put space.old result (COMMA ∷ spell_field (field_lent word)) space.new end }
{
    let first = match word {
        DASH_WORD => {
            space[end - 1] = b'-';
            end - 1
        }
        number => decimal::put_before(space, end, number),
    };
    space[first - 1] = b',';
    first - 1
}

// ---- records

// Writes the line of a lent record before a place of a lent space, its LF too, and gives the place where the line starts. The record keeps
// its ranges: it has as many fields as its kind.
#[inline(always)]
fn put_record(space: &mut [u8], end: usize, words: &[u64]) -> usize
    requires keeps_ranges { KeepsRanges limits (record_lent words.now) }
    requires words_len_bound { (length (spell_lent (record_lent words.now)) + 1 ≤ end) × (end ≤ length space.old) }
    ensures { Put space.old result (spell_lent (record_lent words.now) ++ (LF ∷ [])) space.new end }
{
    let letter = words[0];
    let mut next = end - 1;
    space[next] = b'\n';
    for word in words[1..=field_count(letter)].iter().rev() {
        next = put_field(space, next, *word);
    }
    space[next - 1] = letter as u8;
    next - 1
}

// ---- sheets

// How many bytes the sheet of lent records has; one more than a sheet may have stands for each length above.
#[tactic(auto, using(crate::proofs::Lines::chunk_more, crate::proofs::Lines::sheet_none_left))]
pub fn sheet_length(records: &[u64]) -> usize
    ensures { result ≡ min (length (sheet_lent records.now)) (limits.bytes + 1) }
{
    let mut length = 0;
    for record in records.chunks(RECORD) {
        length += line_length(record);
        if BYTES < length {
            return BYTES + 1;
        }
    }
    length
}

// Writes the sheet of lent records at the start of a space that has room for it: the last line first. The sheet is accepted and has this size.
pub fn put_sheet(space: &mut [u8], records: &[u64], size: usize)
    requires records_value { first_of (sheet_checks limits (sheet_lent records.now)) ≡ accepted }
    requires size_value { (size ≡ length (sheet_lent records.now)) × (size ≤ length space.old) }
    ensures { Put space.old 0 (sheet_lent records.now) space.new size }
{
    // the full records and a last one that was cut short: divided once, since a division for each record is slow
    let (full, cut) = records.split_at(records.len() / RECORD * RECORD);
    let mut next = size;
    if !cut.is_empty() {
        next = put_record(space, next, cut);
    }
    for record in full.rchunks(RECORD) {
        next = put_record(space, next, record);
    }
}
