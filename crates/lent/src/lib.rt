// Document 02, ticket 1: records as callers lend them, nine words each, in the words of a line that was read. The definitions are in specs/.
#![tactic(auto)]

ghost use Rattle.std.specs.Prelude.{◌≡◌, ◌+◌, ◌^◌, ◌≤◌, ◌<◌, length, get_or, MatchOption};
ghost use Rattle.lent.specs.AsRead.{LentAt};
ghost use Rattle.lines.specs.Words.{word, words};
ghost use Rattle.lines.specs.Spelling.{spell_field};
ghost use Rattle.sheet.specs.Kinds.{kind_of};
ghost use Rattle.lent.specs.Lent.{RECORD, field_lent, field_count, record_lent, spell_lent};

use lines::{CAP, DASH, LineRead, WORDS};
use sheet::Kind;

// Words of one record: the kind's letter, then eight fields in the line's order.
pub const RECORD: usize = 9;

// `-` as a lent word.
pub const DASH_WORD: u64 = u64::MAX;

// How many fields a line of this letter has, 0 for no letter of a kind.
// The definition `field_count` has 0 for Unknown.
#[tactic(auto, unfolding(sheet::specs::Kinds::kind_of, sheet::specs::Kinds::kind_among, sheet::specs::Kinds::rules))]
pub fn field_count(letter: u64) -> usize
    ensures { result ≡ field_count (kind_of letter) }
{
    match u8::try_from(letter).map_or(Kind::Unknown, Kind::from) {
        Kind::Process => 2,
        Kind::SourceStream => 8,
        Kind::MeasurableHeat | Kind::Electricity | Kind::BoughtPrecursor | Kind::PrecursorFigures =>
            4,
        Kind::WasteGas | Kind::OwnGood | Kind::PrecursorUse => 3,
        Kind::Unknown => 0,
    }
}

// A lent word as the word of a field that was read.
#[tactic(auto, unfolding(lines::specs::Words::word))]
pub fn lent_word(lent: u64) -> u64
    ensures { result ≡ word (field_lent lent) }
{
    match lent {
        DASH_WORD => DASH,
        number => number.min(CAP),
    }
}

// How many bytes a field has, the comma before it among them.
#[tactic(auto, using(crate::proofs::Lines::dash_spelt, crate::proofs::Lines::number_spelt))]
fn field_length(word: u64) -> usize
    ensures value { result ≡ length (spell_field (field_lent word)) + 1 }
    ensures bounded { result ≤ 21 }
{
    match word {
        DASH_WORD => 2,
        number => decimal::width(number) + 1,
    }
}

// ---- a record

// How many fields a lent record has, from the count of its kind: as many as its kind, or all words behind the letter where a further one is
// not 0. It is lent words and no `LentRecord`, since the count that a `LentRecord` holds is made of them.
fn said_count(words: &[u64], count: usize) -> usize
    requires in_bounds { (1 ≤ length words.now) × (length words.now ≤ RECORD) }
    requires count_value { (count ≡ field_count (kind_of (get_or words.now 0 0))) × (1 ≤ count) }
    ensures value { result ≡ length (record_lent words.now).said }
    ensures bounded { result + 1 ≤ length words.now }
{
    let behind = words.len() - 1;
    if count < behind && words[count + 1..].iter().all(|word| *word == 0) {
        count
    } else {
        behind
    }
}

// A lent record whose first word is the letter of a kind, and how many fields it has.
#[derive(Clone, Copy)]
struct LentRecord<'a> {
    words: &'a [u64],
    count: usize,
    ghost some_letter: { 1 ≤ (record_lent words.now).letter },
    ghost count_value: { count ≡ length (record_lent words.now).said },
    ghost few: { (count + 1 ≤ length words.now) × (length words.now ≤ RECORD) },
}

impl<'a> LentRecord<'a> {
    // None where the first word is no letter of a kind.
    #[tactic(auto, using(crate::proofs::Counts::some_letter))]
    fn of(words: &'a [u64]) -> Option<LentRecord<'a>>
        requires { (1 ≤ length words.now) × (length words.now ≤ RECORD) }
        ensures { MatchOption result (field_count (kind_of (get_or words.now 0 0)) ≡ 0) (λ r. r.words.now ≡ words.now) }
    {
        match field_count(words[0]) {
            0 => None,
            count => Some(LentRecord {
                words,
                count: said_count(words, count),
            }),
        }
    }

    #[tactic(auto, using(crate::proofs::Counts::letter_some, crate::proofs::Counts::some_lent, crate::proofs::Stores::letter_small))]
    fn letter(&self) -> u8
        ensures { result ≡ (record_lent self.now.words.now).letter }
    {
        self.words[0] as u8
    }

    // The words of its fields as those of a line that was read, 0 where there are fewer than eight: words past the fields are 0 already.
    #[tactic(auto, using(crate::proofs::Lines::field_at, crate::proofs::Full::one_held, crate::proofs::Full::all_held))]
    fn field_words(&self) -> [u64; WORDS]
        ensures { result ≡ words (record_lent self.now.words.now).said }
    {
        let mut held = [0; WORDS];
        for (k, word) in self.words[1..].iter().enumerate() {
            held[k] = lent_word(*word);
        }
        held
    }

    // How many bytes its letter and its fields have.
    #[tactic(auto, using(crate::proofs::Lines::fields_none, crate::proofs::Lines::field_at, crate::proofs::Lines::length_more, crate::proofs::Lines::record_spelt))]
    fn length(&self) -> usize
        ensures value { result ≡ length (spell_lent (record_lent self.now.words.now)) }
        ensures bounded { result ≤ 169 }
    {
        let mut length = 1;
        for word in &self.words[1..=self.count] {
            length += field_length(*word);
        }
        length
    }
}

// How many bytes the line of a lent record has, its LF among them.
#[tactic(auto, using(crate::proofs::Lines::none_spelt))]
pub fn line_length(words: &[u64]) -> usize
    requires { (1 ≤ length words.now) × (length words.now ≤ RECORD) }
    ensures value { result ≡ length (spell_lent (record_lent words.now)) + 1 }
    ensures bounded { result ≤ 170 }
{
    match LentRecord::of(words) {
        None => 1,
        Some(record) => record.length() + 1,
    }
}

// ---- a list of records

// A record that is lent by itself, as the line that it spells: `start` is where the line starts in the sheet, and `end` the place of its LF there.
#[inline(always)]
#[tactic(auto, using(crate::proofs::Stores::alone, crate::proofs::Stores::lent_at))]
fn line_of(words: &[u64], start: usize) -> LineRead
    requires in_bounds { (1 ≤ length words.now) × (length words.now ≤ RECORD) }
    requires start_bound { start ≤ 2 ^ 32 }
    ensures lent_at { LentAt words.now 0 start result }
    ensures bounded { (start ≤ result.end) × (result.end ≤ start + 169) }
{
    match LentRecord::of(words) {
        None => LineRead {
            letter: 0,
            count: 0,
            words: [0; WORDS],
            end: start,
        },
        Some(record) => LineRead {
            letter: record.letter(),
            count: record.count,
            words: record.field_words(),
            end: start + record.length(),
        },
    }
}

// The record that starts at a place of the list, as the line that it spells. The two calls are the same but for what the compiler knows: a
// record that the list's end does not cut short has nine words.
#[tactic(auto, using(crate::proofs::Stores::cut_at, crate::proofs::Stores::full_at))]
#[inline(always)]
pub fn lent_line(list: &[u64], place: usize, start: usize) -> LineRead
    requires place_in_bounds { place < length list.now }
    requires start_bound { start ≤ 2 ^ 32 }
    ensures lent_at { LentAt list.now place start result }
    ensures bounded { (start ≤ result.end) × (result.end ≤ start + 169) }
{
    let behind = &list[place..];
    if behind.len() < RECORD {
        line_of(behind, start)
    } else {
        line_of(&behind[..RECORD], start)
    }
}
