// Document 01, "Sheets sent back", and document 02, ticket 4: the verdict of a sheet by rows 1 to 14, 17 and 18, from its bytes or from the
// records that a caller lends. Its lines are judged and noted as those of a sheet that is reckoned; nothing is weighed.
#![tactic(auto)]

ghost use Rattle.std.specs.Prelude.{◌≡◌, ◌+◌, ◌^◌, ◌≤◌, ◌<◌, ltb, length};
ghost use Rattle.quantity.specs.Limits.{limits};
ghost use Rattle.lines.specs.Words.{ReadAt};
ghost use Rattle.lent.specs.Lent.{sheet_lent};
ghost use Rattle.judged.specs.Judged.{is_lent, bytes_of, list_of, sheet_of, size_given, Spelt, Near, UsesJudged, LinesJudged, SheetJudged};
ghost use Rattle.lines.specs.Records.{records_of};
ghost use Rattle.gathering.specs.Gathered.{StatedIn, LinesPass};

use checks::refusals::{Refusal, Refused};
use entries::KeptLine;
use goods::{KilosByPair, PAIRS};
use lent::{RECORD, lent_line};
use lines::LineRead;
use noting::note_line;
use quantity::limits::BYTES;
use record_lines::sheet_length;
use records::read_line;
use works::{Noted, Stated};

// How many lines and how many bytes an accepted sheet has.
#[derive(Clone, Copy)]
pub struct Judged {
    pub lines: usize,
    pub length: usize,
}

// A sheet as it is given: its bytes, or the records that spell it.
#[derive(Clone, Copy)]
enum SheetGiven<'a> {
    Bytes(&'a [u8]),
    Lent(&'a [u64]),
}

impl<'a> SheetGiven<'a> {
    // Whether a line starts at a place of the sheet, behind so many lines.
    #[tactic(auto, using(crate::proofs::Given::more_lent))]
    fn more(self, at: usize, lines: usize) -> bool
        requires spelt { Spelt (is_lent self) (list_of self) at lines }
        requires few { lines ≤ limits.lines }
        ensures { result ≡ ltb at (length (sheet_of self.entry)) }
    {
        match self {
            SheetGiven::Bytes(s) => at < s.len(),
            SheetGiven::Lent(records) => lines * RECORD < records.len(),
        }
    }

    // How many bytes the sheet has, None where each of its lines has its LF, as those of lent records do.
    fn size(self) -> Option<usize>
        ensures value { result ≡ size_given (is_lent self.entry) (bytes_of self.entry) }
        ensures bounded { length (bytes_of self.entry) < 2 ^ 64 }
    {
        match self {
            SheetGiven::Bytes(s) => Some(s.len()),
            SheetGiven::Lent(_) => None,
        }
    }

    // The line that starts at a place of the sheet, behind so many lines: read from its bytes, or taken from the record that spells it. It is
    // inlined, as `lent_line` is: two loops call it, and with a call for each line 4,096 short records took a third longer.
    #[tactic(auto, using(crate::proofs::Given::there))]
    #[inline(always)]
    fn line_at(self, at: usize, lines: usize) -> LineRead
        requires spelt { Spelt (is_lent self) (list_of self) at lines }
        requires few { (lines ≤ limits.lines) × Near (is_lent self) at lines }
        requires inside { at < length (sheet_of self) }
        ensures read_at { ReadAt (sheet_of self.entry) at result }
        ensures bounded { Near (is_lent self.entry) (result.end + 1) (lines + 1) }
    {
        match self {
            SheetGiven::Bytes(s) => read_line(s, at),
            SheetGiven::Lent(records) => lent_line(records, lines * RECORD, at),
        }
    }
}

// Row 18, once all lines have passed: the first N line whose precursor has no K line. The function is not inlined, so that for a sheet
// without N lines none of its locals is set to zero.
#[inline(never)]
fn judge_uses(sheet: SheetGiven, stated: &Stated) -> Result<(), Refused>
    requires passed { LinesPass (sheet_of sheet) }
    requires stated { StatedIn (records_of (sheet_of sheet)) stated.now }
    requires bounded { length (bytes_of sheet) < 2 ^ 64 }
    ensures { UsesJudged (sheet_of sheet.entry) result }
{
    let mut at: usize = 0;
    let mut lines: usize = 0;
    while sheet.more(at, lines) {
        let l = sheet.line_at(at, lines);
        at = l.end + 1;
        lines += 1;
        if l.letter == b'N' && stated.ranks(l.words[1]) == 0 {
            return Err(Refused {
                refusal: Refusal::NoFigures,
                line: lines,
            });
        }
    }
    Ok(())
}

// Rows 2 to 13 and 17 over all lines of a sheet, and then row 18.
fn judge_lines(sheet: SheetGiven) -> Result<Judged, Refused>
    ensures { LinesJudged (sheet_of sheet.entry) result }
{
    let size = sheet.size();
    let mut kilos: KilosByPair = [0; PAIRS];
    let mut noted = Noted::none();
    let mut stated = Stated::none();
    let mut at: usize = 0;
    // not `records::Lines`, which reads bytes only: lent records are found by the number of lines, and the last place is the sheet's length
    while sheet.more(at, noted.lines) {
        let l = sheet.line_at(at, noted.lines);
        let line = noted.lines + 1;
        noted
            .judge(&stated, &kilos, &l, size)
            .map_err(|refusal| Refused { refusal, line })?;
        at = l.end + 1;
        let kept = KeptLine { line: &l };
        note_line(&mut noted, &mut stated, &mut kilos, kept);
    }
    if stated.used {
        judge_uses(sheet, &stated)?;
    }
    Ok(Judged {
        lines: noted.lines,
        length: at,
    })
}

// The verdict of a sheet.
#[tactic(auto, using(crate::proofs::Whole::too_long, crate::proofs::Whole::none_at_all, crate::proofs::Whole::lines_decide))]
pub fn judge_sheet(s: &[u8]) -> Result<Judged, Refused>
    ensures { SheetJudged s.now result }
{
    if BYTES < s.len() {
        return Err(Refused::from(Refusal::TooManyBytes));
    }
    if s.is_empty() {
        return Err(Refused::from(Refusal::EmptySheet));
    }
    judge_lines(SheetGiven::Bytes(s))
}

// The verdict of the sheet that lent records spell. Row 1 comes first in the verdict and is asked last: the lines of an accepted sheet
// are measured as they are judged, and only a refused one is measured by itself.
#[tactic(auto, using(crate::proofs::Whole::too_long, crate::proofs::Whole::none_at_all, crate::proofs::Whole::lines_decide, crate::proofs::Whole::none_spelt, crate::proofs::Whole::some_spelt))]
pub fn judge_records(records: &[u64]) -> Result<Judged, Refused>
    ensures { SheetJudged (sheet_lent records.now) result }
{
    if records.is_empty() {
        return Err(Refused::from(Refusal::EmptySheet));
    }
    match judge_lines(SheetGiven::Lent(records)) {
        Ok(sheet) => {
            if BYTES < sheet.length {
                return Err(Refused::from(Refusal::TooManyBytes));
            }
            Ok(sheet)
        }
        Err(refused) => {
            if BYTES < sheet_length(records) {
                return Err(Refused::from(Refusal::TooManyBytes));
            }
            Err(refused)
        }
    }
}
