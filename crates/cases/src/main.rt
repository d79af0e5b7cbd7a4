// Sheets that another implementation judged, kept as data: each is judged again, and number, line, length and every byte of
// a report space that was filled before are compared. Each is also read as records and written again: the same bytes, or the same refusal,
// report space aside. A case is five numbers of eight digits (sheet length, space length, number, line,
// report length), the sheet, and the report.
#![tactic(auto)]

ghost use Rattle.std.specs.Prelude.{◌+◌, ◌≤◌};

use answers::Answer;
use checks::refusals::Refusal;
use input::read_full;
use std::io::Stdin;

const HEADER: usize = 40;

// The longest sheet, and the longest space.
const SHEET: usize = 131072;

const SPACE: usize = 8192;

// The longest accepted sheet, and the words of the records of the greatest number of lines.
const WRITTEN: usize = 65536;

const RECORDS: usize = 4096;

const LIST: usize = 9 * RECORDS;

// What every byte of a space is before: no byte of a report.
const FILL: u8 = 165;

// More cases than there are.
const MOST: usize = 100000;

// What a case's header says: the lengths of its sheet and of its space, and the number, line and report length that it should give.
#[derive(Clone, Copy)]
struct Case {
    sheet: usize,
    space: usize,
    number: u64,
    line: usize,
    report: usize,
    ghost fits: { (sheet ≤ 131072) × (space ≤ 8192) × (report ≤ 8192) },
}

// The digit of a byte, by its four low bits: each header is read, whatever its bytes are.
fn digit(byte: u8) -> usize
    ensures { result ≤ 15 }
{
    usize::from(byte % 16)
}

fn two_digits(h: &[u8; HEADER], at: usize) -> usize
    requires { at + 2 ≤ 40 }
    ensures { result ≤ 165 }
{
    digit(h[at]) * 10 + digit(h[at + 1])
}

// The number of eight digits at a place.
fn number_at(h: &[u8; HEADER], at: usize) -> usize
    requires { at + 8 ≤ 40 }
{
    let high = two_digits(h, at) * 100 + two_digits(h, at + 2);
    let low = two_digits(h, at + 4) * 100 + two_digits(h, at + 6);
    high * 10000 + low
}

// The case of a header, if it is of the greatest lengths at most.
fn case_of(h: &[u8; HEADER]) -> Option<Case> {
    let sheet = number_at(h, 0);
    let space = number_at(h, 8);
    let number = number_at(h, 16) as u64;
    let line = number_at(h, 24);
    let report = number_at(h, 32);
    if (SHEET < sheet) | (SPACE < space) | (SPACE < report) {
        return None;
    }
    Some(Case {
        sheet,
        space,
        number,
        line,
        report,
    })
}

// Whether the space has the report first, and past it what it had before.
fn as_wanted(space: &[u8; SPACE], report: &[u8]) -> bool {
    match space.split_at_checked(report.len()) {
        Some((first, rest)) => (first == report) & rest.iter().all(|&byte| byte == FILL),
        None => false,
    }
}

// Whether the sheet is refused as a sheet to be read, by this number and line, or its records, written, are the same bytes.
fn round_trip(sheet: &[u8], case: Case) -> bool {
    let mut list = [0u64; LIST];
    let mut space = [FILL; WRITTEN];
    match sheet_reader::read(sheet, &mut list) {
        Err(refused) => (u64::from(refused.refusal) == case.number) & (refused.line == case.line),
        Ok(_) if (case.number != 0) & (case.number != u64::from(Refusal::SpaceTooShort)) => false,
        Ok(count) if RECORDS < count => false,
        Ok(count) => match sheet_writer::write(&list[..9 * count], &mut space) {
            Ok(length) => (length == sheet.len()) & space.starts_with(sheet),
            Err(_) => false,
        },
    }
}

// Whether the input had as many bytes as the buffer holds, and no read failed.
fn fills(stdin: &mut Stdin, buffer: &mut [u8]) -> bool {
    matches!(read_full(stdin, buffer), Ok(got) if got == buffer.len())
}

// Whether a case, whose header is read, comes out as it should.
fn holds(stdin: &mut Stdin, case: Case) -> bool {
    let mut sheet = [0u8; SHEET];
    let mut wanted = [0u8; SPACE];
    let mut space = [FILL; SPACE];
    let sheet = &mut sheet[..case.sheet];
    let wanted = &mut wanted[..case.report];
    if !fills(stdin, sheet) || !fills(stdin, wanted) {
        return false;
    }
    let answer = Answer::from(writer::report(sheet, &mut space[..case.space]));
    (answer.number == case.number)
        & (answer.line == case.line)
        & (answer.length == case.report)
        & as_wanted(&space, wanted)
        & round_trip(sheet, case)
}

fn main(rt: HostRuntime) {
    let mut stdin = rt.stdin();
    let mut header = [0u8; HEADER];
    let mut tried: usize = 0;
    let mut different: usize = 0;
    for _ in 0..MOST {
        if !fills(&mut stdin, &mut header) {
            break;
        }
        tried += 1;
        match case_of(&header) {
            Some(case) if holds(&mut stdin, case) => {}
            _ => different += 1,
        }
    }
    let _ = println!(rt; "{tried} cases, different: {different}");
}
