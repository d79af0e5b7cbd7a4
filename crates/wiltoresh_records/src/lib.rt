// The writer and the reader of records, for programs in other languages: include/wiltoresh.h declares them.
#![tactic(auto)]

ghost use Rattle.std.specs.Prelude.{◌≡◌};
ghost use Rattle.answers.specs.Given.{gives};
ghost use Rattle.record_exchange.specs.Exchange.{sheet_written, records_read};

use answers::Answer;

// The sheet of lent records. The result is the refusal's number, 0 where the sheet is written.
#[unsafe(no_mangle)]
pub extern "C" fn wiltoresh_write(
    records: &[u64],
    space: &mut [u8],
    line: &mut usize,
    length: &mut usize,
) -> u64
    ensures { gives (record { number = result; line = line.new; length = length.new }) space.new
        ≡ sheet_written records.now space.old }
{
    let answer = Answer::from(sheet_writer::write(records, space));
    *line = answer.line;
    *length = answer.length;
    answer.number
}

// The records of a sheet. The result is the refusal's number, 0 where the list has them; `count` is how many they are.
#[unsafe(no_mangle)]
pub extern "C" fn wiltoresh_read(
    sheet: &[u8],
    records: &mut [u64],
    line: &mut usize,
    count: &mut usize,
) -> u64
    ensures { gives (record { number = result; line = line.new; length = count.new }) records.new
        ≡ records_read sheet.now records.old }
{
    let answer = Answer::from(sheet_reader::read(sheet, records));
    *line = answer.line;
    *count = answer.length;
    answer.number
}
