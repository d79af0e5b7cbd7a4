// Document 01, "The report": the lines of a reckoning's report, written into a lent space.
#![tactic(auto)]

ghost use Rattle.std.specs.Prelude.{◌≡◌, ◌≤◌, length};
ghost use Rattle.decimal.specs.Writing.{Put};
ghost use Rattle.report.specs.Report.{specific};
ghost use Rattle.report.specs.Spelling.{thousandths};
ghost use Rattle.figures.specs.Figures.{held};
ghost use Rattle.sheet.specs.Most.{MOST};
ghost use Rattle.rows.specs.Held.{CanBeWritten, row_said, fields_of, rows_bytes, bytes_held};

use figures::{Figure, put_line};
use last_line::{LastLine, put_totals};
use quantity::{Grams, Kilos};
use reckoning::Reckoning;

// As many fields as a process's line has behind its letter.
const FIELDS: usize = 10;

// Specific embedded emissions: pool/output in g/kg, three digits after the dot, cut down.
#[tactic(auto, using(crate::proofs::Figures::specific_parted))]
fn specific_figure(pool: Grams, output: Kilos) -> Figure
    requires { (1 ≤ output.0) × (output.0 ≤ MOST) }
    ensures { result ≡ held (thousandths (specific pool.0 output.0)) }
{
    let grams = pool.0;
    let kilos = output.0;
    Figure::Parts(grams / kilos, grams % kilos * 1000 / kilos)
}

// What the line of a process shows, and its output.
#[derive(Clone, Copy)]
pub struct Row {
    pub process: usize,
    pub output: Kilos,
    pub direct: Grams,
    pub indirect: Grams,
    pub raised: Grams,
    pub direct_pool: Grams,
    pub indirect_pool: Grams,
    pub direct_left: Grams,
    pub indirect_left: Grams,
}

// The fields of a process's line.
#[tactic(auto, unfolding(crate::specs::Held::fields_of, report::specs::Spelling::row_line))]
fn row_fields(row: Row) -> [Figure; FIELDS]
    requires { (1 ≤ row.output.0) × (row.output.0 ≤ MOST) }
    ensures { result ≡ fields_of (row_said row) }
{
    let output = row.output;
    let direct_pool = row.direct_pool;
    let indirect_pool = row.indirect_pool;
    [
        Figure::Whole(row.process as u64),
        Figure::Whole(row.direct.0),
        Figure::Whole(row.indirect.0),
        Figure::Whole(row.raised.0),
        Figure::Whole(direct_pool.0),
        Figure::Whole(indirect_pool.0),
        Figure::Whole(row.direct_left.0),
        Figure::Whole(row.indirect_left.0),
        specific_figure(direct_pool, output),
        specific_figure(indirect_pool, output),
    ]
}

// Writes the lines of all processes. `CanBeWritten` is a clause here, in `put_report` and in `answers::put_within`, and no invariant of a
// reckoning: the reckoner's own contract gives it, and an invariant would say it a second time.
#[tactic(auto, using(crate::proofs::Rows::rows_none, decimal::proofs::Writing::put_none))]
fn put_rows(space: &mut [u8], r: &Reckoning) -> usize
    requires { (CanBeWritten r.now) × (length (bytes_held r.now) ≤ length space.old) }
    ensures { Put space.old 0 (rows_bytes r.now r.now.count) space.new result }
{
    let mut at: usize = 0;
    for k in 1..=r.count {
        let row = Row {
            process: k,
            output: Kilos(r.outputs.0[k]),
            direct: Grams(r.figures.attributed.direct.0[k]),
            indirect: Grams(r.figures.attributed.indirect.0[k]),
            raised: Grams(r.figures.raised.0[k]),
            direct_pool: Grams(r.figures.pools.direct.0[k]),
            indirect_pool: Grams(r.figures.pools.indirect.0[k]),
            direct_left: Grams(r.figures.lefts.direct.0[k]),
            indirect_left: Grams(r.figures.lefts.indirect.0[k]),
        };
        at = put_line(space, at, b'R', &row_fields(row));
    }
    at
}

// Writes the report at the start of a space that has room for it.
#[tactic(auto, using(crate::proofs::Rows::report_long))]
pub fn put_report(space: &mut [u8], r: &Reckoning) -> usize
    requires { (CanBeWritten r.now) × (length (bytes_held r.now) ≤ length space.old) }
    ensures { Put space.old 0 (bytes_held r.now) space.new result }
{
    let at = put_rows(space, r);
    let last = LastLine {
        left: r.figures.left,
        entered: r.entered,
        raised: r.figures.total_raised,
        uncredited: r.uncredited,
    };
    put_totals(space, at, last)
}
