// A sheet read from the top, each line judged, noted, weighed and booked: one pass over the bytes. A sheet with N lines gets a second pass.
#![tactic(auto)]

ghost use Rattle.std.specs.Prelude.{◌≡◌, ◌≤◌, length};
ghost use Rattle.quantity.specs.Limits.{limits};
ghost use Rattle.lines.specs.Records.{records_of};
ghost use Rattle.gathering.specs.Gathered.{ReadOf, NoKilos, LinesPass, StatedIn, PlacesIn, governing_of, FiguresAt, BooksOf, BookedOf};

use checks::refusals::{Refusal, Refused};
use entries::KeptLine;
use gathering::nothing_read;
use goods::KilosByPair;
use ledger::Ledger;
use noting::note_line;
use places::start_before;
use records::{Lines, read_line};
use works::{PRECURSORS, Stated, Works};

// The figures that govern a precursor, direct and indirect, from the K line whose end is held of it; None where no K line states any.
fn governing(s: &[u8], stated: &Stated, precursor: u64) -> Option<(u64, u64)>
    requires { PlacesIn s.now (records_of s.now) stated.now }
    ensures { result ≡ governing_of (records_of s.now) stated.now.ranks precursor }
{
    if stated.ranks(precursor) == 0 {
        return None;
    }
    let end = usize::from(stated.ends[precursor as usize]);
    let k = read_line(s, start_before(s, end));
    Some((k.words[2], k.words[3]))
}

// The figures that govern each precursor, at its number; 0 where no rank of it is stated.
#[derive(Clone, Copy)]
struct Figures {
    direct: [u32; PRECURSORS],
    indirect: [u32; PRECURSORS],
}

// Each K line that governs a precursor is read once.
fn figures_of(s: &[u8], stated: &Stated) -> Figures
    requires { PlacesIn s.now (records_of s.now) stated.now }
    ensures { FiguresAt (records_of s.now) stated.now.ranks result.direct result.indirect }
{
    let mut direct = [0; PRECURSORS];
    let mut indirect = [0; PRECURSORS];
    for p in 0..PRECURSORS {
        if let Some(figures) = governing(s, stated, p as u64) {
            direct[p] = figures.0 as u32;
            indirect[p] = figures.1 as u32;
        }
    }
    Figures { direct, indirect }
}

// The N lines, once all lines have passed: each is refused by 18 where no K line states its precursor, or else booked by the figures that govern.
// On a refusal `read_lines` drops the works, and the ledger in it. The function is not inlined, so that for a sheet without N lines none of its
// locals is set to zero.
#[inline(never)]
fn book_uses(s: &[u8], stated: &Stated, ledger: &mut Ledger) -> Result<(), Refused>
    requires passed { LinesPass s.now }
    requires stated { StatedIn (records_of s.now) stated.now }
    requires places { PlacesIn s.now (records_of s.now) stated.now }
    requires books { BooksOf (records_of s.now) ledger.old }
    ensures { BookedOf s.now ledger.new result }
{
    let figures = figures_of(s, stated);
    let mut line: usize = 0;
    for l in Lines::new(s) {
        line += 1;
        if l.letter == b'N' {
            let precursor = l.words[1];
            if stated.ranks(precursor) == 0 {
                return Err(Refused {
                    refusal: Refusal::NoFigures,
                    line,
                });
            }
            let direct = u64::from(figures.direct[precursor as usize]);
            let indirect = u64::from(figures.indirect[precursor as usize]);
            let used = KeptLine { line: &l };
            ledger.book(used.weigh_use(direct, indirect));
        }
    }
    Ok(())
}

// All lines of a sheet; `kilos` gets the kilograms of each pair of processes.
pub fn read_lines(s: &[u8], kilos: &mut KilosByPair) -> Result<Works, Refused>
    requires bytes { length s.now ≤ limits.bytes }
    requires no_kilos { NoKilos kilos.old }
    ensures { ReadOf s.now kilos.new result }
{
    let mut stated = Stated::none();
    let mut works = nothing_read();
    for l in Lines::new(s) {
        let line = works.noted.lines + 1;
        works
            .noted
            .judge(&stated, kilos, &l, Some(s.len()))
            .map_err(|refusal| Refused { refusal, line })?;
        let kept = KeptLine { line: &l };
        note_line(&mut works.noted, &mut stated, kilos, kept);
        works.ledger.book(kept.weigh());
    }
    if stated.used {
        book_uses(s, &stated, &mut works.ledger)?;
    }
    Ok(works)
}
