// Document 01, "Sheets sent back", and document 02, ticket 4: a line that was read, judged by itself and under the lines above it.
ghost use Rattle.std.specs.Prelude.{◌≡◌};
ghost use Rattle.quantity.specs.Limits.{limits};
ghost use Rattle.checks.specs.Numbers.{number_judged};
ghost use Rattle.works.specs.Works.{of_process, of_pair, above_at, lacks_lf, state_number};

use super::{Noted, Stated};
use checks::above::Above;
use checks::refusals::Refusal;
use goods::{KilosByPair, KilosByProcess, SIZE};
use judge::line_refusal;
use lines::LineRead;
use quantity::Kilos;
use quantity::limits::LINES;
use sheet::Kind;

// The kilograms of a process, 0 where it has no place.
fn of_process(kilos: &KilosByProcess, n: u64) -> Kilos
    ensures { result.0 ≡ of_process kilos.now.0 n }
{
    if n < SIZE as u64 {
        Kilos(kilos.0[n as usize])
    } else {
        Kilos(0)
    }
}

// The kilograms of a pair of processes, 0 where it has no place.
fn of_pair(kilos: &KilosByPair, from: u64, to: u64) -> Kilos
    ensures { result.0 ≡ of_pair kilos.now from to }
{
    if (from < SIZE as u64) & (to < SIZE as u64) {
        Kilos(kilos[from as usize * SIZE + to as usize])
    } else {
        Kilos(0)
    }
}

// Row 3 of a line that ends there, in a sheet of `size` bytes.
fn lacks_lf(end: usize, size: Option<usize>) -> bool
    ensures { result ≡ lacks_lf end size }
{
    Some(end) == size
}

impl Noted {
    // What the lines above say of a line: of an own good the kilograms too, and of a K line the ranks.
    #[tactic(auto, unfolding(sheet::specs::Kinds::kind_of, sheet::specs::Kinds::kind_among))]
    pub fn above(&self, stated: &Stated, kilos: &KilosByPair, l: &LineRead) -> Above
        ensures { result ≡ above_at self.now stated.now kilos.now l.now }
    {
        let lines = self.lines;
        let processes = self.count;
        match Kind::from(l.letter) {
            Kind::OwnGood => {
                let from = l.words[0];
                let to = l.words[1];
                Above {
                    lines,
                    processes,
                    output: of_process(&self.outputs, from),
                    taken: of_process(&self.taken, from),
                    pair: of_pair(kilos, from, to),
                    ranks: 0,
                }
            }
            Kind::PrecursorFigures => Above {
                lines,
                processes,
                ranks: stated.ranks(l.words[0]),
                ..Above::default()
            },
            _ => Above {
                lines,
                processes,
                ..Above::default()
            },
        }
    }

    // Rows 2 to 13 and 17 of a line in a sheet of `size` bytes, None where no line of it can lack its LF, under the lines above.
    pub fn judge(
        &self,
        stated: &Stated,
        kilos: &KilosByPair,
        l: &LineRead,
        size: Option<usize>,
    ) -> Result<(), Refusal>
        ensures { number_judged result ≡ state_number limits self.now stated.now kilos.now l.now size }
    {
        if LINES <= self.lines {
            return Err(Refusal::TooManyLines);
        }
        if lacks_lf(l.end, size) {
            return Err(Refusal::LacksLF);
        }
        line_refusal(l, self.above(stated, kilos, l))
    }
}
