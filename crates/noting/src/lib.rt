// One line more: the output that a P line states, the kilograms that a G line takes, the rank and the end of a K line, and that an N line is there.
#![tactic(auto)]

ghost use Rattle.std.specs.Prelude.{◌≡◌};
ghost use Rattle.works.specs.Works.{output_noted, taken_noted, pair_noted, figures_noted, noted_after, stated_after, kilos_after};
ghost use Rattle.works.specs.Works.{OutputAsked, KilosAsked, FiguresAsked, RoomForLine};

use entries::KeptLine;
use goods::{KilosByPair, KilosByProcess, SIZE};
use lines::LineRead;
use quantity::limits::BYTES;
use sheet::Kind;
use works::{Noted, Stated};

// A P line: the output of its process.
fn note_output(outputs: &mut KilosByProcess, l: &LineRead)
    requires { OutputAsked outputs.old.0 l.now }
    ensures { outputs.new.0 ≡ output_noted outputs.old.0 l.now }
{
    outputs.0[l.words[0] as usize] += l.words[1];
}

// A G line: kilograms taken of an output, by one process.
fn note_good(taken: &mut KilosByProcess, kilos: &mut KilosByPair, l: &LineRead)
    requires { KilosAsked taken.old.0 kilos.old l.now }
    ensures taken { taken.new.0 ≡ taken_noted taken.old.0 l.now }
    ensures pairs { kilos.new ≡ pair_noted kilos.old l.now }
{
    let from = l.words[0] as usize;
    let to = l.words[1] as usize;
    let kg = l.words[2];
    taken.0[from] += kg;
    kilos[from * SIZE + to] += kg;
}

// A K line: its end, where no lower rank number is stated, and the bit of its rank. The sheet that lent records spell can be longer than the ends
// that are held; it is refused by row 1, and no figures are read from it.
fn note_figures(stated: &mut Stated, l: &LineRead)
    requires { FiguresAsked l.now }
    ensures { stated.new ≡ figures_noted stated.old l.now }
{
    let precursor = l.words[0] as usize;
    let bit: u8 = 1 << l.words[1];
    if stated.ranks[precursor] % bit == 0 {
        stated.ends[precursor] = (l.end % BYTES) as u16;
    }
    stated.ranks[precursor] |= bit;
}

// A line noted.
pub fn note_line(noted: &mut Noted, stated: &mut Stated, kilos: &mut KilosByPair, kept: KeptLine)
    requires { RoomForLine noted.old kilos.old }
    ensures noted { noted.new ≡ noted_after noted.old kept.entry.line.now }
    ensures stated { stated.new ≡ stated_after stated.old kept.entry.line.now }
    ensures pairs { kilos.new ≡ kilos_after kilos.old kept.entry.line.now }
{
    let l = kept.line;
    noted.lines += 1;
    match Kind::from(l.letter) {
        Kind::Process => {
            note_output(&mut noted.outputs, l);
            noted.count += 1;
        }
        Kind::OwnGood => note_good(&mut noted.taken, kilos, l),
        Kind::PrecursorFigures => note_figures(stated, l),
        Kind::PrecursorUse => stated.used = true,
        _ => {}
    }
}
