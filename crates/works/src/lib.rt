// The state: what the lines of a sheet say so far, and a line judged under them.
#![tactic(auto)]

pub mod judging;

ghost use Rattle.std.specs.Prelude.{◌≡◌};
ghost use Rattle.works.specs.Works.{nothing_noted, nothing_stated, ranks_of};

use checks::ranges::PRECURSOR;
use goods::KilosByProcess;
use ledger::Ledger;

// What the lines above say of outputs and own goods: how many they are, how many of them are P lines, the kilograms of each process's output
// and those that G lines take of it.
#[derive(Clone, Copy, Default)]
pub struct Noted {
    pub lines: usize,
    pub count: usize,
    pub outputs: KilosByProcess,
    pub taken: KilosByProcess,
}

impl Noted {
    // Above the first line: nothing is noted.
    pub fn none() -> Noted
        ensures { result ≡ nothing_noted }
    {
        Noted::default()
    }
}

// Precursors have the numbers from 1 on; place 0 is no precursor's.
pub const PRECURSORS: usize = PRECURSOR as usize + 1;

// What the lines above say of precursors, each at its number: the ranks at which K lines state figures, bit k for rank k, and the end of the K
// line that governs among them, as a place of a sheet that is not too long for row 1, 0 where there is none; and whether an N line is there. It
// is lent, as the kilograms of pairs are. The figures themselves are read from that line once an N line asks for them: they would have 2,048
// bytes, which would be set to zero for every sheet.
#[derive(Clone, Copy)]
pub struct Stated {
    pub ranks: [u8; PRECURSORS],
    pub ends: [u16; PRECURSORS],
    pub used: bool,
}

impl Stated {
    // Above the first line: nothing is stated.
    pub fn none() -> Stated
        ensures { result ≡ nothing_stated }
    {
        Stated {
            ranks: [0; PRECURSORS],
            ends: [0; PRECURSORS],
            used: false,
        }
    }

    // The ranks stated for a precursor, none where it has no place.
    pub fn ranks(&self, precursor: u64) -> u64
        ensures { result ≡ ranks_of self.now.ranks precursor }
    {
        if precursor < PRECURSORS as u64 {
            u64::from(self.ranks[precursor as usize])
        } else {
            0
        }
    }
}

// What the lines above say, and the grams that they move. The kilograms of pairs are lent beside it and are no part of it: they have 2,312
// bytes, and the works is handed on by value.
#[derive(Clone, Copy, Default)]
pub struct Works {
    pub noted: Noted,
    pub ledger: Ledger,
}
