// Document 01, "Attribution": what a source stream and a bought precursor move, and what of it enters the works and leaves it.
#![tactic(auto)]

ghost use Rattle.std.specs.Prelude.{◌≡◌, ◌≤◌, nat_abs};
ghost use Rattle.quantity.specs.Ranges.{most_grams};
ghost use Rattle.ledger.specs.Moved.{stream_moved, bought_moved};

use grams::line_grams::LineGrams;
use ledger::{Entry, raise};
use quantity::{Grams, SignedGrams};

// A bought precursor: both figures enter the works.
pub fn bought_entry(buyer: usize, direct: LineGrams, indirect: LineGrams) -> Entry
    ensures { result ≡ bought_moved buyer direct.grams.0 indirect.grams.0 }
{
    Entry {
        buyer,
        direct: direct.grams,
        indirect: indirect.grams,
        entering: Grams(direct.grams.0 + indirect.grams.0),
        ..Entry::default()
    }
}

// A source stream: a process is charged with what is counted plus, and credited with what is counted minus.
pub fn stream_entry(process: usize, grams: SignedGrams) -> Entry
    requires { nat_abs grams.0 ≤ most_grams }
    ensures { result ≡ stream_moved process grams.0 }
{
    let parts = raise(grams);
    Entry {
        charged: process,
        charge: parts.direct,
        credited: process,
        credit: parts.raised,
        entering: parts.direct,
        leaving: parts.raised,
        ..Entry::default()
    }
}
