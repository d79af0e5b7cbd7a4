// Document 01, "Sheets sent back", row 15: whether a whole-gram figure of a reckoning is 2^63 or more.
#![tactic(auto)]

ghost use Rattle.std.specs.Prelude.{◌≡◌, ◌<◌};
ghost use Rattle.goods.specs.ByProcess.{SIZE, figures};
ghost use Rattle.large_figures.specs.Large.{any_large, large_rows, large_totals, large};

use goods::GramsByProcess;
use quantity::limits::WHOLE_GRAMS;
use reckoning::{Closing, Reckoning};

// Of processes 1 .. count: a plain number, for the reason at `ledger::raise_all`.
fn too_large(a: &GramsByProcess, count: usize) -> bool
    requires { count < SIZE }
    ensures { result ≡ any_large count (figures a.now.0) }
{
    a.0[1..=count].iter().any(|grams| *grams >= WHOLE_GRAMS)
}

// Row 15 over the figures of processes.
fn large_rows(f: &Closing, count: usize) -> bool
    requires { count < SIZE }
    ensures { result ≡ large_rows f.now count }
{
    let attributed = too_large(&f.attributed.direct, count)
        | too_large(&f.attributed.indirect, count)
        | too_large(&f.raised, count);
    let pooled = too_large(&f.pools.direct, count) | too_large(&f.pools.indirect, count);
    let left = too_large(&f.lefts.direct, count) | too_large(&f.lefts.indirect, count);
    attributed | pooled | left
}

// Row 15 over the totals. What entered is as large as it is without its sign.
fn large_totals(r: &Reckoning) -> bool
    ensures { result ≡ large_totals r.now.figures.left.0 r.now.entered.0 r.now.figures.total_raised.0 r.now.uncredited.0 }
{
    (WHOLE_GRAMS <= r.figures.left.0)
        | (WHOLE_GRAMS <= r.entered.0.unsigned_abs())
        | (WHOLE_GRAMS <= r.figures.total_raised.0)
        | (WHOLE_GRAMS <= r.uncredited.0)
}

// Row 15 over a reckoning.
pub fn is_large(r: &Reckoning) -> bool
    requires { r.now.count < SIZE }
    ensures { result ≡ large r.now }
{
    large_rows(&r.figures, r.count) | large_totals(r)
}
