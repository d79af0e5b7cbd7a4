// The figures of a works while its lines are read: document 01, "Attribution". Each line is booked as one entry.
#![tactic(auto)]

ghost use Rattle.std.specs.Prelude.{◌≡◌, nat_abs, ◌≤◌, ◌<◌};
ghost use Rattle.quantity.specs.Limits.{whole_grams};
ghost use Rattle.goods.specs.Sums.{sum_to};
ghost use Rattle.goods.specs.ByProcess.{SIZE, figures, Column};
ghost use Rattle.goods.specs.Settling.{NoFigures};
ghost use Rattle.ledger.specs.Ledger.{Small, Room, booked};
ghost use Rattle.ledger.specs.Raising.{grams_added, raised_to_zero};
ghost use Rattle.ledger.specs.Columns.{BEFORE_ENTRY, SizeAtMost, FitTogether, signed_figures, together};

use goods::{GramsByProcess, SIZE, SignedGramsByProcess};
use quantity::{Grams, SignedGrams};

// What one line moves, in grams; its default moves none. Process 0 is outside the works.
#[derive(Clone, Copy, Default)]
pub struct Entry {
    // the process charged, and the process credited
    pub charged: usize,
    pub charge: Grams,
    pub credited: usize,
    pub credit: Grams,
    // the process that uses power
    pub user: usize,
    pub electricity: Grams,
    // the process that buys a precursor
    pub buyer: usize,
    pub direct: Grams,
    pub indirect: Grams,
    // what enters the works, leaves it, and stays uncredited
    pub entering: Grams,
    pub leaving: Grams,
    pub uncredited: Grams,
}

// The grams of the whole works: what entered it, less what left it, and what stays uncredited.
#[derive(Clone, Copy, Default)]
pub struct Totals {
    pub entered: SignedGrams,
    pub uncredited: Grams,
}

// The grams of each process by its number, and those of the whole works: a struct by value with an array for each figure, as document 01 names it.
#[derive(Clone, Copy, Default)]
pub struct Ledger {
    pub balances: SignedGramsByProcess,
    pub indirect: GramsByProcess,
    pub bought_direct: GramsByProcess,
    pub bought_indirect: GramsByProcess,
    pub totals: Totals,
}

impl Ledger {
    // One entry booked.
    pub fn book(&mut self, e: Entry)
        requires small { Small e }
        requires room { Room self.old }
        ensures { self.new ≡ booked self.old e }
    {
        // The casts lose nothing, and `i64::try_from` would add an error that cannot come.
        self.balances.0[e.charged] += e.charge.0 as i64;
        self.balances.0[e.credited] -= e.credit.0 as i64;
        self.indirect.0[e.user] += e.electricity.0;
        self.bought_direct.0[e.buyer] += e.direct.0;
        self.bought_indirect.0[e.buyer] += e.indirect.0;
        self.totals.entered.0 = self.totals.entered.0 + e.entering.0 as i64 - e.leaving.0 as i64;
        self.totals.uncredited.0 += e.uncredited.0;
    }
}

// A balance raised to zero where it is below: the outcome, and the grams added.
#[derive(Clone, Copy)]
pub struct Raised {
    pub direct: Grams,
    pub raised: Grams,
}

pub fn raise(balance: SignedGrams) -> Raised
    requires { nat_abs balance.0 ≤ BEFORE_ENTRY }
    ensures direct { result.direct.0 ≡ raised_to_zero balance.0 }
    ensures raised { result.raised.0 ≡ grams_added balance.0 }
{
    let grams = Grams(balance.0.unsigned_abs());
    if balance.0 < 0 {
        Raised {
            direct: Grams(0),
            raised: grams,
        }
    } else {
        Raised {
            direct: grams,
            raised: Grams(0),
        }
    }
}

// `count` of this function and the next two is a plain number, as it is in the state of the works. Its bound is part of what closing asks
// (`Ready`): a type that keeps it would be made of that number there, and each loop would take the number out again.

// Each balance raised to zero: the outcomes in `direct` and the grams added in `raised`, which hold zeros at entry. They are lent, and in
// `add_all` too: a column that is given back is copied into the struct that closing fills.
pub fn raise_all(
    direct: &mut GramsByProcess,
    raised: &mut GramsByProcess,
    balances: &SignedGramsByProcess,
    count: usize,
)
    requires count_bound { count < SIZE }
    requires size_at_most { SizeAtMost BEFORE_ENTRY balances.now.0 }
    requires no_figures { NoFigures direct.old.0 × NoFigures raised.old.0 }
    ensures direct { Column count (λ k. raised_to_zero (signed_figures balances.now.0 k)) direct.new.0 }
    ensures raised { Column count (λ k. grams_added (signed_figures balances.now.0 k)) raised.new.0 }
{
    for k in 1..=count {
        let r = raise(SignedGrams(balances.0[k]));
        direct.0[k] = r.direct.0;
        raised.0[k] = r.raised.0;
    }
}

// Two figures of each process together, in `both`, which holds zeros at entry.
pub fn add_all(both: &mut GramsByProcess, a: &GramsByProcess, b: &GramsByProcess, count: usize)
    requires count_bound { count < SIZE }
    requires fit_together { FitTogether count a.now.0 b.now.0 }
    requires no_figures { NoFigures both.old.0 }
    ensures { Column count (together a.now.0 b.now.0) both.new.0 }
{
    for k in 1..=count {
        both.0[k] = a.0[k] + b.0[k];
    }
}

// The figures of all processes together.
pub fn total(a: &GramsByProcess, count: usize) -> Grams
    requires count_bound { count < SIZE }
    requires a_bound { sum_to count (figures a.now.0) < whole_grams }
    ensures { result.0 ≡ sum_to count (figures a.now.0) }
{
    Grams(a.0[1..=count].iter().sum())
}
