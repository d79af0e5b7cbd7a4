// What the reckoner gives of an accepted sheet: document 01, the figures of "The report".
#![tactic(auto)]

use goods::{BothGramsByProcess, GramsByProcess, KilosByProcess};
use quantity::{Grams, SignedGrams};

// Grams of each process by its number, and the totals `left` and `raised` of the works.
#[derive(Clone, Copy, Default)]
pub struct Closing {
    // attribution, and the grams that raised the balance to zero
    pub attributed: BothGramsByProcess,
    pub raised: GramsByProcess,
    // pools, and what is left of them
    pub pools: BothGramsByProcess,
    pub lefts: BothGramsByProcess,
    pub left: Grams,
    pub total_raised: Grams,
}

// The reckoning of an accepted sheet: the figures of each process by its number and the totals.
#[derive(Clone, Copy, Default)]
pub struct Reckoning {
    pub count: usize,
    pub outputs: KilosByProcess,
    pub figures: Closing,
    pub entered: SignedGrams,
    pub uncredited: Grams,
}
