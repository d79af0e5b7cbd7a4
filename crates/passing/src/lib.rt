// Document 01, "Goods and precursors": one process passes portions of its pools on to its takers. The definitions are in goods/specs/.
#![tactic(auto)]

ghost use Rattle.std.specs.Prelude.{◌≤◌};
ghost use Rattle.goods.specs.ByProcess.{PROCESSES};
ghost use Rattle.goods.specs.Settling.{pairs, CanPassOn, PassedOn};

use goods::{BothGramsByProcess, KilosByPair, SIZE};
use quantity::{Grams, Kilos};
use shares::{BothGrams, portions};

// Process `from` passes portions of its pools on to its takers, by rising number; the result is what is left of its own. In document 01's terms
// `own` has P, `output` is A, `taken` C(k−1), `through` C(k), and `given` has ⌊P × C(k−1)/A⌋.
#[tactic(auto, using(goods::proofs::Portions::given_le, crate::proofs::Passing::portion_taken))]
pub fn pass_on(
    pools: &mut BothGramsByProcess,
    output: Kilos,
    kilos: &KilosByPair,
    from: usize,
    count: usize,
) -> BothGrams
    requires le_from { (1 ≤ from) × (from ≤ count) × (count ≤ PROCESSES) }
    requires can_pass_on_direct { CanPassOn count from output.0 (pairs kilos.now from) pools.old.direct.0 }
    requires can_pass_on_indirect { CanPassOn count from output.0 (pairs kilos.now from) pools.old.indirect.0 }
    ensures passed_on_direct { PassedOn count from output.0 (pairs kilos.now from) pools.old.direct.0 pools.new.direct.0 result.direct.0 }
    ensures passed_on_indirect { PassedOn count from output.0 (pairs kilos.now from) pools.old.indirect.0 pools.new.indirect.0 result.indirect.0 }
{
    let own = BothGrams {
        direct: Grams(pools.direct.0[from]),
        indirect: Grams(pools.indirect.0[from]),
    };
    let mut taken = Kilos::default();
    let mut given = BothGrams::default();
    for to in from + 1..=count {
        let kg = Kilos(kilos[from * SIZE + to]);
        // Of no kilograms the portions are 0 either way.
        if kg.0 > 0 {
            let through = Kilos(taken.0 + kg.0);
            let taker = portions(own, given, through, output);
            pools.direct.0[to] += taker.direct.0;
            pools.indirect.0[to] += taker.indirect.0;
            taken = through;
            given = BothGrams {
                direct: Grams(given.direct.0 + taker.direct.0),
                indirect: Grams(given.indirect.0 + taker.indirect.0),
            };
        }
    }
    BothGrams {
        direct: Grams(own.direct.0 - given.direct.0),
        indirect: Grams(own.indirect.0 - given.indirect.0),
    }
}
