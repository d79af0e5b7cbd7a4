// Document 01, "Goods and precursors": pools settled process by process. The definitions are in goods/specs/.
#![tactic(auto)]

ghost use Rattle.std.specs.Prelude.{◌≡◌, ◌≤◌};
ghost use Rattle.goods.specs.ByProcess.{PROCESSES, figures, NoneOutside};
ghost use Rattle.goods.specs.Settling.{pairs, any_taker, Settleable, PoolsSettled};

use goods::{BothGramsByProcess, KilosByPair, KilosByProcess, SIZE};
use passing::pass_on;
use quantity::Kilos;

// Whether the good of process `from` goes to another process. `count` is a plain number here and in `settle` and `pass_on`, for the reason at
// `ledger::raise_all`.
fn has_takers(kilos: &KilosByPair, from: usize, count: usize) -> bool
    requires { (from ≤ count) × (count ≤ PROCESSES) }
    ensures { result ≡ any_taker (pairs kilos.now from) from count }
{
    (from + 1..count + 1).any(|to| kilos[from * SIZE + to] > 0)
}

// The pools of all processes, and what is left of each.
#[derive(Clone, Copy)]
pub struct Settled {
    pub pools: BothGramsByProcess,
    pub lefts: BothGramsByProcess,
}

// The pools of processes 1 .. count, settled one after the other. `own` has the attribution of each process and its bought grams.
pub fn settle(
    own: BothGramsByProcess,
    outputs: &KilosByProcess,
    kilos: &KilosByPair,
    count: usize,
) -> Settled
    requires count_bound { count ≤ PROCESSES }
    requires none_outside { NoneOutside count own.direct.0 × NoneOutside count own.indirect.0 }
    requires settleable_direct { Settleable count (figures outputs.now.0) (pairs kilos.now) (figures own.direct.0) }
    requires settleable_indirect { Settleable count (figures outputs.now.0) (pairs kilos.now) (figures own.indirect.0) }
    ensures settled_direct { PoolsSettled outputs.now.0 kilos.now count own.direct.0 result.pools.direct.0 result.lefts.direct.0 }
    ensures settled_indirect { PoolsSettled outputs.now.0 kilos.now count own.indirect.0 result.pools.indirect.0 result.lefts.indirect.0 }
{
    let mut pools = own;
    let mut lefts = BothGramsByProcess::default();
    for i in 1..=count {
        if has_takers(kilos, i, count) {
            let left = pass_on(&mut pools, Kilos(outputs.0[i]), kilos, i, count);
            lefts.direct.0[i] = left.direct.0;
            lefts.indirect.0[i] = left.indirect.0;
        } else {
            lefts.direct.0[i] = pools.direct.0[i];
            lefts.indirect.0[i] = pools.indirect.0[i];
        }
    }
    Settled { pools, lefts }
}
