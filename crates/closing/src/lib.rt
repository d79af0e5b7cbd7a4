// The figures of all processes once every line is booked: document 01, "Attribution", "Goods and precursors" and "The report".
#![tactic(auto)]

ghost use Rattle.closing.specs.Closing.{Ready, Closed};

use goods::{BothGramsByProcess, GramsByProcess, KilosByPair, KilosByProcess};
use ledger::{Ledger, add_all, raise_all, total};
use quantity::Grams;
use reckoning::Closing;
use settling::{Settled, settle};

// Balances are raised to zero before anything bought or taken is added.
#[tactic(auto, using(goods::proofs::Sums::sum_cong))]
pub fn close(l: Ledger, outputs: &KilosByProcess, kilos: &KilosByPair, count: usize) -> Closing
    requires { Ready l outputs.now.0 kilos.now count }
    ensures { Closed l outputs.now.0 kilos.now count result }
{
    let mut direct = GramsByProcess::default();
    let mut raised = GramsByProcess::default();
    raise_all(&mut direct, &mut raised, &l.balances, count);
    let total_raised = total(&raised, count);
    let mut own = BothGramsByProcess::default();
    add_all(&mut own.direct, &direct, &l.bought_direct, count);
    add_all(&mut own.indirect, &l.indirect, &l.bought_indirect, count);
    let Settled { pools, lefts } = settle(own, outputs, kilos, count);
    let direct_left = total(&lefts.direct, count);
    let indirect_left = total(&lefts.indirect, count);
    let left = Grams(direct_left.0 + indirect_left.0);
    // Place 0 of the ledger has the power that went out of the works.
    let mut indirect = l.indirect;
    indirect.0[0] = 0;
    Closing {
        attributed: BothGramsByProcess { direct, indirect },
        raised,
        pools,
        lefts,
        left,
        total_raised,
    }
}
