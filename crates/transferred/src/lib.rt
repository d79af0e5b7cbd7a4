// Document 01, "Attribution": what heat, waste gas and electricity move, and what of it enters the works, leaves it and stays uncredited.
// The two ends are two parameters, as document 01 names both: what is charged goes by one of them, what is credited by the other.
#![tactic(auto)]

ghost use Rattle.std.specs.Prelude.{◌≡◌, ◌-◌, ◌≤◌};
ghost use Rattle.goods.specs.Sums.{only_at};
ghost use Rattle.quantity.specs.Ranges.{most_megajoules};
ghost use Rattle.quantity.specs.Weights.{waste_gas_charge, waste_gas_credit};
ghost use Rattle.ledger.specs.Moved.{moved, heat_moved, between_processes, gas_moved, electricity_moved};

use grams::weighing::{gas_charge, gas_credit};
use ledger::Entry;
use quantity::{Grams, Megajoules};

// An amount where the end is outside the works, else nothing.
#[tactic(auto, unfolding(goods::specs::Sums::only_at))]
fn outside(end: usize, amount: Grams) -> Grams
    ensures { result.0 ≡ only_at 0 end amount.0 }
{
    if end == 0 { amount } else { Grams(0) }
}

// Charge minus credit between two processes, else nothing.
fn between(from: usize, to: usize, charge: Grams, credit: Grams) -> Grams
    requires { credit.0 ≤ charge.0 }
    ensures { result.0 ≡ between_processes from to (charge.0 - credit.0) }
{
    if from == 0 || to == 0 {
        Grams(0)
    } else {
        Grams(charge.0 - credit.0)
    }
}

// What is sent: its sender is credited, what comes from outside enters the works, and what goes outside leaves it.
fn sent(from: usize, to: usize, charge: Grams, credit: Grams) -> Entry
    ensures { result ≡ moved 0 0 from credit.0 0 0 (only_at 0 from charge.0) (only_at 0 to credit.0) 0 }
{
    Entry {
        credited: from,
        credit,
        entering: outside(from, charge),
        leaving: outside(to, credit),
        ..Entry::default()
    }
}

// Heat: its receiver is charged, and its sender credited as much.
pub fn heat_entry(from: usize, to: usize, weight: Grams) -> Entry
    ensures { result ≡ heat_moved from to weight.0 }
{
    Entry {
        charged: to,
        charge: weight,
        ..sent(from, to, weight, weight)
    }
}

// Waste gas: its receiver is charged, and its sender credited with 667 thousandths of the charge.
#[tactic(auto, using(quantity::proofs::Weights::credit_below_charge))]
pub fn gas_entry(from: usize, to: usize, energy: Megajoules) -> Entry
    requires { (1 ≤ energy.0) × (energy.0 ≤ most_megajoules) }
    ensures { result ≡ gas_moved from to (waste_gas_charge energy.0) (waste_gas_credit energy.0) }
{
    let charge = gas_charge(energy).grams;
    let credit = gas_credit(energy).grams;
    Entry {
        charged: to,
        charge,
        uncredited: between(from, to, charge, credit),
        ..sent(from, to, charge, credit)
    }
}

// Electricity: its maker is credited, and it is its user's indirect attribution.
pub fn electricity_entry(from: usize, to: usize, weight: Grams) -> Entry
    ensures { result ≡ electricity_moved from to weight.0 }
{
    Entry {
        user: to,
        electricity: weight,
        ..sent(from, to, weight, weight)
    }
}
