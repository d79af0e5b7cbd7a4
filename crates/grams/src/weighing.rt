// Document 01, "Attribution": weights in grams.
ghost use Rattle.std.specs.Prelude.{◌≡◌, ◌*◌, ◌≤◌};
ghost use Rattle.quantity.specs.Ranges.{most_megajoules};
ghost use Rattle.quantity.specs.Weights.{weight, waste_gas_charge, waste_gas_credit};

use crate::line_grams::LineGrams;
use quantity::{Grams, Megajoules, Quantity};

// "H and E lines and each figure of B weigh round(quantity × factor/1,000)": factors in mg/MJ, mg/kWh and mg/kg.
#[tactic(auto, unfolding(quantity::specs::Weights::weight))]
pub fn weighed<Q: Quantity>(quantity: Q, factor: u64) -> LineGrams
    requires { Q.amount quantity * factor ≤ 1000000000000000000 }
    ensures { result.grams.0 ≡ weight (Q.amount quantity) factor }
{
    LineGrams {
        grams: Grams(crate::rounded::<1000>(quantity.amount(), factor)),
    }
}

// "A W line charges its receiver round(MJ × 56,100/1,000)".
#[tactic(auto, unfolding(quantity::specs::Weights::waste_gas_charge))]
pub fn gas_charge(energy: Megajoules) -> LineGrams
    requires { energy.0 ≤ most_megajoules }
    ensures { result.grams.0 ≡ waste_gas_charge energy.0 }
{
    LineGrams {
        grams: Grams(crate::rounded::<1000>(energy.0, 56100)),
    }
}

// "and credits its sender round(charge × 667/1,000)".
#[tactic(auto, unfolding(quantity::specs::Weights::waste_gas_credit))]
pub fn gas_credit(energy: Megajoules) -> LineGrams
    requires { energy.0 ≤ most_megajoules }
    ensures { result.grams.0 ≡ waste_gas_credit energy.0 }
{
    let charge = gas_charge(energy);
    LineGrams {
        grams: Grams(crate::rounded::<1000>(charge.grams.0, 667)),
    }
}
