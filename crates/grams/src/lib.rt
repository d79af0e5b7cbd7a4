// Document 01: the rounding of "Source streams", the steps that its methods share, and the grams of "Attribution".
#![tactic(auto)]

pub mod line_grams;
pub mod weighing;

ghost use Rattle.std.specs.Prelude.{◌≡◌, ◌+◌, ◌*◌, ◌/◌, ◌≤◌};
ghost use Rattle.quantity.specs.Rounding.{round};

// "Source streams", round(u/v) with u = x × y, v = 1,000 or 10,000.
#[tactic(auto, unfolding(quantity::specs::Rounding::round))]
pub fn rounded<const DIVISOR: u64>(x: u64, y: u64) -> u64
    requires product { x * y ≤ 10000000000000000000 }
    requires divisor { (1 ≤ DIVISOR) × (DIVISOR ≤ 10000) }
    ensures value { result ≡ round (x * y) DIVISOR }
    ensures bounded { result * DIVISOR ≤ x * y + DIVISOR / 2 }
{
    (x * y + DIVISOR / 2) / DIVISOR
}
