// Document 01's three kinds of quantity, grams of carbon dioxide, kilograms of goods and megajoules, and the kilowatt-hours of its E lines.
#![tactic(auto)]

pub mod limits;
pub mod method;

ghost use Rattle.std.specs.Prelude.{◌≡◌, ℕ};

// Grams of carbon dioxide.
#[derive(Clone, Copy, Default)]
pub struct Grams(pub u64);

// Grams with a sign: what a source stream adds to a balance.
#[derive(Clone, Copy, Default)]
pub struct SignedGrams(pub i64);

// Kilograms of goods, fuels and materials.
#[derive(Clone, Copy, Default)]
pub struct Kilos(pub u64);

// Megajoules of heat, waste gas and fuel.
#[derive(Clone, Copy)]
pub struct Megajoules(pub u64);

// Kilowatt-hours of electricity.
#[derive(Clone, Copy)]
pub struct KilowattHours(pub u64);

// A quantity that a line weighs by its own factor.
pub trait Quantity {
    ghost amount: { Self → ℕ };

    fn amount(self) -> u64
        ensures { result ≡ amount self };
}

// Each unit has an impl of its own: one for all that hold a number would let grams be weighed too.
impl Quantity for Kilos {
    ghost amount = { λ mass. mass.0 };

    fn amount(self) -> u64 {
        self.0
    }
}

impl Quantity for Megajoules {
    ghost amount = { λ energy. energy.0 };

    fn amount(self) -> u64 {
        self.0
    }
}

impl Quantity for KilowattHours {
    ghost amount = { λ energy. energy.0 };

    fn amount(self) -> u64 {
        self.0
    }
}
