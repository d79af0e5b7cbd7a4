// Document 01: the grams of one line, and the steps that all methods of "Source streams" share.
ghost use Rattle.std.specs.Prelude.{◌≡◌, ◌≤◌, pos, neg_ℤ, nat_abs};
ghost use Rattle.quantity.specs.Streams.{oxidised_grams, fossil_grams};
ghost use Rattle.quantity.specs.Ranges.{most_grams};

use quantity::{Grams, SignedGrams};

// The bound is part of the type: what takes these grams asks for none.
#[derive(Clone, Copy)]
pub struct LineGrams {
    pub grams: Grams,
    ghost small: { grams.0 ≤ most_grams },
}

impl LineGrams {
    // The oxidation or conversion factor c: T3 = round(T2 × c/10,000).
    pub fn oxidised(self, c: u64) -> LineGrams
        requires { c ≤ 10000 }
        ensures { result.grams.0 ≡ oxidised_grams self.grams.0 c }
    {
        LineGrams {
            grams: Grams(crate::rounded::<10000>(self.grams.0, c)),
        }
    }

    // The biomass step: what is left of the grams when d ten-thousandths are taken away.
    // This and `oxidised` are two steps: c is the share that stays, and d the share that goes.
    #[tactic(auto, unfolding(quantity::specs::Streams::fossil_grams))]
    pub fn fossil(self, d: u64) -> LineGrams
        requires { d ≤ 10000 }
        ensures { result.grams.0 ≡ fossil_grams self.grams.0 d }
    {
        let fossil_share = 10000 - d;
        LineGrams {
            grams: Grams(crate::rounded::<10000>(self.grams.0, fossil_share)),
        }
    }

    // Counted plus.
    pub fn plus(self) -> SignedGrams
        ensures result_value { result.0 ≡ pos self.grams.0 }
        ensures bounded { nat_abs result.0 ≤ most_grams }
    {
        SignedGrams(self.grams.0 as i64)
    }

    // Counted minus.
    pub fn minus(self) -> SignedGrams
        ensures result_value { result.0 ≡ neg_ℤ (pos self.grams.0) }
        ensures bounded { nat_abs result.0 ≤ most_grams }
    {
        SignedGrams(-(self.grams.0 as i64))
    }
}
