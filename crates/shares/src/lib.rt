// Document 01, "Goods and precursors": ⌊P × C/A⌋, exact where P × C passes 64 bits.
#![tactic(auto)]

ghost use Rattle.std.specs.Prelude.{◌≡◌, ◌+◌, ◌-◌, ◌*◌, ◌/◌, ◌≤◌, ◌<◌};
ghost use Rattle.shares.specs.Ranges.{PartRange, BitRange};

use quantity::{Grams, Kilos};

// A part of a whole, in numbers of one unit whatever it is: C/A of an output's kilograms.
#[derive(Clone, Copy)]
pub struct Share {
    pub part: u64,
    pub whole: u64,
    pub ghost range: { PartRange part whole },
}

// A division under way: the dividend so far is quotient × whole + remainder.
#[derive(Clone, Copy, Default)]
struct Division {
    quotient: u64,
    remainder: u64,
}

// One more bit of P: quotient and remainder double, and a bit of 1 adds the part. The remainder then holds no whole, one or two, which
// are taken off it and counted in the quotient, by comparing and with no branch.
fn with_bit(d: Division, bit: u64, share: Share) -> Division
    requires { BitRange bit d.quotient d.remainder share.part share.whole }
    ensures remainder_value { result.quotient * share.whole + result.remainder ≡ (d.quotient * share.whole + d.remainder) * 2 + bit * share.part }
    ensures remainder_lt_whole { result.remainder < share.whole }
{
    let whole = share.whole;
    let grown = d.remainder * 2 + bit * share.part;
    let wholes = u64::from(whole <= grown) + u64::from(whole * 2 <= grown);
    Division {
        quotient: d.quotient * 2 + wholes,
        remainder: grown - wholes * whole,
    }
}

// The quotients of two numbers times one part by one whole: named fields say more than a pair. The walk is over plain numbers, and
// `portions` over Grams and Kilos.
#[derive(Clone, Copy)]
pub struct TwoQuotients {
    pub first: u64,
    pub second: u64,
}

// ⌊P × C/A⌋ of two P, "P being walked from its highest one bit down". The two
// walks are made in one loop, so that no step of one waits for the other.
pub fn quotients(first: u64, second: u64, share: Share) -> TwoQuotients
    ensures { (result.first ≡ first * share.part / share.whole) × (result.second ≡ second * share.part / share.whole) }
{
    let mut a = Division::default();
    let mut b = Division::default();
    for i in (0..64 - u64::leading_zeros(first | second)).rev() {
        a = with_bit(a, (first >> i) & 1, share);
        b = with_bit(b, (second >> i) & 1, share);
    }
    TwoQuotients {
        first: a.quotient,
        second: b.quotient,
    }
}

// Direct and indirect grams of one process: its pools, a portion of them, or what is left. Named fields say more than a pair.
#[derive(Clone, Copy, Default)]
pub struct BothGrams {
    pub direct: Grams,
    pub indirect: Grams,
}

// "The k-th portion is ⌊P × C(k)/A⌋ − ⌊P × C(k−1)/A⌋": through is C(k), output is A, and given ⌊P × C(k−1)/A⌋, which the takers before have had.
pub fn portions(pools: BothGrams, given: BothGrams, through: Kilos, output: Kilos) -> BothGrams
    requires part_range { PartRange through.0 output.0 }
    requires direct_bound { given.direct.0 ≤ pools.direct.0 * through.0 / output.0 }
    requires indirect_bound { given.indirect.0 ≤ pools.indirect.0 * through.0 / output.0 }
    ensures direct_value { result.direct.0 ≡ pools.direct.0 * through.0 / output.0 - given.direct.0 }
    ensures indirect_value { result.indirect.0 ≡ pools.indirect.0 * through.0 / output.0 - given.indirect.0 }
{
    let share = Share {
        part: through.0,
        whole: output.0,
    };
    let q = quotients(pools.direct.0, pools.indirect.0, share);
    BothGrams {
        direct: Grams(q.first - given.direct.0),
        indirect: Grams(q.second - given.indirect.0),
    }
}
