// Document 01, "Source streams", and document 02, ticket 2: the four methods, each step rounded.
#![tactic(auto)]

ghost use Rattle.std.specs.Prelude.{◌≡◌, ◌≤◌, nat_abs};
ghost use Rattle.quantity.specs.Methods.{method_number};
ghost use Rattle.quantity.specs.Streams.{combustion_grams, process_grams, carbon_grams, grams_before_biomass, stream_grams};
ghost use Rattle.quantity.specs.Ranges.{CombustionRange, ProcessRange, CarbonRange, StreamRange, most_grams};

use grams::line_grams::LineGrams;
use quantity::method::Method;
use quantity::{Grams, Kilos, Megajoules, SignedGrams};

// Method 1, burning: T1 in MJ, T2 in g, then c.
#[tactic(auto, unfolding(quantity::specs::Streams::combustion_grams))]
fn combustion(mass: Kilos, a: u64, b: u64, c: u64) -> LineGrams
    requires { CombustionRange mass.0 a b c }
    ensures { result.grams.0 ≡ combustion_grams mass.0 a b c }
{
    let t1 = Megajoules(grams::rounded::<1000>(mass.0, a));
    let t2 = LineGrams {
        grams: Grams(grams::rounded::<1000>(t1.0, b)),
    };
    t2.oxidised(c)
}

// Method 2, process emission: T1 in g, then c.
#[tactic(auto, unfolding(quantity::specs::Streams::process_grams))]
fn process_emission(mass: Kilos, a: u64, c: u64) -> LineGrams
    requires { ProcessRange mass.0 a c }
    ensures { result.grams.0 ≡ process_grams mass.0 a c }
{
    let t1 = LineGrams {
        grams: Grams(grams::rounded::<1000>(mass.0, a)),
    };
    t1.oxidised(c)
}

// Methods 3 and 4, carbon going in and carbon going out.
#[tactic(auto, unfolding(quantity::specs::Streams::carbon_grams))]
fn carbon(mass: Kilos, a: u64) -> LineGrams
    requires { CarbonRange mass.0 a }
    ensures { result.grams.0 ≡ carbon_grams mass.0 a }
{
    // grams of carbon, which are none of the kinds of quantity
    let t1 = grams::rounded::<1000>(mass.0, a);
    LineGrams {
        grams: Grams(grams::rounded::<1000>(t1, 3664)),
    }
}

// The grams before the biomass step, by the method. The ranges are those of a source stream, whatever its d.
// kg, a, b and c are no struct: document 01 names them one by one, and each method takes the ones that it uses.
fn before_biomass(method: Method, mass: Kilos, a: u64, b: u64, c: u64) -> LineGrams
    requires { StreamRange (method_number method) mass.0 a b c 0 }
    ensures { result.grams.0 ≡ grams_before_biomass (method_number method) mass.0 a b c }
{
    match method {
        Method::Combustion => combustion(mass, a, b, c),
        Method::ProcessEmission => process_emission(mass, a, c),
        Method::CarbonIn | Method::CarbonOut => carbon(mass, a),
    }
}

// A source stream: the fossil share of its grams, counted minus for carbon going out.
pub fn stream(method: Method, mass: Kilos, a: u64, b: u64, c: u64, d: u64) -> SignedGrams
    requires { StreamRange (method_number method) mass.0 a b c d }
    ensures result_value { result.0 ≡ stream_grams (method_number method) mass.0 a b c d }
    ensures bounded { nat_abs result.0 ≤ most_grams }
{
    let grams = before_biomass(method, mass, a, b, c);
    let fossil = grams.fossil(d);
    match method {
        Method::Combustion | Method::ProcessEmission | Method::CarbonIn => fossil.plus(),
        Method::CarbonOut => fossil.minus(),
    }
}
