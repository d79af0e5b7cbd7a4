// Document 01, "Source streams": "`-` in a or b means the standard value of the code".
ghost use Rattle.std.specs.Prelude.{◌≡◌};
ghost use Rattle.quantity.specs.Methods.{method_number};
ghost use Rattle.quantity.specs.Standard.{standard_a, standard_b};
ghost use Rattle.entries.specs.Read.{or_standard_word};

use quantity::method::Method;

// a and b are two functions: what they share is one test.
// The word of `-` is a mark and no Option, as in `lines`: comparisons with a range's ends refuse it as they refuse a number above it.

// a: the net calorific value of a fuel in method 1, the factor of a carbonate in method 2.
pub fn given_a(method: Method, code: u64, word: u64) -> u64
    ensures { result ≡ or_standard_word word (standard_a (method_number method) code) }
{
    match word {
        lines::DASH => match method {
            Method::Combustion => standard::standard_net_calorific_value(code),
            Method::ProcessEmission | Method::CarbonIn | Method::CarbonOut => {
                standard::standard_carbonate(code)
            }
        },
        given => given,
    }
}

// b: the emission factor of a fuel.
pub fn given_b(code: u64, word: u64) -> u64
    ensures { result ≡ or_standard_word word (standard_b code) }
{
    match word {
        lines::DASH => standard::standard_emission_factor(code),
        given => given,
    }
}
