// Document 01, "Source streams": the standard value of each code. A code that has none gives 0, the value that the definitions have for it. The
// arrays hold the printed figures divided by 10, 100 and 1,000, each in 16 bits (document 02, ticket 3). An index is reckoned in a byte for the
// sake of the compiled code; docs/DECISIONS.md says why.
#![tactic(auto)]

ghost use Rattle.std.specs.Prelude.{◌≡◌, ◌-◌, ◌*◌, ◌≤◌, slice_index};
ghost use Rattle.quantity.specs.Standard.{fuel_of, carbonate_of};

// "Fuels": net calorific value in units of 10 kJ/kg, of codes 1 to 16.
const NET_CALORIFIC_VALUES: [u16; 16] = [
    4230, 4430, 4380, 4300, 4040, 4730, 3250, 2670, 2820, 2580, 1890, 1190, 2820, 3870, 247, 4800,
];

// "Fuels": emission factor in units of 100 mg/MJ, of codes 1 to 16.
const EMISSION_FACTORS: [u16; 16] = [
    733, 693, 719, 741, 774, 631, 975, 983, 946, 946, 961, 1010, 1070, 444, 2600, 561,
];

// "Carbonates": emission factor in units of 1,000 mg/kg, of codes 1 to 9.
const CARBONATES: [u16; 9] = [440, 522, 415, 223, 596, 318, 298, 524, 380];

// What a table holds for a code, times the table's unit: codes are counted from 1, and 0 stands for those that have none.
fn looked_up<const CODES: usize, const UNIT: u64>(held: &[u16; CODES], code: u64) -> u64
    requires codes { CODES ≤ 255 }
    requires unit { UNIT ≤ 1000 }
    ensures none { code ≡ 0 → result ≡ 0 }
    ensures held { 1 ≤ code → result ≡ slice_index held.now (code - 1) * UNIT }
{
    if code == 0 || code > CODES as u64 {
        return 0;
    }
    u64::from(held[usize::from(code as u8 - 1)]) * UNIT
}

// "Source streams", method 1: what `-` in a means, in kJ/kg.
pub fn standard_net_calorific_value(code: u64) -> u64
    ensures value { result ≡ (fuel_of code).net_calorific_value }
    ensures bounded { result ≤ 200000 }
{
    looked_up::<16, 10>(&NET_CALORIFIC_VALUES, code)
}

// "Source streams", method 1: what `-` in b means, in mg/MJ.
pub fn standard_emission_factor(code: u64) -> u64
    ensures value { result ≡ (fuel_of code).emission_factor }
    ensures bounded { result ≤ 400000 }
{
    looked_up::<16, 100>(&EMISSION_FACTORS, code)
}

// "Source streams", method 2: what `-` in a means, in mg/kg.
pub fn standard_carbonate(code: u64) -> u64
    ensures value { result ≡ carbonate_of code }
    ensures bounded { result ≤ 4000000 }
{
    looked_up::<9, 1000>(&CARBONATES, code)
}
