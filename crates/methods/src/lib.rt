// Document 01, "Source streams": the fields of an S line from code on, judged by the rules of one method. The rules are written out, and no
// row of a table in code, for the reason in `kinds`.
#![tactic(auto, unfolding(checks::specs::Steps::words_number))]

ghost use Rattle.std.specs.Prelude.{◌≡◌};
ghost use Rattle.sheet.specs.Kinds.{combustion, process_emission, mass_balance};
ghost use Rattle.checks.specs.Numbers.{number_judged};
ghost use Rattle.checks.specs.Steps.{words_number};

use checks::ranges::KILOS;
use checks::refusals::Refusal;
use checks::shape::{field, field_or_dash};
use lines::WORDS;

// The highest code of a fuel.
const FUELS: u64 = 16;

// The highest code of a carbonate.
const CARBONATES: u64 = 9;

// The highest net calorific value, kJ per kg.
const NET_CALORIFIC_VALUE: u64 = 200000;

// The highest emission factor of a fuel, mg per MJ.
const COMBUSTION_FACTOR: u64 = 400000;

// The highest emission factor of a process emission, mg per kg.
const PROCESS_FACTOR: u64 = 4000000;

// The highest carbon, mg per kg.
const CARBON_CONTENT: u64 = 1000000;

// The whole, in ten-thousandths: the highest oxidation or conversion factor and the highest biomass share.
const WHOLE: u64 = 10000;

// `code,kg,a,b,c,d` of method 1, burning
pub fn combustion(words: &[u64; WORDS]) -> Result<(), Refusal>
    ensures { number_judged result ≡ words_number 2 combustion words.now }
{
    field(words[2], 0, FUELS)?;
    field(words[3], 1, KILOS)?;
    field_or_dash(words[4], 1, NET_CALORIFIC_VALUE)?;
    field_or_dash(words[5], 0, COMBUSTION_FACTOR)?;
    field(words[6], 0, WHOLE)?;
    field(words[7], 0, WHOLE)
}

// of method 2, process emission
pub fn process_emission(words: &[u64; WORDS]) -> Result<(), Refusal>
    ensures { number_judged result ≡ words_number 2 process_emission words.now }
{
    field(words[2], 0, CARBONATES)?;
    field(words[3], 1, KILOS)?;
    field_or_dash(words[4], 0, PROCESS_FACTOR)?;
    field(words[5], 0, 0)?;
    field(words[6], 0, WHOLE)?;
    field(words[7], 0, WHOLE)
}

// of methods 3 and 4, carbon going in and carbon going out
pub fn mass_balance(words: &[u64; WORDS]) -> Result<(), Refusal>
    ensures { number_judged result ≡ words_number 2 mass_balance words.now }
{
    field(words[2], 0, 0)?;
    field(words[3], 1, KILOS)?;
    field(words[4], 0, CARBON_CONTENT)?;
    field(words[5], 0, 0)?;
    field(words[6], WHOLE, WHOLE)?;
    field(words[7], 0, WHOLE)
}
