// Document 01, "Source streams": rows 5 to 13 of an S line. Its fields from code on go by its method.
#![tactic(auto, unfolding(sheet::specs::Kinds::method_rules, sheet::specs::Kinds::rules, checks::specs::Judged::fields_number, checks::specs::Judged::order_number, checks::specs::Steps::words_number))]

ghost use Rattle.std.specs.Prelude.{◌≡◌};
ghost use Rattle.quantity.specs.Limits.{limits};
ghost use Rattle.quantity.specs.Methods.{method_number};
ghost use Rattle.lines.specs.Records.{number};
ghost use Rattle.sheet.specs.Kinds.{method_rules};
ghost use Rattle.sheet.specs.declared.Kind.TheVariants.{SourceStream};
ghost use Rattle.checks.specs.Numbers.{number_judged};
ghost use Rattle.checks.specs.Steps.{words_number};
ghost use Rattle.checks.specs.Judged.{method_number as method_word_number, kind_number};

use checks::above::Above;
use checks::ranges::LAST;
use checks::refusals::Refusal;
use checks::shape::{counted, field};
use lines::{LineRead, WORDS};
use methods::{combustion, mass_balance, process_emission};
use order::{known, standard};
use quantity::method::Method;

// `code,kg,a,b,c,d` by the rules of a method
fn fields_of(method: Method, words: &[u64; WORDS]) -> Result<(), Refusal>
    ensures { number_judged result ≡ words_number 2 (method_rules (number (method_number method))) words.now }
{
    match method {
        Method::Combustion => combustion(words),
        Method::ProcessEmission => process_emission(words),
        Method::CarbonIn | Method::CarbonOut => mass_balance(words),
    }
}

// `method,code,kg,a,b,c,d`
fn by_method(words: &[u64; WORDS]) -> Result<(), Refusal>
    ensures { number_judged result ≡ method_word_number words.now }
{
    let method = words[1];
    match Method::try_from(method) {
        Ok(method) => fields_of(method, words),
        Err(_) => field(method, 1, 4),
    }
}

// `S,n,method,code,kg,a,b,c,d`
pub fn source_stream(l: &LineRead, above: Above) -> Result<(), Refusal>
    ensures { number_judged result ≡ kind_number limits SourceStream l.now.count l.now.words above }
{
    counted(l.count, 8)?;
    let n = l.words[0];
    field(n, 1, LAST)?;
    by_method(&l.words)?;
    known(n, above)?;
    standard(l.words[2], l.words[4], l.words[5])
}
