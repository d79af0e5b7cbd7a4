// Document 01, "Sheets sent back", rows 8 to 13, and document 02, ticket 4, row 17: the line under the lines above it.
#![tactic(auto)]

ghost use Rattle.std.specs.Prelude.{◌≡◌, ◌<◌};
ghost use Rattle.checks.specs.Numbers.{number_judged};
ghost use Rattle.checks.specs.Steps.{next_number, named_number, ends_number, standard_number, good_number, rank_number};

use checks::above::Above;
use checks::refusals::Refusal;
use lines::DASH;
use quantity::Kilos;

// Row 8: a P line has the next number, and only P lines stand above it.
pub fn next(n: u64, above: Above) -> Result<(), Refusal>
    ensures { number_judged result ≡ next_number n above }
{
    if n == 0 {
        return Err(Refusal::ProcessNotNext);
    }
    if n - 1 != above.lines as u64 {
        return Err(Refusal::ProcessNotNext);
    }
    if above.processes != above.lines {
        return Err(Refusal::ProcessNotNext);
    }
    Ok(())
}

// Row 9 of a line that names one process.
pub fn known(n: u64, above: Above) -> Result<(), Refusal>
    ensures { number_judged result ≡ named_number n above }
{
    if (above.processes as u64) < n {
        return Err(Refusal::MissingProcess);
    }
    Ok(())
}

// Rows 9 and 10 of a line that names two.
// barred is the outcome of the caller's test of the line, and no switch.
pub fn ends(from: u64, to: u64, above: Above, barred: bool) -> Result<(), Refusal>
    ensures { number_judged result ≡ ends_number from to barred above }
{
    known(from, above)?;
    known(to, above)?;
    if barred {
        return Err(Refusal::EndsNotAllowed);
    }
    Ok(())
}

// Row 11 of a source stream: `-` in a or b needs a code.
pub fn standard(code: u64, a: u64, b: u64) -> Result<(), Refusal>
    ensures { number_judged result ≡ standard_number code a b }
{
    if (code == 0) & ((a == DASH) | (b == DASH)) {
        return Err(Refusal::NoStandardValue);
    }
    Ok(())
}

// Rows 12 and 13 of an own good.
pub fn left(kg: Kilos, above: Above) -> Result<(), Refusal>
    ensures { number_judged result ≡ good_number kg.0 above }
{
    let output = above.output.0;
    let taken = above.taken.0;
    if above.pair.0 != 0 {
        return Err(Refusal::SecondOfPair);
    }
    if output < taken {
        return Err(Refusal::OutputExceeded);
    }
    if output - taken < kg.0 {
        return Err(Refusal::OutputExceeded);
    }
    Ok(())
}

// Row 17 of a K line: no K line above states its rank of its precursor.
pub fn unstated(rank: u64, above: Above) -> Result<(), Refusal>
    requires rank_range { rank < 64 }
    ensures { number_judged result ≡ rank_number rank above }
{
    if (above.ranks >> rank) & 1 == 1 {
        return Err(Refusal::SecondOfRank);
    }
    Ok(())
}
