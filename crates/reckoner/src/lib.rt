// Document 01, "Attribution", "Goods and precursors" and the figures of "The report", and document 02, ticket 4: a sheet's bytes to its reckoning.
#![tactic(auto)]

ghost use Rattle.std.specs.Prelude.{pos, ◌+ℤ◌, ◌≡◌, ◌≤◌, length, IfOk, MatchResult};
ghost use Rattle.quantity.specs.Limits.{limits};
ghost use Rattle.sheet.specs.Verdict.{first_of};
ghost use Rattle.checks.specs.Numbers.{refused_by};
ghost use Rattle.attribution.specs.Verdict.{reckoner_checks};
ghost use Rattle.closing.specs.Closing.{Ready};
ghost use Rattle.reckoner.specs.Reckoned.{Figured, Reckoned};
ghost use Rattle.reckoner.specs.Closed.{ClosedAs};

use checks::refusals::{Refusal, Refused};
use closing::close;
use goods::{KilosByPair, PAIRS};
use large_figures::is_large;
use quantity::limits::BYTES;
use reading::read_lines;
use reckoning::Reckoning;
use works::Works;

// The figures of a works whose lines are all noted. Neither this function nor `put_reckoning` is inlined: the compiler sets the large locals of a
// function to zero where it starts, also for a sheet that is refused before they are needed, and hands large results of inlined functions on
// part by part.
#[inline(never)]
fn put_figures(r: &mut Reckoning, works: &Works, kilos: &KilosByPair)
    requires { Ready works.now.ledger works.now.noted.outputs.0 kilos.now works.now.noted.count }
    ensures { ClosedAs works.now kilos.now r.new }
{
    let Works { noted, ledger } = works;
    *r = Reckoning {
        count: noted.count,
        outputs: noted.outputs,
        figures: close(*ledger, &noted.outputs, kilos, noted.count),
        entered: ledger.totals.entered,
        uncredited: ledger.totals.uncredited,
    };
}

// The reckoning of a sheet that has lines, and not too many bytes.
#[tactic(auto, using(crate::proofs::Answer::not_large))]
#[inline(never)]
fn put_reckoning(r: &mut Reckoning, sheet: &[u8]) -> Result<(), Refused>
    requires { (length sheet.now ≤ limits.bytes) × (1 ≤ length sheet.now) }
    ensures reckoned { MatchResult result (λ _. Figured sheet.now r.new) (λ e. first_of (reckoner_checks limits sheet.now) ≡ refused_by e) }
    ensures sum { IfOk result (λ _. pos r.new.figures.left.0 ≡ r.new.entered.0 +ℤ pos r.new.figures.total_raised.0 +ℤ pos r.new.uncredited.0) }
{
    let mut kilos: KilosByPair = [0; PAIRS];
    let works = read_lines(sheet, &mut kilos)?;
    put_figures(r, &works, &kilos);
    if is_large(r) {
        return Err(Refused::from(Refusal::FigureTooLarge));
    }
    Ok(())
}

// The reckoning of a sheet.
#[tactic(auto, using(crate::proofs::Answer::refused_bytes, crate::proofs::Answer::refused_empty))]
pub fn reckon(s: &[u8]) -> Result<Reckoning, Refused>
    ensures reckoned { Reckoned s.now result }
    ensures sum { IfOk result (λ r. pos r.figures.left.0 ≡ r.entered.0 +ℤ pos r.figures.total_raised.0 +ℤ pos r.uncredited.0) }
{
    if BYTES < s.len() {
        return Err(Refused::from(Refusal::TooManyBytes));
    }
    if s.is_empty() {
        return Err(Refused::from(Refusal::EmptySheet));
    }
    let mut r = Reckoning::default();
    put_reckoning(&mut r, s)?;
    Ok(r)
}
