// A step from field to field of a line: the next field, if it is a short one.
#![tactic(auto)]

ghost use Rattle.std.specs.Prelude.{◌≡◌, ◌≤◌};
ghost use Rattle.steps.specs.Steps.{Ahead, no_step, step_of};

use fields::Stop;
use heads::Head;
use short_fields::short_field;

// A step from field to field: the word that it read, 0 where it read none; how many fields are read by now, the place behind the
// last of them and what stands there: none where the next field is left to the loop over any fields. The word is no Option, since the
// definition `words` too has 0 where no field was read.
#[derive(Clone, Copy)]
pub struct Step {
    pub word: u64,
    pub count: usize,
    pub end: usize,
    pub stop: Option<Stop>,
}

// No field is tried yet.
impl From<Head> for Step {
    ghost from_gives = { λ head step. step ≡ no_step head };

    fn from(head: Head) -> Step {
        Step {
            word: 0,
            count: 0,
            end: head.end,
            stop: head.stop,
        }
    }
}

// The next field, if it is a short number or `-`.
pub fn next_field(s: &[u8], f: Step) -> Step
    requires ahead { Ahead s.now f }
    requires count_le_end { f.count ≤ f.end }
    ensures value { result ≡ step_of s.now f }
    ensures bounded { Ahead s.now result × (result.count ≤ result.end) }
{
    match f.stop {
        Some(Stop::Comma) => match short_field(s, f.end + 1) {
            Some(field) => Step {
                word: field.word,
                count: f.count + 1,
                end: field.end,
                stop: Some(field.stop),
            },
            None => Step {
                word: 0,
                stop: None,
                ..f
            },
        },
        // Both stops are written out: then the compiler leaves out the steps behind a line's last field.
        Some(Stop::LineEnd) => Step {
            word: 0,
            stop: Some(Stop::LineEnd),
            ..f
        },
        None => Step {
            word: 0,
            stop: None,
            ..f
        },
    }
}
