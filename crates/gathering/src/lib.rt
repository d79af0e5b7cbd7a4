// What the lines of a sheet say once they are read: the state before the first line.
#![tactic(auto)]

ghost use Rattle.std.specs.Prelude.{◌≡◌};
ghost use Rattle.works.specs.Works.{works_at_start};

use works::Works;

// Above the first line: nothing is said.
pub fn nothing_read() -> Works
    ensures { result ≡ works_at_start }
{
    Works::default()
}
