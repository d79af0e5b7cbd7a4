// Bytes written into a lent space. What is put where is said by the definition of `Put` in decimal.
#![tactic(auto)]

ghost use Rattle.std.specs.Prelude.{◌∷◌, [], ◌≤◌, ◌<◌, length};
ghost use Rattle.decimal.specs.Writing.{Put};

// Writes one byte at a place of a lent space, and gives the place after it.
#[tactic(auto, using(decimal::proofs::Writing::written_one))]
pub fn put_byte(space: &mut [u8], at: usize, b: u8) -> usize
    requires { at < length space.old }
    ensures { Put space.old at (b ∷ []) space.new result }
{
    space[at] = b;
    at + 1
}

// Writes some bytes at the start of a lent space.
#[tactic(auto, unfolding(decimal::specs::Writing::written))]
pub fn put_bytes(space: &mut [u8], bytes: &[u8])
    requires { length bytes.now ≤ length space.old }
    ensures { Put space.old 0 bytes.now space.new (length bytes.now) }
{
    space[..bytes.len()].copy_from_slice(bytes);
}
