// Document 01: bytes read from standard input, and whether the program `carbon` read the sheet to its end.
#![tactic(auto)]

ghost use Rattle.std.specs.Prelude.{◌≡◌, ℕ, Bool, ◌<◌, ◌≤◌, [], ◌∷◌, length, take, true, false, Ok, IfOk, OnErr};
ghost use Rattle.std.specs.Io.KnownBytes.{Consumes, IsAtEnd, Keeps};
ghost use Rattle.input.specs.End.{none_left, nothing_counted, at_end};

use quantity::limits::BYTES;
use std::io;
use std::io::Read;

// What one more read answered.
pub trait OneMore {
    ghost ended: { Self → Bool };

    // Whether nothing was left, and the read did not fail.
    fn ended(self) -> bool
        ensures { result ≡ ended self };
}

impl OneMore for io::Result<bool> {
    ghost ended = { λ after. none_left after };

    fn ended(self) -> bool {
        match self {
            Ok(more) => !more,
            Err(_) => false,
        }
    }
}

// A number of bytes, as read gives it in C: any other number than 0 is no end.
impl OneMore for isize {
    ghost ended = { λ after. nothing_counted after };

    fn ended(self) -> bool {
        self == 0
    }
}

// Whether the sheet was read to its end: `got` bytes, and then one more read, which answered `after`.
pub fn at_end<A: OneMore>(got: usize, after: A) -> bool
    ensures { result ≡ at_end got (A.ended after) }
{
    let ended = after.ended();
    BYTES < got || ended
}

// Reads until the buffer is full or the input ends, and gives how many bytes stand at the buffer's start: fewer than it has room for only at
// the input's end. Where a read fails, its fault is given: what the reads before it gave stands at the start then too, but not how many bytes
// these are is told. Of what stands past them nothing is promised, since std says nothing of what a read leaves there.
pub fn read_full<R: Read>(reader: &mut R, buffer: &mut [u8]) -> io::Result<usize>
    ensures within { IfOk result (λ n. n ≤ length buffer.old) }
    ensures bytes { IfOk result (λ n. Consumes (R.remaining reader.old) (R.remaining reader.new) (take n buffer.new)) }
    ensures end { IfOk result (λ n. n < length buffer.old → IsAtEnd (R.remaining reader.new)) }
    ensures failed { OnErr result ((n : ℕ) × (n < length buffer.old)
        × Consumes (R.remaining reader.old) (R.remaining reader.new) (take n buffer.new)) }
{
    let mut done: usize = 0;
    // how many turns there are isn't known before: each read gives as many bytes as it has
    while done < buffer.len() {
        match reader.read(&mut buffer[done..]) {
            Ok(0) => return Ok(done),
            Ok(n) => done += n,
            Err(fault) => return Err(fault),
        }
    }
    Ok(done)
}

// One read of one byte more: true where there was one, false at the input's end.
pub fn read_more<R: Read>(reader: &mut R) -> io::Result<bool>
    ensures one { result ≡ Ok true → (b : ℕ) × Consumes (R.remaining reader.old) (R.remaining reader.new) (b ∷ []) }
    ensures end { result ≡ Ok false → IsAtEnd (R.remaining reader.new) }
    ensures kept { OnErr result (Keeps (R.remaining reader.old) (R.remaining reader.new)) }
{
    let mut more = [0u8; 1];
    Ok(reader.read(&mut more)? == 1)
}
