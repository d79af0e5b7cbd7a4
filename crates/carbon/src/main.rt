// Document 01: standard input to standard output, the report of a sheet or the number and line of its refusal.
#![tactic(auto)]

use answers::LONGEST;
use input::{at_end, read_full, read_more};
use quantity::limits::BYTES;
use std::io::Write;

// One byte more than a sheet may have, so that a longer one is seen.
const MOST: usize = BYTES + 1;

// No contract can say what a program reads and writes: callers/run runs it at its limits and with input that cannot be read.
fn main(rt: HostRuntime) {
    let mut stdin = rt.stdin();
    let mut sheet = [0u8; MOST];
    let got = match read_full(&mut stdin, &mut sheet) {
        Ok(got) if at_end(got, read_more(&mut stdin)) => got,
        _ => {
            tell(rt, b"carbon: the sheet was not read to its end\n");
            return;
        }
    };
    let mut space = [0u8; LONGEST];
    let length = writer::print(&sheet[..got], &mut space);
    if rt.stdout().write_all(&space[..length]).is_err() {
        tell(rt, b"carbon: not all could be written\n");
    }
}

// A fault in words on standard error, which may fail too.
fn tell(rt: HostRuntime, words: &[u8]) {
    let _ = rt.stderr().write_all(words);
}
