// Document 01, "The sheet" and "The report": numbers in decimal. The definitions are in specs/.
#![tactic(auto)]

ghost use Rattle.std.specs.Prelude.{◌≡◌, ◌+◌, ◌≤◌, length};
ghost use Rattle.decimal.specs.Spelling.{spelling};
ghost use Rattle.decimal.specs.Writing.{Put};

// How many digits a number has: 0 has one, as 1 has.
#[tactic(auto, using(crate::proofs::Widths::length_one, crate::proofs::Widths::length_some))]
pub fn width(n: u64) -> usize
    ensures value { result ≡ length (spelling n) }
    ensures bounded { result ≤ 20 }
{
    n.checked_ilog10().map_or(1, |power| power as usize + 1)
}

// Writes a number's digits before a place of a lent space, from the last to the first, and gives the place of the first. Nothing is
// formatted: std's `write!` into lent bytes promises neither that it succeeds where there is room nor which bytes then stand there, and an
// `InlineText` would be copied.
#[tactic(auto, using(crate::proofs::Spelling::spelling_some, crate::proofs::Widths::length_two))]
pub fn put_before(space: &mut [u8], end: usize, n: u64) -> usize
    requires { (length (spelling n) ≤ end) × (end ≤ length space.old) }
    ensures { Put space.old result (spelling n) space.new end }
{
    let mut place = end;
    let mut left = n;
    // each turn writes two digits: what is left of the number ends the loop, and no count. `itoa::write_digits` in its place is plainer and
    // was proved, but the lines of records then take 8 to 20 % longer to write.
    while 99 < left {
        place -= 2;
        let pair = (left % 100) as u8;
        space[place + 1] = 48 + pair % 10;
        space[place] = 48 + pair / 10;
        left = left / 100;
    }
    if left < 10 {
        space[place - 1] = 48 + (left as u8);
        return place - 1;
    }
    space[place - 1] = 48 + ((left % 10) as u8);
    space[place - 2] = 48 + ((left / 10) as u8);
    place - 2
}

// Writes a number's digits at a place of a lent space, and gives the place after them.
pub fn put(space: &mut [u8], at: usize, n: u64) -> usize
    requires { at + length (spelling n) ≤ length space.old }
    ensures { Put space.old at (spelling n) space.new result }
{
    let end = at + width(n);
    put_before(space, end, n);
    end
}
