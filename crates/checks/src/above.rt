// What rows 8 to 13 and 17 ask of the lines above a line.
use quantity::Kilos;

// What the lines above a line say: how many they are, and how many of them are P lines. Of an own good: the output of its process
// `from`, the kilograms that G lines above take of it, and those that a G line above took for the same two processes, 0 where there
// is none. Of a K line: a bit for each rank that a K line above states for its precursor, bit k for rank k. Of any other line the kilograms
// and the bits are 0.
#[derive(Clone, Copy, Default)]
pub struct Above {
    pub lines: usize,
    pub processes: usize,
    pub output: Kilos,
    pub taken: Kilos,
    pub pair: Kilos,
    pub ranks: u64,
}
