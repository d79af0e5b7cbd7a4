// Document 01, "Goods and precursors": pools, portions and what is left. The definitions are in specs/.
#![tactic(auto)]

use quantity::limits::PROCESSES;

// Figures stand at the process's number; place 0 is outside the works.
pub const SIZE: usize = PROCESSES + 1;

// Kilograms from process i to process j stand at i * SIZE + j.
pub const PAIRS: usize = SIZE * SIZE;

// A figure of each process, at its number, by its unit. Three structs, and no generic one over the unit's struct: clauses and definitions
// speak of columns of numbers, and of a column of structs each of them would have to take the numbers out.
#[derive(Clone, Copy, Default)]
pub struct GramsByProcess(pub [u64; SIZE]);

#[derive(Clone, Copy, Default)]
pub struct SignedGramsByProcess(pub [i64; SIZE]);

#[derive(Clone, Copy, Default)]
pub struct KilosByProcess(pub [u64; SIZE]);

// The kilograms of each pair of processes: one list, as the definitions' `pairs` reads it. With two indices each definition of pairs would
// read a list of lists.
pub type KilosByPair = [u64; PAIRS];

// Direct and indirect grams of each process: their own, their pools, or what is left of these.
#[derive(Clone, Copy, Default)]
pub struct BothGramsByProcess {
    pub direct: GramsByProcess,
    pub indirect: GramsByProcess,
}
