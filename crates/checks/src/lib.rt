// Document 01, "Sheets sent back", in code: the rows of its table, and rows 5 to 7 as steps from which a line of each kind is judged.
// The definitions of the rows are those of the crate `sheet`; the steps of rows 8 to 13 and 17 stand in the crate `order`.
#![tactic(auto)]

pub mod refusals; // the rows of the table
pub mod ranges; // ends of ranges
pub mod shape; // rows 5 to 7: the line by itself
pub mod above; // what the lines above it say
