// Document 01, "The sheet", and document 02, ticket 4: the ends of ranges that several kinds of lines share.
use quantity::limits::PROCESSES;

// The highest number of a process.
pub const LAST: u64 = PROCESSES as u64;

// The highest kilograms.
pub const KILOS: u64 = 10000000000;

// The highest number of a precursor.
pub const PRECURSOR: u64 = 255;
