// Document 01's limits; the definitions have them in specs/Limits.antt.
// Processes are numbered 1 to this.
pub const PROCESSES: usize = 16;

// Lines of a sheet.
pub const LINES: usize = 4096;

// Bytes of a sheet.
pub const BYTES: usize = 65536;

// Row 15: whole-gram figures of the report stay below 2^63.
pub const WHOLE_GRAMS: u64 = 9223372036854775808;
