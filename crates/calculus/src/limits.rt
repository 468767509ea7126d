// The limits as the code names them; specs/Limits.antt states the same numbers for the contracts.

// Unknowns of a ticket.
pub const MAX_UNKNOWNS: usize = 24;

// Rows that may stand at once.
pub const MAX_ROWS: usize = 96;

// Marks that may stand at once.
pub const MAX_MARKS: usize = 8;

// Lines that a log may hold.
pub const MAX_LINES: usize = 65_536;

// An end of a range, above and below 0.
pub const MAX_END: u64 = 1_048_576;

// A coefficient of an added row, above and below 0.
pub const MAX_COEFFICIENT: u64 = 32_768;

// The constant of an added row, above and below 0.
pub const MAX_CONSTANT: u64 = 1_073_741_824;
