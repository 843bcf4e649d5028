//! How much there is at most, each limit once for the code and for the definitions.

/// How many bytes an input has at most.
pub const MOST_INPUT: u64 = 1_073_741_824;

/// How many bytes a line has at most.
pub const MOST_LINE: usize = 400;

/// How many events a batch has at most.
pub const MOST_IN_BATCH: usize = 1_000;
