//! How much there is at most, each limit once for the code and for the definitions.

/// How many files of events, and how many scripts of clients, there are at most.
pub const MOST_NAMES: usize = 16;

/// The greatest number of the communication from which on two clusters may merge.
pub const MOST_AFTER: u32 = 1_000;
