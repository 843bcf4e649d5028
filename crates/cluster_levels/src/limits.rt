//! How much there is at most, each limit once for the code and for the definitions.

/// How many levels there are at most.
pub const MOST_LEVELS: usize = 4;

/// The greatest size that a level may have.
pub const MOST_SIZE: u32 = 256;
