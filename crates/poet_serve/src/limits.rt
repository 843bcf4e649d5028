/// The most bytes that one read of a source takes.
pub const MOST_READ: usize = 4_096;

/// The most clashes of a collector whose ids are told.
pub const MOST_CLASHES_NAMED: usize = 100;
