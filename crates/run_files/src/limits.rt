/// The most bytes of a target or of a script.
pub const MOST_FILE: u64 = 1_048_576;

/// The most clients of a run.
pub const MOST_CLIENTS: usize = 16;
