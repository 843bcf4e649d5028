/// How many bytes a target file has at most.
pub const MOST_BYTES: usize = 1_048_576;
