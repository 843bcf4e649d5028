/// How many bytes of a file are read at once at most.
pub const MOST_READ: usize = 4_096;
