/// The clocks of how many sends are kept at most.
pub const MOST_SENDS: usize = 4096;
