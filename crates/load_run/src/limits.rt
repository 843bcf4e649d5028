//! How a load is set up, each number once for the code and for the definitions.

/// How many traces it has.
pub const TRACES: u32 = 60;

/// How many collectors bring its events.
pub const COLLECTORS: u32 = 3;

/// The number that its list of events is made from.
pub const START: u32 = 1;
