//! How much there is at most, each limit once for the code and for the definitions.

/// How many traces there are at most.
pub const MOST_TRACES: u32 = 256;

/// How many types of events there are at most.
pub const MOST_TYPES: usize = 64;

/// The greatest number that an event may have within its trace.
pub const MOST_NUMBER: u32 = 1_000_000;

/// How many events are accepted at most.
pub const MOST_EVENTS: u32 = 400_000;

/// How many bytes the text of an event has at most.
pub const MOST_TEXT: usize = 200;

/// How many collectors there are at most.
pub const MOST_COLLECTORS: u32 = 16;

/// What each number that is read is below: 10^18.
pub const NUMBER_BOUND: u64 = 1_000_000_000_000_000_000;

/// How many events a plain list accepts at most.
pub const MOST_PLAIN_EVENTS: u32 = 10_000;
