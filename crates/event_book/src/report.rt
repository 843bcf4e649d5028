use causal_base::{EventId, Ids};

/// What became of events that a collector brought.
#[derive(Debug, PartialEq, Eq, Drop)]
pub struct FeedReport {
    /// How many were accepted.
    pub accepted: u32,
    /// How many equal one that was accepted before.
    pub repeats: u32,
    /// The ids of those that differ from the one of their id that was accepted before, in the order
    /// in which they came.
    pub clashes: Ids,
}

/// Why a batch wasn't taken to its end.
#[derive(Debug, PartialEq, Eq, Drop)]
pub enum FeedStop {
    /// As many events as there may be were accepted before one with a new id.
    Full {
        /// The id of that one.
        id: EventId,
        /// What became of those before it.
        report: FeedReport,
    },
    /// Memory ran out.
    Oom {
        /// How many events were dealt with.
        done: u32,
        /// What became of them, or none where there was no memory for a report; then nothing was
        /// done.
        report: Option<FeedReport>,
    },
}
