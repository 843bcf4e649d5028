use crate::event_id::EventId;

/// What is said of events that may not be delivered yet.
#[derive(Debug, PartialEq, Eq, Drop)]
pub enum Answer<T> {
    /// All of them are delivered, and this holds.
    Known(T),
    /// The first of them that isn't delivered.
    NotYet(EventId),
}
