use crate::event_id::EventId;

/// What is delivered at one moment: one event, or two partners, of which the first has the lower
/// trace.
#[derive(Clone, Copy, Debug, PartialEq, Eq)]
pub enum Block {
    One(EventId),
    Two(EventId, EventId),
}
