/// Names an event: the trace that it lies on, from 0, and its number within that trace, from 1.
/// Ids are ordered by trace, and then by number.
#[derive(Clone, Copy, Debug, PartialEq, Eq, PartialOrd, Ord, Hash)]
pub struct EventId {
    pub trace: u32,
    pub number: u32,
}
