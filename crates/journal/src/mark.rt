/// What is kept of an entry: the events are told by their places among those that came.
#[derive(Clone, Copy, Debug, PartialEq, Eq)]
pub(crate) enum Mark {
    /// This collector brought the event at this place.
    Came(u32, u32),
    /// The event was delivered.
    Gone(u32),
    /// The two were delivered together, the lower trace first.
    Pair(u32, u32),
    /// This collector brings no more.
    Ended(u32),
}
