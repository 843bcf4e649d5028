use causal_base::EventId;

/// What a client asks.
#[derive(Debug, PartialEq, Eq, Drop)]
pub enum Command {
    /// Whether the first event happened before the second.
    Before(EventId, EventId),
    /// How the first event lies to the second.
    Relation(EventId, EventId),
    /// The event with this id.
    Event(EventId),
    /// The stamp of the event with this id. It depends on the order of delivery, so the closing
    /// script, whose replies don't, can't ask for it.
    Stamp(EventId),
    /// The greatest event of a trace that is before the event with this id.
    GreatestBefore(EventId, u32),
    /// The least delivered event of a trace that the event with this id is before.
    LeastAfter(EventId, u32),
    /// Makes the cut empty, and asks for it.
    CutNone,
    /// Makes the cut all delivered events, and asks for it.
    CutAll,
    /// Moves the cut forward, to the least consistent one that has all of it and the event with
    /// this id, and asks for it.
    CutTo(EventId),
    /// Moves the cut back, to the greatest consistent one within it that hasn't the event with this
    /// id, and asks for it.
    CutBack(EventId),
    /// Whether the cut has the event with this id.
    CutHas(EventId),
    /// How many events were accepted, are delivered and are held.
    Count,
    /// Whether the event with this id is delivered; while it isn't, and a collector hasn't ended,
    /// the client waits.
    Await(EventId),
}
