use causal_base::{Counts, Event, EventId, Parts, Tuples};

/// What a client is told in answer to one of its commands.
#[derive(Debug, PartialEq, Eq, Drop)]
pub enum Reply {
    /// It is so.
    Yes,
    /// It isn't so.
    No,
    /// The first event that the command names and that isn't delivered.
    NotYet(EventId),
    /// The first event happened before the second.
    Before,
    /// The second event happened before the first.
    After,
    /// Neither event could have influenced the other.
    Concurrent,
    /// The two events are one.
    Same,
    /// The two events are partners: two traces did one thing at once.
    Partners,
    /// The event that was asked for.
    Shown(Event),
    /// The level of the event's stamp, and the stamp's number for each of its members, in rising
    /// order.
    Stamped {
        level: u8,
        parts: Parts,
    },
    /// The first matches of a pattern, and whether there are more.
    Found {
        tuples: Tuples,
        more: bool,
    },
    /// The event that was looked for.
    Id(EventId),
    /// There is no such event.
    Nothing,
    /// How many events of each trace are in the cut.
    Cut(Counts),
    /// How many events were accepted, how many of them are delivered, and how many are held.
    Counted {
        accepted: u32,
        delivered: u32,
        held: u32,
    },
    /// The awaited event is delivered.
    Here,
    /// The awaited event isn't delivered, and each collector has ended.
    Closed,
    /// The awaited event isn't delivered yet, and may be later. This is told to nobody, so it is
    /// never printed.
    Later,
}
