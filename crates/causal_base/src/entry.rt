ghost use Rattle.std.specs.Prelude.{◌≡◌, IfOk};

use crate::event::Event;
use crate::event_id::EventId;
use std::alloc::{AllocError, Global};

/// One entry of a journal.
#[derive(Debug, PartialEq, Eq, Drop)]
pub enum Entry {
    /// This collector brought this event.
    Came(u32, Event),
    /// One event was delivered.
    Gone(EventId),
    /// Two partners were delivered together, the lower trace first.
    Pair(EventId, EventId),
    /// This collector brings no more.
    Ended(u32),
}

/// An entry that borrows the event that came.
#[derive(Clone, Copy, Debug, PartialEq, Eq)]
pub enum EntryRef<'a> {
    /// This collector brought this event.
    Came(u32, &'a Event),
    /// One event was delivered.
    Gone(EventId),
    /// Two partners were delivered together, the lower trace first.
    Pair(EventId, EventId),
    /// This collector brings no more.
    Ended(u32),
}

impl Entry {
    ghost use Rattle.causal_base.specs.Entry.{entry_of};

    /// The entry with its event borrowed.
    pub fn as_ref(&self) -> EntryRef<'_>
        ensures { entry_of result ≡ self.now }
    {
        match self {
            Entry::Came(collector, event) => EntryRef::Came(*collector, event),
            Entry::Gone(id) => EntryRef::Gone(*id),
            Entry::Pair(first, second) => EntryRef::Pair(*first, *second),
            Entry::Ended(collector) => EntryRef::Ended(*collector),
        }
    }

    /// An equal entry.
    pub fn copy(&self, alloc: Global) -> Result<Entry, AllocError>
        ensures { IfOk result (λ entry. entry ≡ self.now) }
    {
        match self {
            Entry::Came(collector, event) => Ok(Entry::Came(*collector, event.copy(alloc)?)),
            Entry::Gone(id) => Ok(Entry::Gone(*id)),
            Entry::Pair(first, second) => Ok(Entry::Pair(*first, *second)),
            Entry::Ended(collector) => Ok(Entry::Ended(*collector)),
        }
    }
}
