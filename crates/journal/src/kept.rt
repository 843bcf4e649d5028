ghost use Rattle.std.specs.Prelude.{◌≡◌, slice_get};
ghost use Rattle.std.specs.Option.{option_copied};

use causal_base::Event;
use shared_list::{Piece, SharedList};
use std::alloc::{AllocError, Global};
use std::marker::Model;

/// An event in a shared list. Contracts see the event.
#[derive(Debug, Drop)]
pub(crate) struct Kept {
    event: Event,
}

impl Model for Kept {
    ghost use Rattle.causal_base.specs.declared.event.Event.{Event};

    ghost Value = { Event };

    ghost view = { λ kept. kept.event };
}

impl Kept {
    ghost use Rattle.std.specs.Prelude.{◌≡◌};

    /// The event, kept.
    pub(crate) fn new(event: Event) -> Kept
        ensures { result ≡ event }
    {
        Kept { event }
    }

    /// The event.
    pub(crate) fn event(&self) -> &Event
        ensures { result.now ≡ self.now }
    {
        &self.event
    }
}

impl Piece for Kept {
    fn copy(&self, alloc: Global) -> Result<Kept, AllocError> {
        Ok(Kept {
            event: self.event.copy(alloc)?,
        })
    }
}

/// The event at a place, if there is one.
pub(crate) fn event_at(events: &SharedList<Kept>, place: u32) -> Option<&Event>
    ensures { option_copied result ≡ slice_get events.now.items place }
{
    match events.get(u64::from(place)) {
        Some(kept) => Some(kept.event()),
        None => None,
    }
}
