ghost use Rattle.std.specs.Prelude.{◌≡◌, ◌<◌, length, slice_index};
ghost use Rattle.std.specs.Option.{option_copied};
ghost use Rattle.causal_base.specs.declared.limits.TheConstants.{MOST_TRACES};
ghost use Rattle.journal.specs.Delivered.{delivered_at};

use crate::index::place_of_order;
use crate::kept::{Kept, event_at};
use causal_base::{Event, EventId, MOST_TRACES};
use shared_list::SharedList;
use std::marker::Model;

/// The delivered events of a journal as they were when they were shared. Contracts see the events
/// that had come, where they lie, and how many of each trace are delivered.
#[derive(Debug, Drop)]
pub struct Delivered {
    events: SharedList<Kept>,
    in_order: Vec<SharedList<u32>>,
    counts: [u32; MOST_TRACES as usize],
}

impl Model for Delivered {
    ghost use Rattle.journal.specs.Delivered.{DeliveredEvents};

    ghost Value = { DeliveredEvents };

    ghost view = { λ d. record {
      events = d.events.items;
      in_order = d.in_order.items;
      counts = d.counts;
    } };
}

impl Delivered {
    /// These events, at these places, as many delivered of each trace.
    pub(crate) fn new(
        events: SharedList<Kept>,
        in_order: Vec<SharedList<u32>>,
        counts: [u32; MOST_TRACES as usize],
    ) -> Delivered
        ensures events { result.events ≡ events.items }
        ensures in_order { result.in_order ≡ in_order.items }
        ensures counts { result.counts ≡ counts }
    {
        Delivered {
            events,
            in_order,
            counts,
        }
    }

    /// How many events of a trace are delivered.
    pub fn count(&self, trace: u32) -> u32
        requires { trace < MOST_TRACES }
        ensures { result ≡ slice_index self.now.counts trace }
    {
        self.counts[trace as usize]
    }

    /// The delivered event with this id, if there is one.
    pub fn event(&self, id: EventId) -> Option<&Event>
        requires { id.trace < MOST_TRACES }
        ensures { option_copied result ≡ delivered_at self.now id }
    {
        if id.number > self.counts[id.trace as usize] {
            return None;
        }
        event_at(&self.events, place_of_order(&self.in_order, id)?)
    }
}
