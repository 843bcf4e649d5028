ghost use Rattle.std.specs.Prelude.{◌≡◌, ◌≤◌, length};

use crate::limits::MOST_IN_BATCH;
use causal_base::Event;
use std::marker::Model;

/// Events that were read together: at least one, and at most [`MOST_IN_BATCH`].
#[derive(Debug, Drop)]
pub struct Batch {
    events: Vec<Event>,
}

impl Model for Batch {
    ghost use Rattle.std.specs.Prelude.{◌≤◌, List, length};
    ghost use Rattle.causal_base.specs.declared.event.Event.{Event};
    ghost use Rattle.raw_reader.specs.declared.limits.TheConstants.{MOST_IN_BATCH};

    ghost Value = { List Event };

    ghost view = { λ batch. batch.events.items };

    ghost invariant = { λ batch. (1 ≤ length batch.events.items)
        × (length batch.events.items ≤ MOST_IN_BATCH) };
}

impl Batch {
    /// A batch of these events.
    pub fn new(events: Vec<Event>) -> Batch
        requires some { 1 ≤ length events.items }
        requires most { length events.items ≤ MOST_IN_BATCH }
        ensures { result ≡ events.items }
    {
        Batch { events }
    }

    /// Its events, in the order in which they were read.
    pub fn as_slice(&self) -> &[Event]
        ensures events { result.now ≡ self.now }
        ensures some { 1 ≤ length self.now }
        ensures most { length self.now ≤ MOST_IN_BATCH }
    {
        self.events.as_slice()
    }

    /// Its events as a vector, with their memory.
    pub fn into_vec(self) -> Vec<Event>
        ensures events { result.items ≡ self }
        ensures some { 1 ≤ length self }
        ensures most { length self ≤ MOST_IN_BATCH }
    {
        self.events
    }
}
