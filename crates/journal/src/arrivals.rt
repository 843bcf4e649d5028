ghost use Rattle.std.specs.Prelude.{◌≡◌, ◌≤◌, ◌++◌, [], ◌∷◌, length, slice_get, IfOk, OnOk};
ghost use Rattle.std.specs.Option.{option_copied, option_map};
ghost use Rattle.journal.specs.Naming.{names_another};

use crate::kept::{Kept, event_at};
use causal_base::Event;
use shared_list::SharedList;
use std::alloc::{AllocError, Global};
use std::marker::Model;

/// How many more events there is room for at most.
const MOST_SPARE: usize = 65;

/// The events that came, in the order of coming, and beside them whether each names another: an
/// event that names none goes by its trace alone, and needn't be read for that. Contracts see the
/// events, and how many more there is room for.
#[derive(Debug, Drop)]
pub(crate) struct Arrivals {
    events: SharedList<Kept>,
    naming: Vec<bool>,
}

impl Model for Arrivals {
    ghost use Rattle.std.specs.Prelude.{◌≡◌, ◌+◌, ◌≤◌, map, vec_len, vec_capacity};
    ghost use Rattle.causal_base.specs.declared.event.Event.{Event};
    ghost use Rattle.shared_list.specs.Shared.{Shared};
    ghost use Rattle.journal.specs.Naming.{names_another};

    ghost Value = { Shared Event };

    ghost view = { λ a. a.events };

    ghost invariant = { λ a. (a.naming.items ≡ map names_another a.events.items)
        × (vec_len a.naming + a.events.spare ≤ vec_capacity a.naming) };
}

impl Arrivals {
    /// No events, with no room. It takes no memory.
    pub(crate) fn new(alloc: Global) -> Arrivals
        ensures { result.items ≡ [] }
    {
        Arrivals {
            events: SharedList::new(alloc),
            naming: Vec::new(alloc),
        }
    }

    /// How many came.
    pub(crate) fn len(&self) -> u64
        ensures { result ≡ length self.now.items }
    {
        self.events.len()
    }

    /// The event at a place, if there is one.
    pub(crate) fn event(&self, place: u32) -> Option<&Event>
        ensures { option_copied result ≡ slice_get self.now.items place }
    {
        event_at(&self.events, place)
    }

    /// Whether the event at a place names another, if there is one.
    pub(crate) fn names_another(&self, place: u32) -> Option<bool>
        ensures { result ≡ option_map names_another (slice_get self.now.items place) }
    {
        self.naming.get(place as usize).copied()
    }

    /// Makes room for at least one more. It fails where there is no memory.
    pub(crate) fn reserve(&mut self) -> Result<(), AllocError>
        ensures items { self.new.items ≡ self.old.items }
        ensures room { OnOk result (1 ≤ self.new.spare) }
    {
        self.naming.reserve(MOST_SPARE)?;
        self.events.reserve()
    }

    /// Adds an event. It takes no memory.
    pub(crate) fn push(&mut self, event: Event)
        requires { 1 ≤ self.old.spare }
        ensures items { self.new.items ≡ self.old.items ++ event ∷ [] }
    {
        self.naming.push_reserved(event.mate.is_some());
        self.events.push(Kept::new(event));
    }

    /// The events as they are now, shared. It copies one open block of them at most, and fails
    /// where there is no memory.
    pub(crate) fn share(&self, alloc: Global) -> Result<SharedList<Kept>, AllocError>
        ensures items { IfOk result (λ shared. shared.items ≡ self.now.items) }
    {
        self.events.share(alloc)
    }
}
