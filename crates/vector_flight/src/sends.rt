ghost use Rattle.std.specs.Prelude.{◌≡◌, ◌⊎◌, ℕ, [], List, length, Contains, IfOk, IfSome, Option, Some};
ghost use Rattle.std.specs.Bool.{OnTrue, OnFalse};
ghost use Rattle.causal_base.specs.declared.event_id.EventId.{EventId};
ghost use Rattle.vector_flight.specs.Held.{AreSentOf, HasNoMore};

use crate::clock::Clock;
use causal_base::EventId;
use lru::LruCache;
use std::alloc::{AllocError, Global};
use std::marker::Model;
use std::num::NonZeroUsize;

/// The clocks of the sends that were used last, by their ids, and room for some that are to come.
/// Contracts see the list of the ids, each with its clock, or none where there is room for it.
#[derive(Debug, Drop)]
pub struct Sends {
    clocks: LruCache<EventId, Option<Clock>>,
}

impl Model for Sends {
    ghost use Rattle.std.specs.Prelude.{ℕ, List, Option};
    ghost use Rattle.causal_base.specs.declared.event_id.EventId.{EventId};

    ghost Value = { List (EventId × Option (List ℕ)) };

    ghost view = { λ s. s.clocks.entries };
}

impl Sends {
    /// No clocks, and at most so many later. It fails where there is no memory.
    pub fn new(alloc: Global, most: NonZeroUsize) -> Result<Sends, AllocError>
        ensures { IfOk result (λ sends. sends ≡ []) }
    {
        Ok(Sends {
            clocks: LruCache::new(alloc, most)?,
        })
    }

    /// Takes the clock of a send, and answers whether it was there.
    pub fn copy_to(&mut self, id: EventId, into: &mut Clock) -> bool
        requires { AreSentOf (length into.old) self.old }
        ensures length { length into.new ≡ length into.old }
        ensures there { OnTrue result (Contains self.old (id, Some into.new)) }
        ensures absent { OnFalse result (into.new ≡ into.old) }
        ensures no_more { HasNoMore self.old self.new }
    {
        match self.clocks.get(&id) {
            Some(kept) => copy_kept(kept, into),
            None => false,
        }
    }

    /// Makes room for the clock of a send, and answers one that is dropped for it, if there is one.
    /// It fails where there is no memory.
    pub fn reserve(&mut self, id: EventId) -> Result<Option<Clock>, AllocError>
        ensures dropped { IfOk result (λ dropped. IfSome dropped (λ clock. (key : EventId)
            × Contains self.old (key, Some clock))) }
        ensures no_more { HasNoMore self.old self.new }
    {
        match self.clocks.push(id, None)? {
            Some((_, dropped)) => Ok(dropped),
            None => Ok(None),
        }
    }

    /// Keeps the clock of a send for which there is room. It takes no memory.
    pub fn keep(&mut self, id: EventId, clock: Clock)
        ensures { (key : EventId) (other : List ℕ) → Contains self.new (key, Some other)
            → Contains self.old (key, Some other) ⊎ ((key ≡ id) × (other ≡ clock)) }
    {
        if let Some(room) = self.clocks.peek_mut(&id) {
            *room = Some(clock);
        }
    }
}

/// Takes a clock, and answers whether it was there.
fn copy_kept(kept: &Option<Clock>, into: &mut Clock) -> bool
    requires { IfSome kept.now (λ clock. length clock ≡ length into.old) }
    ensures length { length into.new ≡ length into.old }
    ensures there { OnTrue result (kept.now ≡ Some into.new) }
    ensures absent { OnFalse result (into.new ≡ into.old) }
{
    match kept {
        Some(clock) => {
            into.copy_from(clock);
            true
        }
        None => false,
    }
}
