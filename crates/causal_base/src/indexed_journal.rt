ghost use Rattle.std.specs.Prelude.{◌≡◌, ◌≢◌, ◌^◌, ℕ, slice_get, slice_index, ◌+◌, ◌*◌, ◌<◌, ◌≤◌, [], ◌∷◌, ◌++◌, List, length, reverse, Contains, Some, IfSome, IfNone, OnOk, OnErr, vec_len, vec_capacity};
ghost use Rattle.causal_base.specs.declared.entry.Entry.TheVariants.{Came, Gone, Pair};
ghost use Rattle.causal_base.specs.declared.event.Event.{Event};
ghost use Rattle.causal_base.specs.History.{count_on};
ghost use Rattle.causal_base.specs.Past.{came, delivered, event_of, HasEvent};
ghost use Rattle.causal_base.specs.Index.{IsIndexOf};

use crate::accepted::Accepted;
use crate::entry::Entry;
use crate::event::Event;
use crate::event_id::EventId;
use crate::limits::MOST_TRACES;
use std::alloc::{AllocError, Global};
use std::collections::BTreeMap;
use std::marker::Model;

/// A journal of one collector, with an index of the events in it, so that a look-up doesn't go
/// through it. Room for the delivery of an event is taken when it comes. Contracts see it as the
/// journal.
#[derive(Debug, Drop)]
pub struct IndexedJournal {
    entries: Vec<Entry>,
    places: BTreeMap<EventId, usize>,
    counts: [u32; MOST_TRACES as usize],
    accepted: u32,
}

impl Model for IndexedJournal {
    ghost use Rattle.std.specs.Prelude.{List, vec_len, vec_capacity, ◌*◌, ◌≤◌};
    ghost use Rattle.causal_base.specs.declared.entry.Entry.{Entry};
    ghost use Rattle.causal_base.specs.Index.{IsIndexOf};

    ghost Value = { List Entry };

    ghost view = { λ j. j.entries.items };

    ghost invariant = { λ j. IsIndexOf j.entries.items j.places j.counts j.accepted
        × (2 * j.accepted ≤ vec_capacity j.entries) };
}

impl IndexedJournal {
    /// The empty journal.
    pub fn new(alloc: Global) -> IndexedJournal
        ensures { result ≡ [] }
    {
        IndexedJournal {
            entries: Vec::new(alloc),
            places: BTreeMap::new(alloc),
            counts: no_counts(),
            accepted: 0,
        }
    }

    /// The entries, oldest first.
    pub fn entries(&self) -> &[Entry]
        ensures { result.now ≡ self.now }
    {
        self.entries.as_slice()
    }

    /// How many events came.
    pub fn accepted(&self) -> u32
        ensures { result ≡ length (came (reverse self.now)) }
    {
        self.accepted
    }

    /// Adds an event that comes from collector 0, and takes the room for its delivery. Its id is
    /// new.
    pub fn push_came(&mut self, event: Event) -> Result<(), AllocError>
        requires new { HasEvent (came (reverse self.old)) event.id → ⊥ }
        requires few { length (came (reverse self.old)) < 2 ^ 31 }
        requires room { length self.old ≤ 2 * length (came (reverse self.old)) }
        ensures ok { OnOk result (self.new ≡ self.old ++ Came 0 event ∷ []) }
        ensures err { OnErr result (self.new ≡ self.old) }
    {
        let place = self.entries.len();
        let room = 2 * (self.accepted as usize + 1);
        self.entries.reserve(room - place)?;
        self.places.insert(event.id, place)?;
        self.entries.push_reserved(Entry::Came(0, event));
        self.accepted += 1;
        Ok(())
    }

    /// Adds that the event with this id was delivered. It takes no memory.
    pub fn push_gone(&mut self, id: EventId)
        requires came { (e : Event) × (event_of (came (reverse self.old)) id ≡ Some e) }
        requires trace { id.trace < MOST_TRACES }
        requires few { count_on id.trace (delivered (reverse self.old)) < 2 ^ 31 }
        requires room { length self.old < 2 * length (came (reverse self.old)) }
        ensures { self.new ≡ self.old ++ Gone id ∷ [] }
    {
        self.entries.push_reserved(Entry::Gone(id));
        self.counts[id.trace as usize] += 1;
    }

    /// Adds that two partners were delivered together, the lower trace first. It takes no memory.
    pub fn push_pair(&mut self, first: EventId, second: EventId)
        requires first { (x : Event) × (event_of (came (reverse self.old)) first ≡ Some x) }
        requires second { (y : Event) × (event_of (came (reverse self.old)) second ≡ Some y) }
        requires first_trace { first.trace < second.trace }
        requires second_trace { second.trace < MOST_TRACES }
        requires first_few { count_on first.trace (delivered (reverse self.old)) < 2 ^ 31 }
        requires second_few { count_on second.trace (delivered (reverse self.old)) < 2 ^ 31 }
        requires room { length self.old < 2 * length (came (reverse self.old)) }
        ensures { self.new ≡ self.old ++ Pair first second ∷ [] }
    {
        self.entries.push_reserved(Entry::Pair(first, second));
        self.counts[first.trace as usize] += 1;
        self.counts[second.trace as usize] += 1;
    }
}

impl Accepted for IndexedJournal {
    ghost use Rattle.std.specs.Prelude.{reverse};
    ghost use Rattle.causal_base.specs.Past.{came, deliveries};

    ghost came = { λ journal. came (reverse journal) };

    ghost history = { λ journal. deliveries (reverse journal) };

    fn delivered_on(&self, trace: u32) -> u32 {
        self.counts[trace as usize]
    }

    fn event(&self, id: EventId) -> Option<&Event> {
        match self.places.get(&id) {
            Some(place) => event_at(&self.entries, *place),
            None => None,
        }
    }
}

/// No event of any trace.
fn no_counts() -> [u32; MOST_TRACES as usize]
    ensures { (trace : ℕ) → trace < MOST_TRACES → slice_index result trace ≡ 0 }
{
    [0; MOST_TRACES as usize]
}

/// The event that came at a place of a journal, if one did.
fn event_at(entries: &[Entry], place: usize) -> Option<&Event>
    ensures some { IfSome result (λ e. (collector : ℕ)
        × (slice_get entries.now place ≡ Some (Came collector e.now))) }
    ensures none { IfNone result ((collector : ℕ) (e : Event)
        → slice_get entries.now place ≢ Some (Came collector e)) }
{
    match entries.get(place) {
        Some(Entry::Came(_, event)) => Some(event),
        _ => None,
    }
}
