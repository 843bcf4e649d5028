ghost use Rattle.std.specs.Prelude.{◌≡◌, ◌+◌, ◌*◌, ◌<◌, ◌≤◌, [], ◌∷◌, ◌++◌, ℕ, length, reverse, slice_get, slice_index, Contains, Some, option_and_then, IfOk, IfSome, IfNone, OnOk, OnErr, vec_len, vec_capacity};
ghost use Rattle.std.specs.Option.{option_copied, option_map};
ghost use Rattle.causal_base.specs.declared.entry.Entry.TheVariants.{Came, Gone, Pair, Ended};
ghost use Rattle.causal_base.specs.declared.event.Event.{Event};
ghost use Rattle.causal_base.specs.declared.limits.TheConstants.{MOST_COLLECTORS, MOST_EVENTS, MOST_TRACES};
ghost use Rattle.causal_base.specs.Entry.{entry_of as entry_of_ref};
ghost use Rattle.causal_base.specs.History.{count_on};
ghost use Rattle.causal_base.specs.Past.{came, delivered, event_of, HasEvent};
ghost use Rattle.journal.specs.Delivered.{AreOfJournal};
ghost use Rattle.journal.specs.Marks.{entry_of};
ghost use Rattle.journal.specs.Naming.{names_another};

use crate::arrivals::Arrivals;
use crate::delivered::Delivered;
use crate::index::Index;
use crate::mark::Mark;
use causal_base::{Accepted, EntryRef, Event, EventId, MOST_COLLECTORS, MOST_TRACES};
use std::alloc::{AllocError, Global};
use std::marker::Model;

/// A journal of at most [`MOST_EVENTS`](causal_base::MOST_EVENTS) events. Contracts see it as its
/// entries, the oldest first.
#[derive(Debug, Drop)]
pub struct Journal {
    events: Arrivals,
    marks: Vec<Mark>,
    index: Index,
    counts: [u32; MOST_TRACES as usize],
    delivered: u32,
}

impl Model for Journal {
    ghost use Rattle.std.specs.Prelude.{List, vec_capacity};
    ghost use Rattle.causal_base.specs.declared.entry.Entry.{Entry};
    ghost use Rattle.journal.specs.Marks.{entries_of};
    ghost use Rattle.journal.specs.Store.{IsStore};

    ghost Value = { List Entry };

    ghost view = { λ j. entries_of j.events.items j.marks.items };

    ghost invariant = { λ j. IsStore j.events.items j.marks.items (vec_capacity j.marks) j.index
        j.counts j.delivered };
}

impl Journal {
    /// The empty journal, with room for the end of each collector. It fails where there is no
    /// memory.
    pub fn new(alloc: Global) -> Result<Journal, AllocError>
        ensures { IfOk result (λ journal. journal ≡ []) }
    {
        Ok(Journal {
            events: Arrivals::new(alloc),
            marks: Vec::with_capacity(alloc, MOST_COLLECTORS as usize)?,
            index: Index::new(alloc)?,
            counts: no_counts(),
            delivered: 0,
        })
    }

    /// How many entries there are.
    pub fn len(&self) -> u64
        ensures { result ≡ length self.now }
    {
        self.marks.len() as u64
    }

    /// The entry at a place, counted from 0, if there is one.
    pub fn entry(&self, at: u64) -> Option<EntryRef<'_>>
        ensures { option_map entry_of_ref result ≡ slice_get self.now at }
    {
        entry_at(&self.events, &self.marks, at as usize)
    }

    /// How many events came.
    pub fn accepted(&self) -> u32
        ensures number { result ≡ length (came (reverse self.now)) }
        ensures few { result ≤ MOST_EVENTS }
    {
        self.events.len() as u32
    }

    /// How many events are delivered.
    pub fn delivered(&self) -> u32
        ensures { result ≡ length (delivered (reverse self.now)) }
    {
        self.delivered
    }

    /// Whether the event with this id names another, if it came. It reads a byte, and not the event.
    pub fn names_another(&self, id: EventId) -> Option<bool>
        ensures some { IfSome result (λ names. (e : Event)
            × Contains (came (reverse self.now)) e × (e.id ≡ id) × (names ≡ names_another e)) }
        ensures none { IfNone result (HasEvent (came (reverse self.now)) id → ⊥) }
    {
        self.events.names_another(self.index.place(id)?)
    }

    /// Adds an event with a new id, which a collector brings, and takes all memory that it will
    /// need here, its delivery included. Where there is none, all is as before.
    pub fn push_came(&mut self, collector: u32, event: Event) -> Result<(), AllocError>
        requires new { HasEvent (came (reverse self.old)) event.id → ⊥ }
        requires trace { event.id.trace < MOST_TRACES }
        requires few { length (came (reverse self.old)) < MOST_EVENTS }
        ensures ok { OnOk result (self.new ≡ self.old ++ Came collector event ∷ []) }
        ensures err { OnErr result (self.new ≡ self.old) }
    {
        let place = self.events.len() as u32;
        make_room(
            &mut self.marks,
            2 * (place as usize + 1) + MOST_COLLECTORS as usize,
        )?;
        self.events.reserve()?;
        self.index.insert(event.id, place)?;
        self.events.push(event);
        self.marks.push_reserved(Mark::Came(collector, place));
        Ok(())
    }

    /// Adds that an event that came is delivered. It takes no memory.
    pub fn push_gone(&mut self, id: EventId)
        requires came { (e : Event) × (event_of (came (reverse self.old)) id ≡ Some e) }
        requires trace { id.trace < MOST_TRACES }
        requires fewer { length (delivered (reverse self.old)) < length (came (reverse self.old)) }
        requires room { length self.old < 2 * length (came (reverse self.old)) + MOST_COLLECTORS }
        ensures { self.new ≡ self.old ++ Gone id ∷ [] }
    {
        if let Some(place) = self.index.place(id) {
            self.marks.push_reserved(Mark::Gone(place));
            self.counts[id.trace as usize] += 1;
            self.delivered += 1;
        }
    }

    /// Adds that two partners that came are delivered together, the lower trace first. It takes no
    /// memory.
    pub fn push_pair(&mut self, first: EventId, second: EventId)
        requires first { (x : Event) × (event_of (came (reverse self.old)) first ≡ Some x) }
        requires second { (y : Event) × (event_of (came (reverse self.old)) second ≡ Some y) }
        requires first_trace { first.trace < second.trace }
        requires second_trace { second.trace < MOST_TRACES }
        requires fewer { length (delivered (reverse self.old)) + 1
            < length (came (reverse self.old)) }
        requires room { length self.old < 2 * length (came (reverse self.old)) + MOST_COLLECTORS }
        ensures { self.new ≡ self.old ++ Pair first second ∷ [] }
    {
        let Some(lower) = self.index.place(first) else {
            return;
        };
        let Some(upper) = self.index.place(second) else {
            return;
        };
        self.marks.push_reserved(Mark::Pair(lower, upper));
        self.counts[first.trace as usize] += 1;
        self.counts[second.trace as usize] += 1;
        self.delivered += 2;
    }

    /// Adds that a collector brings no more. It takes no memory.
    pub fn push_ended(&mut self, collector: u32)
        requires { length self.old < 2 * length (came (reverse self.old)) + MOST_COLLECTORS }
        ensures { self.new ≡ self.old ++ Ended collector ∷ [] }
    {
        self.marks.push_reserved(Mark::Ended(collector));
    }

    /// The delivered events, as they are now. It copies one open block of events at most, and the
    /// handles of the lists. It fails where there is no memory, or where more events of a trace are
    /// delivered than came without a gap.
    pub fn share_delivered(&mut self, alloc: Global) -> Result<Delivered, AllocError>
        ensures shared { IfOk result (AreOfJournal self.old) }
        ensures same { self.new ≡ self.old }
    {
        self.index.catch_up_all();
        if !self.index.reaches(&self.counts) {
            return Err(AllocError);
        }
        Ok(Delivered::new(
            self.events.share(alloc)?,
            self.index.share_in_order(alloc)?,
            self.counts,
        ))
    }
}

impl Accepted for Journal {
    ghost use Rattle.std.specs.Prelude.{reverse};
    ghost use Rattle.causal_base.specs.Past.{came, deliveries};

    ghost came = { λ journal. came (reverse journal) };

    ghost history = { λ journal. deliveries (reverse journal) };

    fn delivered_on(&self, trace: u32) -> u32 {
        self.counts[trace as usize]
    }

    fn event(&self, id: EventId) -> Option<&Event> {
        self.events.event(self.index.place(id)?)
    }
}

/// No event of any trace.
fn no_counts() -> [u32; MOST_TRACES as usize]
    ensures { (trace : ℕ) → trace < MOST_TRACES → slice_index result trace ≡ 0 }
{
    [0; MOST_TRACES as usize]
}

/// Makes room for so many marks in all, and for as many again where more is needed, so that all
/// copies together are of no more marks than there is room for. It fails where there is no memory.
fn make_room(marks: &mut Vec<Mark>, room: usize) -> Result<(), AllocError>
    requires { room ≤ 2 * MOST_EVENTS + MOST_COLLECTORS }
    ensures items { marks.new.items ≡ marks.old.items }
    ensures ok { OnOk result (room ≤ vec_capacity marks.new) }
    ensures kept { vec_capacity marks.old ≤ vec_capacity marks.new }
{
    if room <= marks.capacity() {
        return Ok(());
    }
    marks.reserve_exact(2 * room - marks.len())
}

/// The entry that the mark at a place stands for, if there is one.
fn entry_at<'a>(events: &'a Arrivals, marks: &[Mark], at: usize) -> Option<EntryRef<'a>>
    ensures { option_map entry_of_ref result
        ≡ option_and_then (entry_of events.now.items) (slice_get marks.now at) }
{
    match *marks.get(at)? {
        Mark::Came(collector, place) => Some(EntryRef::Came(collector, events.event(place)?)),
        Mark::Gone(place) => Some(EntryRef::Gone(events.event(place)?.id)),
        Mark::Pair(first, second) => Some(EntryRef::Pair(
            events.event(first)?.id,
            events.event(second)?.id,
        )),
        Mark::Ended(collector) => Some(EntryRef::Ended(collector)),
    }
}
