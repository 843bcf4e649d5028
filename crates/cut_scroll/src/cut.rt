ghost use Rattle.std.specs.Prelude.{◌≡◌, ◌+◌, ◌*◌, ◌↔◌, ◌<◌, ◌≤◌, ◌∷◌, [], ℕ, List, length, max, slice_index, All, Contains, IsTrue, IfOk};
ghost use Rattle.causal_base.specs.declared.answer.Answer.TheVariants.{NotYet};
ghost use Rattle.causal_base.specs.declared.entry.Entry.{Entry};
ghost use Rattle.causal_base.specs.declared.event.Event.{Event};
ghost use Rattle.causal_base.specs.declared.event_id.EventId.{EventId};
ghost use Rattle.causal_base.specs.Answers.{IsAnswer};
ghost use Rattle.causal_base.specs.History.{count_on};
ghost use Rattle.causal_base.specs.Journal.{delivered_by};
ghost use Rattle.causal_base.specs.Past.{HasEvent};
ghost use Rattle.cut_scroll.specs.Cuts.{IsConsistent, IsCut, IsGreatestWithout, IsIn, IsLeastWith, MovesFor};
ghost use Rattle.cut_scroll.specs.Parts.{IsUnreached};

use crate::reach::unreached;
use causal_base::{Answer, Causal, EventId, MOST_TRACES, Steps};
use std::alloc::{AllocError, Global};
use std::marker::Model;
use std::sync::ledger::Ledger;

/// A cut: a count of events for each trace, from the first on. Contracts see the counts.
#[derive(Debug, Drop)]
pub struct Cut {
    counts: Vec<u32>,
}

impl Model for Cut {
    ghost use Rattle.std.specs.Prelude.{ℕ, List};

    ghost Value = { List ℕ };

    ghost view = { λ cut. cut.counts.items };
}

impl Cut {
    /// The empty cut over so many traces. It fails where there is no memory.
    pub fn none(alloc: Global, traces: u32) -> Result<Cut, AllocError>
        ensures length { IfOk result (λ cut. length cut ≡ traces) }
        ensures empty { IfOk result (λ cut. All (λ count. count ≡ 0) cut) }
    {
        Ok(Cut {
            counts: vec![in alloc; 0; traces as usize]?,
        })
    }

    /// Makes it empty.
    pub fn clear(&mut self)
        ensures length { length self.new ≡ length self.old }
        ensures empty { All (λ count. count ≡ 0) self.new }
    {
        self.counts.fill(0);
    }

    /// Makes it all delivered events.
    pub fn all<C: Causal>(&mut self, book: &C)
        requires { length self.old ≡ (C.types book.now).traces }
        ensures length { length self.new ≡ length self.old }
        ensures all { (journal : List Entry) → C.stands_for book.now journal → (trace : ℕ)
            → trace < (C.types book.now).traces
            → slice_index self.new trace ≡ count_on trace (delivered_by journal) }
    {
        take_counts(&mut self.counts, book);
    }

    /// Moves it forward, to the least consistent cut that has all of it and the event e. It is
    /// consistent before. Where e isn't delivered it stays.
    pub fn to<C: Causal, L: Ledger>(
        &mut self,
        book: &C,
        e: EventId,
        steps: &mut Steps<L>,
    ) -> Answer<()>
        requires consistent { (journal : List Entry) → C.stands_for book.now journal
            → IsConsistent (C.types book.now) (delivered_by journal) self.old }
        ensures moved { (journal : List Entry) → C.stands_for book.now journal
            → IsAnswer (delivered_by journal) (e ∷ []) (λ _. MovesFor (delivered_by journal) e
            (λ x. IsLeastWith (C.types book.now) (delivered_by journal) self.old x self.new))
            result }
        ensures stays { (id : EventId) → result ≡ NotYet id → self.new ≡ self.old }
        ensures steps { steps.new ≤ steps.old + C.bound book.now }
    {
        // That there is a journal shows that the traces are few.
        let _traces = book.traces();
        let mut clock = [0; MOST_TRACES as usize];
        let clock = &mut clock[..self.counts.len()];
        if !book.clock(e, clock, steps) {
            return Answer::NotYet(e);
        }
        raise(&mut self.counts, clock);
        Answer::Known(())
    }

    /// Moves it back, to the greatest consistent cut within it that hasn't the event e: it stays
    /// where it hasn't e. It is consistent before. Where e isn't delivered it stays.
    pub fn back<C: Causal, L: Ledger>(
        &mut self,
        book: &C,
        e: EventId,
        steps: &mut Steps<L>,
    ) -> Answer<()>
        requires consistent { (journal : List Entry) → C.stands_for book.now journal
            → IsConsistent (C.types book.now) (delivered_by journal) self.old }
        ensures moved { (journal : List Entry) → C.stands_for book.now journal
            → IsAnswer (delivered_by journal) (e ∷ []) (λ _. MovesFor (delivered_by journal) e
            (λ x. IsGreatestWithout (C.types book.now) (delivered_by journal) self.old x self.new))
            result }
        ensures stays { (id : EventId) → result ≡ NotYet id → self.new ≡ self.old }
        ensures steps { steps.new
            ≤ steps.old + 20 * (C.types book.now).traces * C.bound book.now }
    {
        let Some(_) = book.event(e) else {
            return Answer::NotYet(e);
        };
        if self.has(e) {
            lower(&mut self.counts, book, e, steps);
        }
        Answer::Known(())
    }

    /// Whether it has the event with this id, the first of whose trace is number 1.
    pub fn has(&self, e: EventId) -> bool
        ensures { IsTrue result ↔ IsIn self.now e }
    {
        match self.counts.get(e.trace as usize) {
            Some(count) => e.number <= *count,
            None => e.number == 0,
        }
    }

    /// Its counts, one for each trace.
    pub fn counts(&self) -> &[u32]
        ensures { result.now ≡ self.now }
    {
        &self.counts
    }
}

/// Writes how many events of each trace are delivered.
fn take_counts<C: Causal>(counts: &mut [u32], book: &C)
    requires { length counts.old ≡ (C.types book.now).traces }
    ensures { (journal : List Entry) → C.stands_for book.now journal → (trace : ℕ)
        → trace < (C.types book.now).traces
        → slice_index counts.new trace ≡ count_on trace (delivered_by journal) }
{
    for trace in 0..book.traces() {
        counts[trace as usize] = book.count(trace);
    }
}

/// Raises each count to the number at its place, where that is greater.
fn raise(counts: &mut [u32], numbers: &[u32])
    requires { length counts.old ≡ length numbers.now }
    ensures { (place : ℕ) → slice_index counts.new place
        ≡ max (slice_index counts.old place) (slice_index numbers.now place) }
{
    for place in 0..counts.len() {
        counts[place] = counts[place].max(numbers[place]);
    }
}

/// Lowers each count to how many of the first events that it counts a delivered event doesn't
/// reach.
fn lower<C: Causal, L: Ledger>(counts: &mut [u32], book: &C, e: EventId, steps: &mut Steps<L>)
    requires delivered { (journal : List Entry) → C.stands_for book.now journal
        → HasEvent (delivered_by journal) e }
    requires cut { (journal : List Entry) → C.stands_for book.now journal
        → IsCut (C.types book.now) (delivered_by journal) counts.old }
    ensures lowered { (journal : List Entry) → C.stands_for book.now journal → (x : Event)
        → Contains (delivered_by journal) x → x.id ≡ e
        → (trace : ℕ) → trace < (C.types book.now).traces
        → IsUnreached (C.types book.now) (delivered_by journal) x trace
        (slice_index counts.old trace) (slice_index counts.new trace) }
    ensures steps { steps.new ≤ steps.old + 20 * (C.types book.now).traces * C.bound book.now }
{
    for trace in 0..book.traces() {
        let count = counts[trace as usize];
        counts[trace as usize] = unreached(book, e, trace, count, steps);
    }
}
