ghost use Rattle.std.specs.Prelude.{◌≡◌, ◌<◌, ◌≤◌, ◌↔◌, ℕ, List, length, slice_index, IsTrue};
ghost use Rattle.causal_base.specs.declared.entry.Entry.{Entry};
ghost use Rattle.causal_base.specs.Journal.{delivered_by};
ghost use Rattle.causal_base.specs.Past.{HasEvent};
ghost use Rattle.cut_scroll.specs.Cuts.{IsConsistent};
ghost use Rattle.cut_scroll.specs.Parts.{HasPastOf, IsWholeOn};

use causal_base::{Causal, EventId, MOST_TRACES, Steps};
use std::sync::ledger::Ledger;

/// Whether counts, one for each trace, are a consistent cut of the delivered events. They aren't
/// where one is above how many events of its trace are delivered. It takes no memory.
pub fn is_consistent<C: Causal, L: Ledger>(book: &C, counts: &[u32], steps: &mut Steps<L>) -> bool
    requires { length counts.now ≡ (C.types book.now).traces }
    ensures { (journal : List Entry) → C.stands_for book.now journal → IsTrue result
        ↔ IsConsistent (C.types book.now) (delivered_by journal) counts.now }
{
    for trace in 0..book.traces() {
        if !is_whole_on(book, counts, trace, steps) {
            return false;
        }
    }
    true
}

/// Whether no more events of a trace are counted than are delivered, and all that reaches one that
/// is counted is counted too.
fn is_whole_on<C: Causal, L: Ledger>(
    book: &C,
    counts: &[u32],
    trace: u32,
    steps: &mut Steps<L>,
) -> bool
    requires length { length counts.now ≡ (C.types book.now).traces }
    requires trace { trace < (C.types book.now).traces }
    ensures { (journal : List Entry) → C.stands_for book.now journal → IsTrue result
        ↔ IsWholeOn (C.types book.now) (delivered_by journal) counts.now trace }
{
    let number = counts[trace as usize];
    if number == 0 {
        return true;
    }
    if number > book.count(trace) {
        return false;
    }
    has_past(book, counts, EventId { trace, number }, steps)
}

/// Whether all that reaches a delivered event is counted.
fn has_past<C: Causal, L: Ledger>(
    book: &C,
    counts: &[u32],
    e: EventId,
    steps: &mut Steps<L>,
) -> bool
    requires length { length counts.now ≡ (C.types book.now).traces }
    requires delivered { (journal : List Entry) → C.stands_for book.now journal
        → HasEvent (delivered_by journal) e }
    ensures { (journal : List Entry) → C.stands_for book.now journal → IsTrue result
        ↔ HasPastOf (C.types book.now) (delivered_by journal) counts.now e }
{
    // Reading how many traces there are shows that they are few.
    let _traces = book.traces();
    let mut clock = [0; MOST_TRACES as usize];
    let clock = &mut clock[..counts.len()];
    let _is_delivered = book.clock(e, clock, steps);
    are_within(clock, counts)
}

/// Whether no number is above the other one at its place.
fn are_within(numbers: &[u32], others: &[u32]) -> bool
    requires { length numbers.now ≡ length others.now }
    ensures { IsTrue result ↔ ((place : ℕ)
        → slice_index numbers.now place ≤ slice_index others.now place) }
{
    for place in 0..numbers.len() {
        if numbers[place] > others[place] {
            return false;
        }
    }
    true
}
