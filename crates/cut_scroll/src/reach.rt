//! What an event reaches of a trace: the last events of it, found by halves.

ghost use Rattle.std.specs.Prelude.{◌≡◌, ◌+◌, ◌*◌, ◌<◌, ◌≤◌, ◌↔◌, List, Contains, IsTrue};
ghost use Rattle.causal_base.specs.declared.entry.Entry.{Entry};
ghost use Rattle.causal_base.specs.declared.event.Event.{Event};
ghost use Rattle.causal_base.specs.History.{count_on};
ghost use Rattle.causal_base.specs.Journal.{delivered_by};
ghost use Rattle.causal_base.specs.Past.{HasEvent};
ghost use Rattle.causal_base.specs.Walks.{Reaches};
ghost use Rattle.cut_scroll.specs.Parts.{IsUnreached};

use causal_base::{Causal, EventId, Steps};
use std::sync::ledger::Ledger;

/// How many of the first delivered events of a trace, up to the number `most`, a delivered event
/// doesn't reach: it reaches those after them. It takes at most 20 questions, since no number is as
/// great as 2^20.
pub(crate) fn unreached<C: Causal, L: Ledger>(
    book: &C,
    e: EventId,
    trace: u32,
    most: u32,
    steps: &mut Steps<L>,
) -> u32
    requires delivered { (journal : List Entry) → C.stands_for book.now journal
        → HasEvent (delivered_by journal) e }
    requires trace { trace < (C.types book.now).traces }
    requires most { (journal : List Entry) → C.stands_for book.now journal
        → most ≤ count_on trace (delivered_by journal) }
    ensures within { result ≤ most }
    ensures unreached { (journal : List Entry) → C.stands_for book.now journal → (x : Event)
        → Contains (delivered_by journal) x → x.id ≡ e
        → IsUnreached (C.types book.now) (delivered_by journal) x trace most result }
    ensures steps { steps.new ≤ steps.old + 20 * C.bound book.now }
{
    // That there is a journal shows that its numbers are below 2^20.
    let _traces = book.traces();
    let mut low = 0;
    let mut high = most;
    while low < high {
        let middle = low + (high - low) / 2;
        let number = middle + 1;
        if reaches(book, e, EventId { trace, number }, steps) {
            high = middle;
        } else {
            low = number;
        }
    }
    low
}

/// Whether the delivered event a reaches the delivered event b.
fn reaches<C: Causal, L: Ledger>(book: &C, a: EventId, b: EventId, steps: &mut Steps<L>) -> bool
    requires a { (journal : List Entry) → C.stands_for book.now journal
        → HasEvent (delivered_by journal) a }
    requires b { (journal : List Entry) → C.stands_for book.now journal
        → HasEvent (delivered_by journal) b }
    ensures reach { (journal : List Entry) → C.stands_for book.now journal → (x y : Event)
        → Contains (delivered_by journal) x → x.id ≡ a
        → Contains (delivered_by journal) y → y.id ≡ b
        → IsTrue result ↔ Reaches (C.types book.now) (delivered_by journal) x y }
    ensures steps { steps.new ≤ steps.old + C.bound book.now }
{
    let _traces = book.traces();
    match book.component(b, a.trace, steps) {
        Some(number) => a.number <= number,
        None => unreachable!(),
    }
}
