ghost use Rattle.std.specs.Prelude.{◌≡◌, ◌⊎◌, ◌+◌, ◌*◌, ◌<◌, ◌≤◌, ◌↔◌, ◌∷◌, [], List, Contains, IsTrue};
ghost use Rattle.causal_base.specs.declared.entry.Entry.{Entry};
ghost use Rattle.causal_base.specs.declared.event.Event.{Event};
ghost use Rattle.causal_base.specs.Answers.{IsAnswer};
ghost use Rattle.causal_base.specs.Event.{Pairs};
ghost use Rattle.causal_base.specs.Journal.{delivered_by};
ghost use Rattle.causal_base.specs.Past.{HasEvent};
ghost use Rattle.cut_scroll.specs.Cuts.{MovesFor};
ghost use Rattle.cut_scroll.specs.Neighbours.{NamesGreatestBefore, NamesLeastAfter};

use crate::reach::unreached;
use causal_base::{Answer, Causal, EventId, Steps, Types, pairs};
use std::sync::ledger::Ledger;

/// The greatest event of a trace that is before the event e, if there is one; or that e isn't
/// delivered. The types are those of the events, and the trace is one of theirs.
pub fn greatest_before<C: Causal, L: Ledger>(
    book: &C,
    types: &Types,
    e: EventId,
    trace: u32,
    steps: &mut Steps<L>,
) -> Answer<Option<EventId>>
    requires types { types.now ≡ C.types book.now }
    requires trace { trace < types.now.traces }
    ensures answer { (journal : List Entry) → C.stands_for book.now journal
        → IsAnswer (delivered_by journal) (e ∷ []) (λ said. MovesFor (delivered_by journal) e
        (NamesGreatestBefore types.now (delivered_by journal) trace said)) result }
    ensures steps { steps.new ≤ steps.old + C.bound book.now }
{
    let Some(number) = book.component(e, trace, steps) else {
        return Answer::NotYet(e);
    };
    // The last event that reaches e is before it, unless it is e or its partner.
    let last = EventId { trace, number };
    Answer::Known(if number == 0 {
        None
    } else if !are_one_thing(book, types, e, last) {
        Some(last)
    } else if number == 1 {
        None
    } else {
        Some(EventId {
            trace,
            number: number - 1,
        })
    })
}

/// The least delivered event of a trace that the event e is before, if there is one; or that e
/// isn't delivered. The types are those of the events, and the trace is one of theirs. It is found
/// by halves, in at most 20 questions of what reaches what.
pub fn least_after<C: Causal, L: Ledger>(
    book: &C,
    types: &Types,
    e: EventId,
    trace: u32,
    steps: &mut Steps<L>,
) -> Answer<Option<EventId>>
    requires types { types.now ≡ C.types book.now }
    requires trace { trace < types.now.traces }
    ensures answer { (journal : List Entry) → C.stands_for book.now journal
        → IsAnswer (delivered_by journal) (e ∷ []) (λ said. MovesFor (delivered_by journal) e
        (NamesLeastAfter types.now (delivered_by journal) trace said)) result }
    ensures steps { steps.new ≤ steps.old + 20 * C.bound book.now }
{
    let Some(_) = book.event(e) else {
        return Answer::NotYet(e);
    };
    let count = book.count(trace);
    let before = unreached(book, e, trace, count, steps);
    if before == count {
        return Answer::Known(None);
    }
    // It is before the first event that it reaches, unless that is e or its partner.
    let first = EventId {
        trace,
        number: before + 1,
    };
    Answer::Known(if !are_one_thing(book, types, e, first) {
        Some(first)
    } else if first.number == count {
        None
    } else {
        Some(EventId {
            trace,
            number: first.number + 1,
        })
    })
}

/// Whether two delivered events are one event, or partners. The types are those of the events.
fn are_one_thing<C: Causal>(book: &C, types: &Types, a: EventId, b: EventId) -> bool
    requires types { types.now ≡ C.types book.now }
    requires a { (journal : List Entry) → C.stands_for book.now journal
        → HasEvent (delivered_by journal) a }
    requires b { (journal : List Entry) → C.stands_for book.now journal
        → HasEvent (delivered_by journal) b }
    ensures { (journal : List Entry) → C.stands_for book.now journal → (x y : Event)
        → Contains (delivered_by journal) x → x.id ≡ a
        → Contains (delivered_by journal) y → y.id ≡ b
        → IsTrue result ↔ ((x ≡ y) ⊎ Pairs types.now x y) }
{
    // That there is a journal shows that the types of the events are in the table.
    let _traces = book.traces();
    let Some(first) = book.event(a) else {
        unreachable!()
    };
    let Some(second) = book.event(b) else {
        unreachable!()
    };
    a == b || pairs(types, first, second)
}
