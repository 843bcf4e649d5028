ghost use Rattle.std.specs.Prelude.{◌≡◌, ◌+◌, ◌*◌, ◌≤◌, ◌↔◌, List, Contains, IsTrue};
ghost use Rattle.causal_base.specs.declared.entry.Entry.{Entry};
ghost use Rattle.causal_base.specs.declared.event.Event.{Event};
ghost use Rattle.causal_base.specs.Asked.{IsBeforeAnswer};
ghost use Rattle.causal_base.specs.Journal.{delivered_by};
ghost use Rattle.causal_base.specs.Past.{HasEvent};
ghost use Rattle.causal_base.specs.Walks.{Reaches};
ghost use Rattle.precedence.specs.Relations.{IsRelationAnswer, IsOneThingAnswer};

use causal_base::{Answer, Causal, EventId, Related, Steps, Types, pairs};
use causal_laws::{clock_tells_reach, delivered_has_own_id, delivered_is_on_a_trace};
use std::sync::ledger::Ledger;

/// Whether the event a happened before the event b, or the first of the two that isn't delivered.
/// The types are those of the events.
pub fn before<C: Causal, L: Ledger>(
    book: &C,
    types: &Types,
    a: EventId,
    b: EventId,
    steps: &mut Steps<L>,
) -> Answer<bool>
    requires { types.now ≡ C.types book.now }
    ensures answer { (journal : List Entry) → C.stands_for book.now journal
        → IsBeforeAnswer types.now (delivered_by journal) a b result }
    ensures steps { steps.new ≤ steps.old + C.bound book.now }
{
    match one_thing(book, types, a, b) {
        Answer::NotYet(id) => Answer::NotYet(id),
        Answer::Known(Some(_)) => Answer::Known(false),
        Answer::Known(None) => Answer::Known(reaches(book, a, b, steps)),
    }
}

/// How the event a lies to the event b, or the first of the two that isn't delivered. The types are
/// those of the events.
pub fn relation<C: Causal, L: Ledger>(
    book: &C,
    types: &Types,
    a: EventId,
    b: EventId,
    steps: &mut Steps<L>,
) -> Answer<Related>
    requires { types.now ≡ C.types book.now }
    ensures answer { (journal : List Entry) → C.stands_for book.now journal
        → IsRelationAnswer types.now (delivered_by journal) a b result }
    ensures steps { steps.new ≤ steps.old + 2 * C.bound book.now }
{
    match one_thing(book, types, a, b) {
        Answer::NotYet(id) => Answer::NotYet(id),
        Answer::Known(Some(related)) => Answer::Known(related),
        Answer::Known(None) => Answer::Known(if reaches(book, a, b, steps) {
            Related::Before
        } else if reaches(book, b, a, steps) {
            Related::After
        } else {
            Related::Concurrent
        }),
    }
}

/// Whether two events are one thing, and which: one event, or partners.
fn one_thing<C: Causal>(book: &C, types: &Types, a: EventId, b: EventId) -> Answer<Option<Related>>
    requires { types.now ≡ C.types book.now }
    ensures { (journal : List Entry) → C.stands_for book.now journal
        → IsOneThingAnswer types.now (delivered_by journal) a b result }
{
    // That there is a journal shows that the types of the events are in the table.
    let _traces = book.traces();
    let Some(first) = book.event(a) else {
        return Answer::NotYet(a);
    };
    let Some(second) = book.event(b) else {
        return Answer::NotYet(b);
    };
    if a == b {
        Answer::Known(Some(Related::Same))
    } else if pairs(types, first, second) {
        Answer::Known(Some(Related::Partners))
    } else {
        Answer::Known(None)
    }
}

/// Whether the delivered event a reaches the delivered event b.
fn reaches<C: Causal, L: Ledger>(book: &C, a: EventId, b: EventId, steps: &mut Steps<L>) -> bool
    requires a { (journal : List Entry) → C.stands_for book.now journal
        → HasEvent (delivered_by journal) a }
    requires b { (journal : List Entry) → C.stands_for book.now journal
        → HasEvent (delivered_by journal) b }
    ensures reach { (journal : List Entry) → C.stands_for book.now journal → (x y : Event)
        → Contains (delivered_by journal) x → x.id ≡ a
        → Contains (delivered_by journal) y → y.id ≡ b
        → IsTrue result ↔ Reaches (C.types book.now) (delivered_by journal) x y }
    ensures steps { steps.new ≤ steps.old + C.bound book.now }
{
    clock_tells_reach();
    delivered_has_own_id();
    delivered_is_on_a_trace();
    let _traces = book.traces();
    match book.component(b, a.trace, steps) {
        Some(number) => a.number <= number,
        None => unreachable!(),
    }
}
