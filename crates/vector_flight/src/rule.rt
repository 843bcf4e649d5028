//! The rule of clocks: what the clock of the next events is, by those of the events right before
//! them.

ghost use Rattle.std.specs.Prelude.{◌≡◌, ◌<◌, ◌≤◌, ◌∷◌, List, length, Contains, IfSome};
ghost use Rattle.std.specs.Option.{option_copied};
ghost use Rattle.causal_base.specs.declared.entry.Entry.{Entry};
ghost use Rattle.causal_base.specs.declared.event.Event.{Event};
ghost use Rattle.causal_base.specs.Types.{TypeTable};
ghost use Rattle.causal_base.specs.Event.{IsFit};
ghost use Rattle.causal_base.specs.Clocks.{HasClocks};
ghost use Rattle.causal_base.specs.History.{EventBlock, alone, together, events_of, all_events, IsCausal};
ghost use Rattle.causal_base.specs.Journal.{deliveries_by, delivered_by};
ghost use Rattle.causal_base.specs.Past.{HasEvent};
ghost use Rattle.vector_flight.specs.Flights.{AreNewestClocks, AreSentClocks, block_of};
ghost use Rattle.vector_flight.specs.Held.{AreOf, AreSentOf, HasNoMore};

use crate::clock::Clock;
use crate::sends::Sends;
use causal_base::{Causal, Event, EventId};
use causal_laws::{clock_of_one, clock_of_pair};

/// Writes the clock of the events that are delivered next: one event, or two that pair.
pub fn write_next<C: Causal>(
    newest: &[Clock],
    sends: &mut Sends,
    delivered: &C,
    first: &Event,
    second: Option<&Event>,
    into: &mut Clock,
)
    requires traces { (C.types delivered.now).traces ≡ length newest.now }
    requires first { IsFit (C.types delivered.now) first.now }
    requires second { IfSome second (λ event. IsFit (C.types delivered.now) event.now) }
    requires newest { AreOf (length newest.now) newest.now }
    requires sends { AreSentOf (length newest.now) sends.old }
    requires into { length into.old ≡ length newest.now }
    ensures length { length into.new ≡ length newest.now }
    ensures no_more { HasNoMore sends.old sends.new }
    ensures clock { let block = block_of first.now (option_copied second.entry) in
        (journal : List Entry) → C.stands_for delivered.now journal
        → AreNewestClocks (C.types delivered.now) (delivered_by journal) newest.now
        → AreSentClocks (C.types delivered.now) (delivered_by journal) sends.old
        → IsCausal (C.types delivered.now) (block ∷ deliveries_by journal)
        → (e : Event) → Contains (events_of block) e
        → HasClocks (C.types delivered.now) (all_events (block ∷ deliveries_by journal)) e.id
        into.new }
{
    match second {
        Some(second) => write_pair(newest, first, second, into),
        None => write_one(newest, sends, delivered, first, into),
    }
}

/// Writes the clock of an event that is delivered alone next: that of the event before it on its
/// trace, raised to that of the event that it fits, with its number for its own trace.
fn write_one<C: Causal>(
    newest: &[Clock],
    sends: &mut Sends,
    delivered: &C,
    event: &Event,
    into: &mut Clock,
)
    requires traces { (C.types delivered.now).traces ≡ length newest.now }
    requires fit { IsFit (C.types delivered.now) event.now }
    requires newest { AreOf (length newest.now) newest.now }
    requires sends { AreSentOf (length newest.now) sends.old }
    requires into { length into.old ≡ length newest.now }
    ensures length { length into.new ≡ length newest.now }
    ensures no_more { HasNoMore sends.old sends.new }
    ensures clock { (journal : List Entry) → C.stands_for delivered.now journal
        → AreNewestClocks (C.types delivered.now) (delivered_by journal) newest.now
        → AreSentClocks (C.types delivered.now) (delivered_by journal) sends.old
        → IsCausal (C.types delivered.now) (alone event.now ∷ deliveries_by journal)
        → HasClocks (C.types delivered.now) (all_events (alone event.now ∷ deliveries_by journal))
        event.now.id into.new }
{
    clock_of_one();
    let own = &newest[event.id.trace as usize];
    match event.mate {
        Some(mate) => {
            write_fitted(newest, sends, delivered, mate, into);
            into.raise_to(own);
        }
        None => into.copy_from(own),
    }
    into.set(event.id.trace, event.id.number);
}

/// Writes the clock of two events that are delivered together next: those of the events before them
/// on their traces, the greater number for each trace, with their numbers for their own traces.
fn write_pair(newest: &[Clock], first: &Event, second: &Event, into: &mut Clock)
    requires first { first.now.id.trace < length newest.now }
    requires second { second.now.id.trace < length newest.now }
    requires newest { AreOf (length newest.now) newest.now }
    requires into { length into.old ≡ length newest.now }
    ensures length { length into.new ≡ length newest.now }
    ensures clock { (types : TypeTable) (history : List EventBlock)
        → types.traces ≡ length newest.now
        → AreNewestClocks types (all_events history) newest.now
        → IsCausal types (together first.now second.now ∷ history)
        → (e : Event) → Contains (events_of (together first.now second.now)) e
        → HasClocks types (all_events (together first.now second.now ∷ history)) e.id into.new }
{
    clock_of_pair();
    let of_first = &newest[first.id.trace as usize];
    let of_second = &newest[second.id.trace as usize];
    into.copy_from(of_first);
    into.raise_to(of_second);
    into.set(first.id.trace, first.id.number);
    into.set(second.id.trace, second.id.number);
}

/// Writes the clock of a delivered event. It is at hand where the event is the last of its trace, or
/// a send that is kept. Else it is built again, in one walk.
fn write_fitted<C: Causal>(
    newest: &[Clock],
    sends: &mut Sends,
    delivered: &C,
    id: EventId,
    into: &mut Clock,
)
    requires traces { (C.types delivered.now).traces ≡ length newest.now }
    requires trace { id.trace < length newest.now }
    requires newest { AreOf (length newest.now) newest.now }
    requires sends { AreSentOf (length newest.now) sends.old }
    requires into { length into.old ≡ length newest.now }
    ensures length { length into.new ≡ length newest.now }
    ensures no_more { HasNoMore sends.old sends.new }
    ensures clock { (journal : List Entry) → C.stands_for delivered.now journal
        → AreNewestClocks (C.types delivered.now) (delivered_by journal) newest.now
        → AreSentClocks (C.types delivered.now) (delivered_by journal) sends.old
        → 1 ≤ id.number → HasEvent (delivered_by journal) id
        → HasClocks (C.types delivered.now) (delivered_by journal) id into.new }
{
    let last = &newest[id.trace as usize];
    if last.number(id.trace) == id.number {
        into.copy_from(last);
    } else if !sends.copy_to(id, into) {
        into.rebuild(delivered, id);
    }
}
