//! How many events are before another: its clock counts them, and itself, and its partner.

ghost use Rattle.std.specs.Prelude.{◌≡◌, ◌<◌, ◌≤◌, Contains, length, sum};
ghost use Rattle.causal_base.specs.declared.event.Event.{Event};
ghost use Rattle.causal_base.specs.declared.kind.Kind.TheVariants.{Sync};
ghost use Rattle.causal_base.specs.declared.limits.TheConstants.{MOST_TRACES};
ghost use Rattle.causal_base.specs.Clocks.{HasClocks, HasCount};
ghost use Rattle.causal_base.specs.Journal.{delivered_by};
ghost use Rattle.causal_base.specs.Past.{HasEvent};
ghost use Rattle.causal_base.specs.Walks.{IsBefore};
ghost use Rattle.load_run.specs.declared.limits.TheConstants.{TRACES};

use crate::limits::TRACES;
use causal_base::{Causal, EventId, Kind, Steps};
use event_book::Desk;
use load_laws::past_is_counted_by_clock;
use std::marker::Brand;
use std::sync::ledger::{Blank, Ledger};

/// How many events are before a delivered one.
pub(crate) fn events_before(desk: &Desk, id: EventId) -> u64
    requires traces { desk.now.setup.types.traces ≡ TRACES }
    requires delivered { HasEvent (delivered_by desk.now.journal) id }
    ensures { (e : Event) → Contains (delivered_by desk.now.journal) e → e.id ≡ id
        → HasCount (λ x. IsBefore desk.now.setup.types (delivered_by desk.now.journal) x e)
        (delivered_by desk.now.journal) result }
{
    past_is_counted_by_clock();
    // Reading it shows that the journal is legal.
    let setup = desk.setup();
    let mut clock = [0; TRACES as usize];
    read_clock::<Brand>(desk, id, &mut clock, Blank::new(1));
    let Some(event) = desk.event(id) else {
        unreachable!()
    };
    sum_of(&clock) - size_of_block(setup.types.kind(event.type_no))
}

/// Writes the whole clock of a delivered event.
fn read_clock<L: Ledger>(desk: &Desk, id: EventId, into: &mut [u32], blank: Blank)
    requires name { blank.name ≡ L.name }
    requires parts { blank.parts ≡ L.parts }
    requires some { 0 < blank.parts }
    requires traces { length into.old ≡ desk.now.setup.types.traces }
    requires delivered { HasEvent (delivered_by desk.now.journal) id }
    ensures { HasClocks desk.now.setup.types (delivered_by desk.now.journal) id into.new }
{
    // Reading it shows that the journal is legal.
    let _setup = desk.setup();
    let mut steps = Steps::<L>::new(blank);
    if !desk.clock(id, into, &mut steps) {
        unreachable!()
    }
}

/// The sum of a clock's numbers.
fn sum_of(clock: &[u32]) -> u64
    requires { length clock.now ≤ MOST_TRACES }
    ensures { result ≡ sum clock.now }
{
    let mut sum = 0;
    for number in clock {
        sum += u64::from(*number);
    }
    sum
}

/// How many events are delivered together with one of this kind, and itself.
fn size_of_block(kind: Kind) -> u64
    ensures pair { kind ≡ Sync → result ≡ 2 }
    ensures alone { (kind ≡ Sync → ⊥) → result ≡ 1 }
{
    match kind {
        Kind::Sync => 2,
        _ => 1,
    }
}
