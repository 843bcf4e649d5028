//! Tests of what no clause says: that calls succeed where memory is left. Each clock is compared
//! with that of the plain list.

ghost use Rattle.std.specs.Prelude.{◌≡◌, ◌<◌, ◌↔◌, length, IsTrue, IfOk, IfSome};
ghost use Rattle.causal_base.specs.Event.{IsFit, IsInRange, NamesAnother};
ghost use Rattle.delivery_tests.specs.declared.clocks.TheConstants.{TRACES};

use causal_base::{Causal, Event, EventId, Kind, MOST_NUMBER, Plain, Steps, Text, TypeRow, Types};
use std::alloc::{AllocError, Global};
use std::marker::Brand;
use std::sync::ledger::{Blank, Ledger};
use std::test::Fail;
use vector_flight::{Flight, MOST_SENDS};

/// The number of traces.
const TRACES: u32 = 4;

/// So many sends come first, more than are kept.
const SENDS: u32 = 5_000;

/// The trace and number of an event, the letter of its type, and what it names.
type Row = (u32, u32, u8, Option<(u32, u32)>);

/// What is delivered after the sends of trace 0: one event, or two together.
const DELIVERIES: [(Row, Option<Row>); 10] = [
    // The first send was dropped, the last is the newest of its trace, and another is kept.
    ((1, 1, b'r', Some((0, 1))), None),
    ((1, 2, b'r', Some((0, 5_000))), None),
    ((2, 1, b'r', Some((0, 4_000))), None),
    // Watches of events whose clocks aren't kept.
    ((2, 2, b'w', Some((0, 3))), None),
    ((2, 3, b'w', Some((1, 1))), None),
    ((3, 1, b'u', None), None),
    ((1, 3, b'y', Some((3, 2))), Some((3, 2, b'y', Some((1, 3))))),
    ((2, 4, b'w', Some((3, 2))), None),
    ((3, 3, b'r', Some((0, 2))), None),
    // A receive of its own trace.
    ((0, 5_001, b'r', Some((0, 7))), None),
];

#[test]
fn clocks_are_those_of_the_plain_list(rt: HostRuntime) -> Result<(), Fail> {
    let alloc = rt.alloc();
    assert!(rt; SENDS as usize > MOST_SENDS);
    let types = types_of_all_kinds(alloc)?;
    let mut plain = Plain::new(alloc, types.copy(alloc)?);
    let mut flight = Flight::new(alloc, TRACES)?;
    deliver_sends(alloc, &mut flight, &mut plain, &types)?;
    deliver_rest(alloc, &mut flight, &mut plain, &types)
}

/// Delivers the sends of trace 0.
fn deliver_sends(
    alloc: Global,
    flight: &mut Flight,
    plain: &mut Plain,
    types: &Types,
) -> Result<(), Fail>
    requires types { types.now ≡ plain.old.types }
    requires traces { length flight.old.newest ≡ types.now.traces }
    ensures types { plain.new.types ≡ plain.old.types }
    ensures traces { length flight.new.newest ≡ length flight.old.newest }
{
    for before in 0..SENDS {
        let send = (0, before + 1, b's', None);
        let clock = deliver(alloc, flight, plain, types, send, None)?;
        if clock.as_slice() != [before + 1, 0, 0, 0].as_slice() {
            return Err("a send has another clock".into());
        }
    }
    Ok(())
}

/// Delivers the rest, and compares each clock with that of the plain list.
fn deliver_rest(
    alloc: Global,
    flight: &mut Flight,
    plain: &mut Plain,
    types: &Types,
) -> Result<(), Fail>
    requires types { types.now ≡ plain.old.types }
    requires traces { length flight.old.newest ≡ types.now.traces }
{
    for (first, second) in DELIVERIES {
        let clock = deliver(alloc, flight, plain, types, first, second)?;
        if !has_clock(alloc, plain, first, &clock)? {
            return Err("an event has another clock".into());
        }
        if let Some(second) = second
            && !has_clock(alloc, plain, second, &clock)?
        {
            return Err("a partner has another clock".into());
        }
    }
    Ok(())
}

/// Delivers an event, or two together, and answers their clock as it was told ahead.
fn deliver(
    alloc: Global,
    flight: &mut Flight,
    plain: &mut Plain,
    types: &Types,
    first: Row,
    second: Option<Row>,
) -> Result<Vec<u32>, Fail>
    requires types { types.now ≡ plain.old.types }
    requires traces { length flight.old.newest ≡ types.now.traces }
    ensures types { plain.new.types ≡ plain.old.types }
    ensures traces { length flight.new.newest ≡ length flight.old.newest }
{
    let event = event_of(alloc, types, first)?;
    match second {
        Some(second) => {
            let partner = event_of(alloc, types, second)?;
            let clock = keep(alloc, flight, plain, types, &event, Some(&partner))?;
            plain.offer(event)?;
            plain.offer(partner)?;
            Ok(clock)
        }
        None => {
            let clock = keep(alloc, flight, plain, types, &event, None)?;
            plain.offer(event)?;
            Ok(clock)
        }
    }
}

/// Keeps the clock of the events that are delivered next, and answers it.
fn keep(
    alloc: Global,
    flight: &mut Flight,
    plain: &Plain,
    types: &Types,
    first: &Event,
    second: Option<&Event>,
) -> Result<Vec<u32>, AllocError>
    requires types { types.now ≡ plain.now.types }
    requires traces { length flight.old.newest ≡ types.now.traces }
    requires first { IsFit types.now first.now }
    requires second { IfSome second (λ event. IsFit types.now event.now) }
    ensures { length flight.new.newest ≡ length flight.old.newest }
{
    let ahead = flight.ahead(alloc, plain, types, first, second)?;
    let clock = ahead.vector().to_vec(alloc)?;
    flight.keep(ahead);
    Ok(clock)
}

/// The event of a row, which is to be fit.
fn event_of(alloc: Global, types: &Types, row: Row) -> Result<Event, Fail>
    ensures { IfOk result (λ event. IsFit types.now event) }
{
    let (trace, number, letter, mate) = row;
    let type_no = types.type_of(&[letter]).ok_or("there is no such type")?;
    let id = EventId { trace, number };
    let mate = id_of(mate);
    if !is_in_range(types, id) || !mate_is_in_range(types, mate) {
        return Err("an id is out of range".into());
    }
    if mate.is_some() != names_another(types.kind(type_no)) {
        return Err("it may not name what it names".into());
    }
    Ok(Event {
        id,
        type_no,
        mate,
        time: 0,
        text: Text::new(alloc, b"")?,
    })
}

fn id_of(named: Option<(u32, u32)>) -> Option<EventId> {
    let (trace, number) = named?;
    Some(EventId { trace, number })
}

fn is_in_range(types: &Types, id: EventId) -> bool
    ensures { IsTrue result ↔ IsInRange types.now id }
{
    id.trace < types.traces() && id.number >= 1 && id.number <= MOST_NUMBER
}

fn mate_is_in_range(types: &Types, mate: Option<EventId>) -> bool
    ensures { IsTrue result ↔ IfSome mate (IsInRange types.now) }
{
    match mate {
        Some(id) => is_in_range(types, id),
        None => true,
    }
}

fn names_another(kind: Kind) -> bool
    ensures { IsTrue result ↔ NamesAnother kind }
{
    match kind {
        Kind::Unary | Kind::Send => false,
        Kind::Receive | Kind::Sync | Kind::Watch => true,
    }
}

/// Whether the plain list has this clock for the event of a row, which is delivered.
fn has_clock(alloc: Global, plain: &Plain, row: Row, clock: &[u32]) -> Result<bool, AllocError> {
    let (trace, number, _, _) = row;
    let id = EventId { trace, number };
    let mut numbers = vec![in alloc; 0; plain.traces() as usize]?;
    let is_delivered = write_clock::<Brand>(plain, id, &mut numbers, Blank::new(1));
    Ok(is_delivered && numbers.as_slice() == clock)
}

fn write_clock<L: Ledger>(plain: &Plain, id: EventId, into: &mut [u32], blank: Blank) -> bool
    requires name { blank.name ≡ L.name }
    requires parts { blank.parts ≡ L.parts }
    requires some { 0 < blank.parts }
    requires length { length into.old ≡ plain.now.types.traces }
{
    let mut steps = Steps::<L>::new(blank);
    plain.clock(id, into, &mut steps)
}

/// Types of all five kinds, named by a letter as the built-in ones; those of `w` watch.
fn types_of_all_kinds(alloc: Global) -> Result<Types, AllocError>
    ensures { IfOk result (λ types. types.traces ≡ TRACES) }
{
    let rows = vec![in alloc;
        row(alloc, b"u", Kind::Unary, None)?,
        row(alloc, b"s", Kind::Send, Some(2))?,
        row(alloc, b"r", Kind::Receive, Some(1))?,
        row(alloc, b"y", Kind::Sync, Some(3))?,
        row(alloc, b"w", Kind::Watch, None)?,
    ]?;
    Ok(Types::new(TRACES, rows))
}

fn row(alloc: Global, name: &[u8], kind: Kind, mate: Option<u8>) -> Result<TypeRow, AllocError>
    ensures { IfOk result (λ row. row ≡ record { name = name.now; kind = kind; mate = mate }) }
{
    Ok(TypeRow {
        name: Text::new(alloc, name)?,
        kind,
        mate,
    })
}
