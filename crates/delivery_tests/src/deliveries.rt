//! Tests of what no clause says: that events are accepted and delivered where memory is left.

ghost use Rattle.std.specs.Prelude.{◌<◌, ◌↔◌, length, IfOk, IfSome, IsSome};
ghost use Rattle.std.specs.Bool.{OnTrue};
ghost use Rattle.causal_base.specs.Event.{IsFit, IsInRange, NamesAnother};
ghost use Rattle.causal_base.specs.Types.{kind_of};

use causal_base::{Block, Event, EventId, MOST_NUMBER, Refusal, Text, Types};
use delivery::Delivery;
use std::alloc::Global;
use std::process::Abort;
use std::test::Fail;

/// The first events of three traces.
const FIRST: EventId = EventId {
    trace: 0,
    number: 1,
};

const SECOND: EventId = EventId {
    trace: 1,
    number: 1,
};

const THIRD: EventId = EventId {
    trace: 2,
    number: 1,
};

/// What is offered, as an id, a type, a mate and a time, and the answer.
type Offer = (
    EventId,
    &'static [u8; 1],
    Option<EventId>,
    u8,
    Result<(), Refusal>,
);

/// A receive of what is no send, one whose send goes, and that send.
const MESSAGES: [Offer; 3] = [
    (THIRD, b"r", Some(SECOND), 0, Ok(())),
    (SECOND, b"r", Some(FIRST), 0, Ok(())),
    (FIRST, b"s", None, 0, Ok(())),
];

/// Those of them that are delivered and that are held: each again, and at another time.
const KNOWN: [Offer; 4] = [
    (FIRST, b"s", None, 0, Err(Refusal::Repeat)),
    (FIRST, b"s", None, 1, Err(Refusal::Clash)),
    (THIRD, b"r", Some(SECOND), 0, Err(Refusal::Repeat)),
    (THIRD, b"r", Some(SECOND), 1, Err(Refusal::Clash)),
];

/// Partners around a trace that goes alone.
const PARTNERS: [Offer; 3] = [
    (SECOND, b"u", None, 0, Ok(())),
    (THIRD, b"y", Some(FIRST), 0, Ok(())),
    (FIRST, b"y", Some(THIRD), 0, Ok(())),
];

#[test]
fn the_lowest_goes_first(rt: HostRuntime) -> Result<(), Fail> {
    let alloc = rt.alloc();
    let mut delivery = Delivery::new(alloc, Types::builtin(alloc, 3)?)?;
    assert_answers(&rt, alloc, &mut delivery, &MESSAGES)?;
    assert_deliveries(
        &rt,
        &mut delivery,
        &[Some(Block::One(FIRST)), Some(Block::One(SECOND)), None],
    );
    assert_answers(&rt, alloc, &mut delivery, &KNOWN)
}

#[test]
fn partners_go_first(rt: HostRuntime) -> Result<(), Fail> {
    let alloc = rt.alloc();
    let mut delivery = Delivery::new(alloc, Types::builtin(alloc, 3)?)?;
    assert_answers(&rt, alloc, &mut delivery, &PARTNERS)?;
    assert_deliveries(
        &rt,
        &mut delivery,
        &[
            Some(Block::Two(FIRST, THIRD)),
            Some(Block::One(SECOND)),
            None,
        ],
    );
    Ok(())
}

/// Offers events, each of which is answered as it says.
fn assert_answers<R: Abort>(
    rt: &R,
    alloc: Global,
    delivery: &mut Delivery,
    offers: &[Offer],
) -> Result<(), Fail> {
    for (own, name, mate, time, answer) in offers {
        let event = fit_event(alloc, delivery.types(), *own, *name, *mate, *time)?;
        assert_eq!(rt; delivery.accept(0, event), *answer);
    }
    Ok(())
}

/// Delivers, and gets these one after another.
fn assert_deliveries<R: Abort>(rt: &R, delivery: &mut Delivery, blocks: &[Option<Block>]) {
    for block in blocks {
        assert_eq!(rt; delivery.deliver(), *block);
    }
}

/// An event without a text.
fn fit_event(
    alloc: Global,
    types: &Types,
    own: EventId,
    name: &[u8],
    mate: Option<EventId>,
    time: u8,
) -> Result<Event, Fail>
    ensures { IfOk result (IsFit types.now) }
{
    let type_no = types.type_of(name).ok_or("there is no such type")?;
    if !is_in_range(types, own) || !is_fit_mate(types, type_no, mate) {
        return Err("an id is out of range".into());
    }
    Ok(Event {
        id: own,
        type_no,
        mate,
        time: u64::from(time),
        text: Text::new(alloc, b"")?,
    })
}

/// Whether a mate is there exactly where the type wants one, and lies in range.
fn is_fit_mate(types: &Types, type_no: u8, mate: Option<EventId>) -> bool
    requires { type_no < length types.now.rows }
    ensures { OnTrue result ((IsSome mate ↔ IfSome (kind_of types.now type_no) NamesAnother)
        × IfSome mate (IsInRange types.now)) }
{
    let is_named = types.kind(type_no).names_another();
    match mate {
        Some(mate) => is_named && is_in_range(types, mate),
        None => !is_named,
    }
}

/// Whether an id is of one of the traces, and its number one that an event may have.
fn is_in_range(types: &Types, id: EventId) -> bool
    ensures { OnTrue result (IsInRange types.now id) }
{
    id.trace < types.traces() && 1 <= id.number && id.number <= MOST_NUMBER
}
