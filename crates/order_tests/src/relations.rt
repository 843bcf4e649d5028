//! Tests of what no clause says: rows that were worked out by hand.

ghost use Rattle.std.specs.Prelude.{◌≡◌, ◌<◌, ◌≤◌, length, All};
ghost use Rattle.std.specs.Bool.{OnTrue};
ghost use Rattle.std.specs.List.Sorted.{IsStrictlyIncreasing};
ghost use Rattle.causal_base.specs.declared.limits.TheConstants.{MOST_TRACES};
ghost use Rattle.order_tests.specs.declared.listed.TheConstants.{TRACES};

use crate::listed::{Id, Listed, Row, TRACES, id_of, with_rows};
use causal_base::{Answer, EventId, MOST_NUMBER, MOST_TRACES, Related, Steps};
use precedence::{before, clock, component, relation};
use projected_stamp::{Members, NewStamp, Stamps};
use std::alloc::Global;
use std::marker::Brand;
use std::sync::ledger::{Blank, Ledger};
use std::test::Fail;

/// Partners with an event before them, and an event that is held.
const PARTNERS: [Row; 4] = [
    ((0, 1), 0, None),
    ((0, 2), 3, Some((2, 1))),
    ((2, 1), 3, Some((0, 2))),
    ((1, 2), 0, None),
];

/// A send, and two receives of it.
const TWO_RECEIVES: [Row; 3] = [
    ((0, 1), 1, None),
    ((1, 1), 2, Some((0, 1))),
    ((2, 1), 2, Some((0, 1))),
];

/// Two events, and how the first lies to the second.
type Asked = (Id, Id, Answer<Related>);

/// The event that is held.
const HELD: EventId = EventId {
    trace: 1,
    number: 2,
};

const AMONG_PARTNERS: [Asked; 6] = [
    ((0, 2), (2, 1), Answer::Known(Related::Partners)),
    ((2, 1), (0, 2), Answer::Known(Related::Partners)),
    ((0, 1), (2, 1), Answer::Known(Related::Before)),
    ((0, 1), (1, 2), Answer::NotYet(HELD)),
    ((1, 2), (0, 1), Answer::NotYet(HELD)),
    ((1, 2), (7, 1), Answer::NotYet(HELD)),
];

const AMONG_RECEIVES: [Asked; 4] = [
    ((1, 1), (2, 1), Answer::Known(Related::Concurrent)),
    ((0, 1), (2, 1), Answer::Known(Related::Before)),
    ((1, 1), (0, 1), Answer::Known(Related::After)),
    ((1, 1), (1, 1), Answer::Known(Related::Same)),
];

/// What stands in a clock at a trace that is no member.
const NONE: u32 = 9;

/// Events with clusters of at most two traces: the level, the members, the clock from which the
/// stamp is made, and the whole clock.
const STAMPED: [(Id, u8, &[u32], [u32; 3], [u32; 3]); 5] = [
    ((0, 1), 1, &[0], [1, NONE, NONE], [1, 0, 0]),
    ((1, 1), 1, &[0, 1], [1, 1, NONE], [1, 1, 0]),
    ((1, 2), 1, &[0, 1], [1, 2, NONE], [1, 2, 0]),
    ((2, 1), 2, &[0, 1, 2], [1, 2, 1], [1, 2, 1]),
    ((2, 2), 1, &[2], [NONE, NONE, 2], [1, 2, 2]),
];

/// An event that has no stamp there.
const LATER: EventId = EventId {
    trace: 2,
    number: 3,
};

#[test]
fn rows_are_those_worked_out(rt: HostRuntime) -> Result<(), Fail> {
    let alloc = rt.alloc();
    let listed = with_rows(alloc, &PARTNERS)?;
    assert!(rt; are_related::<Brand>(&listed, &AMONG_PARTNERS, Blank::new(1)));
    let listed = with_rows(alloc, &TWO_RECEIVES)?;
    assert!(rt; are_related::<Brand>(&listed, &AMONG_RECEIVES, Blank::new(1)));

    let mut stamps = Stamps::new(alloc, TRACES)?;
    for (id, level, members, numbers, _) in STAMPED {
        add(alloc, &mut stamps, id_of(id), level, members, &numbers)?;
    }
    assert!(rt; have_clocks::<Brand>(&stamps, Blank::new(1)));
    Ok(())
}

/// Whether events lie to each other as these rows say.
fn are_related<L: Ledger>(listed: &Listed, rows: &[Asked], blank: Blank) -> bool
    requires name { blank.name ≡ L.name }
    requires parts { blank.parts ≡ L.parts }
    requires some { 0 < blank.parts }
{
    let mut steps = Steps::<L>::new(blank);
    for (first, second, expected) in rows {
        let (a, b) = (id_of(*first), id_of(*second));
        let answer = relation(&listed.plain, &listed.types, a, b, &mut steps);
        let is_before = before(&listed.plain, &listed.types, a, b, &mut steps);
        if answer != *expected || is_before != before_by(expected) {
            return false;
        }
    }
    true
}

/// What is answered to 'before', by how the two lie to each other.
fn before_by(expected: &Answer<Related>) -> Answer<bool> {
    match expected {
        Answer::Known(related) => Answer::Known(*related == Related::Before),
        Answer::NotYet(id) => Answer::NotYet(*id),
    }
}

/// Whether each event has its clock, whole and number by number, and one without a stamp has none.
fn have_clocks<L: Ledger>(stamps: &Stamps, blank: Blank) -> bool
    requires traces { length stamps.now.lists ≡ TRACES }
    requires name { blank.name ≡ L.name }
    requires parts { blank.parts ≡ L.parts }
    requires some { 0 < blank.parts }
{
    let mut steps = Steps::<L>::new(blank);
    for (id, _, _, _, expected) in STAMPED {
        let id = id_of(id);
        let mut numbers = [NONE; 3];
        if !clock(stamps, id, &mut numbers, &mut steps) || numbers != expected {
            return false;
        }
        for trace in 0..TRACES {
            if component(stamps, id, trace, &mut steps) != expected.get(trace as usize).copied() {
                return false;
            }
        }
    }
    let mut numbers = [NONE; 3];
    !clock(stamps, LATER, &mut numbers, &mut steps)
        && numbers == [NONE; 3]
        && component(stamps, LATER, 0, &mut steps).is_none()
}

/// Adds the stamp of the next event of a trace, if it is that, and one with rising members.
fn add(
    alloc: Global,
    stamps: &mut Stamps,
    id: EventId,
    level: u8,
    members: &[u32],
    clock: &[u32],
) -> Result<(), Fail>
    requires { length stamps.old.lists ≡ TRACES }
    ensures { length stamps.new.lists ≡ TRACES }
{
    if id.trace >= TRACES
        || id.number > MOST_NUMBER
        || u64::from(stamps.len(id.trace)) + 1 != u64::from(id.number)
        || !are_members(members, clock.len())
    {
        return Err("no stamp that may be added".into());
    }
    let members = Members::new(alloc, members)?;
    let stamp = NewStamp::new(level, &members, clock)?;
    stamps.reserve(id.trace)?;
    stamps.add(id, stamp);
    Ok(())
}

/// Whether these are traces, of so many, that rise.
fn are_members(members: &[u32], traces: usize) -> bool
    ensures rise { OnTrue result (IsStrictlyIncreasing members.now) }
    ensures few { OnTrue result (length members.now ≤ MOST_TRACES) }
    ensures below { OnTrue result (All (λ trace. trace < traces) members.now) }
{
    if members.len() > MOST_TRACES as usize {
        return false;
    }
    let mut least = 0;
    for member in members {
        if u64::from(*member) < least || *member as usize >= traces {
            return false;
        }
        least = u64::from(*member) + 1;
    }
    true
}
