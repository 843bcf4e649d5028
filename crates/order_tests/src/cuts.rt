//! Tests of what no clause says: runs that were worked out by hand.

ghost use Rattle.std.specs.Prelude.{◌≡◌, ◌<◌, List, length};
ghost use Rattle.causal_base.specs.declared.entry.Entry.{Entry};
ghost use Rattle.causal_base.specs.Journal.{delivered_by};
ghost use Rattle.cut_scroll.specs.Cuts.{IsConsistent};

use crate::listed::{Id, Listed, Row, id_of, with_rows};
use causal_base::{Answer, Causal, Steps};
use cut_scroll::{Cut, ends_are_consistent, greatest_before, is_consistent, least_after};
use std::alloc::{AllocError, Global};
use std::marker::Brand;
use std::sync::ledger::{Blank, Ledger};
use std::test::Fail;

/// Two messages one after the other, and an event after them.
const MESSAGES: [Row; 5] = [
    ((0, 1), 1, None),
    ((1, 1), 2, Some((0, 1))),
    ((1, 2), 1, None),
    ((2, 1), 2, Some((1, 2))),
    ((2, 2), 0, None),
];

/// Partners with an event before them.
const PARTNERS: [Row; 3] = [
    ((0, 1), 0, None),
    ((0, 2), 3, Some((2, 1))),
    ((2, 1), 3, Some((0, 2))),
];

/// An event and a trace, the greatest event of the trace before it, and the least after it.
type Near = (Id, u32, Option<Id>, Option<Id>);

const NEAR_MESSAGES: [Near; 5] = [
    ((2, 2), 0, Some((0, 1)), None),
    ((2, 2), 2, Some((2, 1)), None),
    ((0, 1), 2, None, Some((2, 1))),
    ((2, 1), 2, None, Some((2, 2))),
    ((1, 1), 1, None, Some((1, 2))),
];

const NEAR_PARTNERS: [Near; 3] = [
    ((2, 1), 0, Some((0, 1)), None),
    ((0, 1), 2, None, Some((2, 1))),
    ((0, 1), 1, None, None),
];

/// A move of a cut.
#[derive(Clone, Copy)]
enum Move {
    Clear,
    All,
    To(Id),
    Back(Id),
}

/// A move, the counts that it leaves, and an event, and whether the cut has it then.
type Moved = (Move, [u32; 3], Id, bool);

const AMONG_MESSAGES: [Moved; 5] = [
    (Move::All, [1, 2, 2], (2, 2), true),
    (Move::Back((2, 1)), [1, 2, 0], (1, 2), true),
    (Move::Back((0, 1)), [0, 0, 0], (0, 1), false),
    (Move::To((2, 2)), [1, 2, 2], (2, 3), false),
    (Move::Clear, [0, 0, 0], (1, 1), false),
];

const AMONG_PARTNERS: [Moved; 3] = [
    (Move::To((0, 2)), [2, 0, 1], (2, 1), true),
    (Move::Back((2, 2)), [2, 0, 1], (0, 2), true),
    (Move::Back((2, 1)), [1, 0, 0], (0, 2), false),
];

#[test]
fn runs_are_those_worked_out(rt: HostRuntime) -> Result<(), Fail> {
    let alloc = rt.alloc();
    let listed = with_rows(alloc, &MESSAGES)?;
    assert!(rt; are_near::<Brand>(&listed, &NEAR_MESSAGES, Blank::new(1)));
    assert!(rt; are_moved::<Brand>(alloc, &listed, &AMONG_MESSAGES, Blank::new(1))?);
    let listed = with_rows(alloc, &PARTNERS)?;
    assert!(rt; are_near::<Brand>(&listed, &NEAR_PARTNERS, Blank::new(1)));
    assert!(rt; are_moved::<Brand>(alloc, &listed, &AMONG_PARTNERS, Blank::new(1))?);
    Ok(())
}

/// Whether the neighbours of events are those of these rows.
fn are_near<L: Ledger>(listed: &Listed, rows: &[Near], blank: Blank) -> bool
    requires name { blank.name ≡ L.name }
    requires parts { blank.parts ≡ L.parts }
    requires some { 0 < blank.parts }
{
    let mut steps = Steps::<L>::new(blank);
    let (plain, types) = (&listed.plain, &listed.types);
    for (id, trace, before, after) in rows {
        let e = id_of(*id);
        if *trace >= types.traces()
            || greatest_before(plain, types, e, *trace, &mut steps)
                != Answer::Known(before.map(id_of))
            || least_after(plain, types, e, *trace, &mut steps) != Answer::Known(after.map(id_of))
        {
            return false;
        }
    }
    true
}

/// Whether an empty cut is as these rows say after each of their moves, and consistent there.
fn are_moved<L: Ledger>(
    alloc: Global,
    listed: &Listed,
    rows: &[Moved],
    blank: Blank,
) -> Result<bool, AllocError>
    requires name { blank.name ≡ L.name }
    requires parts { blank.parts ≡ L.parts }
    requires some { 0 < blank.parts }
{
    ends_are_consistent();
    let mut steps = Steps::<L>::new(blank);
    let book = &listed.plain;
    let mut cut = Cut::none(alloc, book.traces())?;
    for (next, expected, id, has) in rows {
        go(&mut cut, book, *next, &mut steps);
        if cut.counts() != expected.as_slice()
            || cut.has(id_of(*id)) != *has
            || !is_consistent(book, cut.counts(), &mut steps)
        {
            return Ok(false);
        }
    }
    Ok(true)
}

/// Moves a consistent cut.
fn go<C: Causal, L: Ledger>(cut: &mut Cut, book: &C, next: Move, steps: &mut Steps<L>)
    requires length { length cut.old ≡ (C.types book.now).traces }
    requires consistent { (journal : List Entry) → C.stands_for book.now journal
        → IsConsistent (C.types book.now) (delivered_by journal) cut.old }
    ensures length { length cut.new ≡ (C.types book.now).traces }
    ensures consistent { (journal : List Entry) → C.stands_for book.now journal
        → IsConsistent (C.types book.now) (delivered_by journal) cut.new }
{
    ends_are_consistent();
    // That there is a journal shows how many counts there are.
    let _traces = book.traces();
    match next {
        Move::Clear => cut.clear(),
        Move::All => cut.all(book),
        Move::To(id) => {
            let _answer = cut.to(book, id_of(id), steps);
        }
        Move::Back(id) => {
            let _answer = cut.back(book, id_of(id), steps);
        }
    }
}
