//! Tests of what no clause says: that each text is what its form says, as worked out by hand, and
//! that sinks which take little or fail get it in the right order.

ghost use Rattle.std.specs.Prelude.{◌≡◌, ◌<◌, ◌↔◌, length, IsSome, IfSome};
ghost use Rattle.std.specs.Bool.{OnTrue};
ghost use Rattle.causal_base.specs.Event.{IsFit, IsInRange, NamesAnother};
ghost use Rattle.answer_text.specs.Texts.{IsPrintable};

use answer_text::{Reply, put_entry, put_reply};
use causal_base::{
    Counts, Entry, Event, EventId, Ids, Kind, MOST_NUMBER, MOST_TEXT, NUMBER_BOUND, Parts, Text,
    Tuples, Types,
};
use poet_io::{Failed, MemSink};
use std::alloc::{AllocError, Global};
use std::test::Fail;

/// How many bytes a sink takes: no text is longer.
const ROOM: usize = 100;

/// What is printed.
#[derive(Debug, Drop)]
enum Printed {
    Reply(Reply),
    Entry(Entry),
}

/// What is printed, and its text.
type Row = (Printed, &'static str);

fn id(trace: u32, number: u32) -> EventId {
    EventId { trace, number }
}

fn told(reply: Reply, text: &'static str) -> Row {
    (Printed::Reply(reply), text)
}

/// Replies that take no memory, and entries that bring no event.
fn short_rows(alloc: Global) -> Result<Vec<Row>, AllocError> {
    let rows = vec![in alloc;
        told(Reply::Yes, "yes"),
        told(Reply::No, "no"),
        told(Reply::NotYet(id(255, 1_000_000)), "notyet 255.1000000"),
        told(Reply::Before, "before"),
        told(Reply::After, "after"),
        told(Reply::Concurrent, "concurrent"),
        told(Reply::Same, "same"),
        told(Reply::Partners, "partners"),
        told(Reply::Id(id(2, 30)), "2.30"),
        told(Reply::Nothing, "none"),
        told(
            Reply::Counted {
                accepted: 17,
                delivered: 12,
                held: 5,
            },
            "accepted 17 delivered 12 held 5",
        ),
        told(Reply::Here, "here"),
        told(Reply::Closed, "closed"),
        (Printed::Entry(Entry::Gone(id(1, 1))), "gone 1.1"),
        (
            Printed::Entry(Entry::Pair(id(0, 2), id(1, 1))),
            "pair 0.2 1.1"
        ),
        (Printed::Entry(Entry::Ended(15)), "ended 15"),
    ]?;
    Ok(rows)
}

/// Adds replies that are lists.
fn add_lists(alloc: Global, rows: &mut Vec<Row>) -> Result<(), AllocError> {
    let parts = Parts::new(vec![in alloc; (0, 2), (1, 0), (12, 30)]?);
    rows.push(told(Reply::Stamped { level: 3, parts }, "level 3 0=2 1=0 12=30"))?;
    let counts = Counts::new(vec![in alloc; 0, 31, 2]?);
    rows.push(told(Reply::Cut(counts), "cut 0 31 2"))?;
    let none = Tuples::new(Vec::new(alloc));
    rows.push(told(
        Reply::Found {
            tuples: none,
            more: false,
        },
        "found 0",
    ))?;
    let first = Ids::new(vec![in alloc; id(0, 1), id(1, 1), id(0, 2)]?);
    let second = Ids::new(vec![in alloc; id(0, 1), id(2, 14), id(0, 2)]?);
    let tuples = Tuples::new(vec![in alloc; first, second]?);
    rows.push(told(
        Reply::Found { tuples, more: true },
        "found 2 more 0.1,1.1,0.2 0.1,2.14,0.2",
    ))?;
    Ok(())
}

/// Adds an event as a reply, and as an entry.
fn add_event(
    alloc: Global,
    rows: &mut Vec<Row>,
    event: Event,
    shown: &'static str,
    came: &'static str,
) -> Result<(), AllocError> {
    rows.push((Printed::Entry(Entry::Came(2, event.copy(alloc)?)), came))?;
    rows.push(told(Reply::Shown(event), shown))?;
    Ok(())
}

/// Adds events of the built-in types: one with all fields as short as they may be, one that names
/// another and has a text with a space, and one with the greatest numbers.
fn add_events(alloc: Global, rows: &mut Vec<Row>) -> Result<(), AllocError> {
    let unary = Event {
        id: id(0, 1),
        type_no: 0,
        mate: None,
        time: 0,
        text: Text::new(alloc, b"")?,
    };
    add_event(alloc, rows, unary, "0.1 u - 0", "came 2 0.1 u - 0")?;
    let receive = Event {
        id: id(1, 12),
        type_no: 2,
        mate: Some(id(2, 3)),
        time: 6,
        text: Text::new(alloc, b"got it")?,
    };
    add_event(
        alloc,
        rows,
        receive,
        "1.12 r 2.3 6 got it",
        "came 2 1.12 r 2.3 6 got it",
    )?;
    let sync = Event {
        id: id(2, 1_000_000),
        type_no: 3,
        mate: Some(id(0, 1_000_000)),
        time: 999_999_999_999_999_999,
        text: Text::new(alloc, b"=")?,
    };
    add_event(
        alloc,
        rows,
        sync,
        "2.1000000 y 0.1000000 999999999999999999 =",
        "came 2 2.1000000 y 0.1000000 999999999999999999 =",
    )
}

/// Writes what is printed, or nothing where it isn't printable, and answers how that went.
fn print(out: &mut MemSink, types: &Types, printed: &Printed) -> Option<Result<(), Failed>>
    requires { length types.now.rows ≡ 4 }
{
    match printed {
        Printed::Reply(reply) => print_reply(out, types, reply),
        Printed::Entry(entry) => print_entry(out, types, entry),
    }
}

fn print_reply(out: &mut MemSink, types: &Types, reply: &Reply) -> Option<Result<(), Failed>>
    requires { length types.now.rows ≡ 4 }
{
    if !is_printable(types, reply) {
        return None;
    }
    Some(put_reply(out, types, reply))
}

fn print_entry(out: &mut MemSink, types: &Types, entry: &Entry) -> Option<Result<(), Failed>>
    requires { length types.now.rows ≡ 4 }
{
    if let Entry::Came(_, event) = entry
        && !is_fit(types, event)
    {
        return None;
    }
    Some(put_entry(out, types, entry.as_ref()))
}

fn is_printable(types: &Types, reply: &Reply) -> bool
    requires { length types.now.rows ≡ 4 }
    ensures { OnTrue result (IsPrintable types.now reply.now) }
{
    match reply {
        Reply::Shown(event) => is_fit(types, event),
        Reply::Later => false,
        _ => true,
    }
}

fn is_fit(types: &Types, event: &Event) -> bool
    requires { length types.now.rows ≡ 4 }
    ensures { OnTrue result (IsFit types.now event.now) }
{
    if event.type_no >= 4 || event.time >= NUMBER_BOUND {
        return false;
    }
    let kind = types.kind(event.type_no);
    if !is_in_range(types, event.id) || !names_rightly(types, kind, event.mate) {
        return false;
    }
    let text = event.text.bytes();
    if text.len() > MOST_TEXT || text.contains(&b'\n') {
        return false;
    }
    true
}

/// Whether an event of this kind names one in range where its kind names one, and else none.
fn names_rightly(types: &Types, kind: Kind, mate: Option<EventId>) -> bool
    ensures range { OnTrue result (IfSome mate (IsInRange types.now)) }
    ensures names { OnTrue result (IsSome mate ↔ NamesAnother kind) }
{
    match mate {
        Some(mate) => kind.names_another() && is_in_range(types, mate),
        None => !kind.names_another(),
    }
}

fn is_in_range(types: &Types, id: EventId) -> bool
    ensures { OnTrue result (IsInRange types.now id) }
{
    id.trace < types.traces() && id.number >= 1 && id.number <= MOST_NUMBER
}

/// What a sink has once this was printed to it, and whether all of it was written.
fn printed_to(
    alloc: Global,
    types: &Types,
    printed: &Printed,
    most: usize,
    fail_at: &[u64],
) -> Result<(MemSink, bool), Fail>
    requires most { 0 < most }
    requires rows { length types.now.rows ≡ 4 }
{
    let mut out = MemSink::new(alloc, Vec::from_slice(alloc, fail_at)?, most, ROOM)?;
    let written = print(&mut out, types, printed).ok_or("it isn't printable")?;
    Ok((out, written.is_ok()))
}

#[test]
fn each_form_has_its_text(rt: HostRuntime) -> Result<(), Fail> {
    let alloc = rt.alloc();
    let types = Types::builtin(alloc, 3)?;
    let mut rows = short_rows(alloc)?;
    add_lists(alloc, &mut rows)?;
    add_events(alloc, &mut rows)?;
    for (printed, text) in &rows {
        let (out, all) = printed_to(alloc, &types, printed, ROOM, &[])?;
        assert!(rt; all && out.bytes() == text.as_bytes(), "{text}");
        // A byte a call, of which each call fails in turn, and at last none.
        let mut call = 1u64;
        for taken in 0..text.len() {
            let (out, all) = printed_to(alloc, &types, printed, 1, &[call])?;
            assert!(rt;
                !all && out.bytes() == &text.as_bytes()[..taken],
                "{text}, call {call}"
            );
            call = call.saturating_add(1);
        }
        let (out, all) = printed_to(alloc, &types, printed, 1, &[call])?;
        assert!(rt;
            all && out.bytes() == text.as_bytes(),
            "{text}, a byte a call"
        );
    }
    Ok(())
}
