//! Histories that lines of events tell: what is delivered of them, what is before what, and clocks,
//! all worked out by hand.

ghost use Rattle.std.specs.Prelude.{◌≡◌, ◌<◌, IfOk};
ghost use Rattle.causal_base.specs.Event.{IsFit};

use causal_base::{
    Answer, Causal, Event, EventId, Kind, Plain, Refusal, Steps, Text, TypeRow, Types, id_of,
};
use raw_reader::event_of;
use std::alloc::{AllocError, Global};
use std::marker::Brand;
use std::sync::ledger::{Blank, Ledger};
use std::test::Fail;

/// How many traces the table of lists has.
const TRACES: u32 = 5;

/// Types of all five kinds, named by a letter as the built-in ones; those of `w` watch.
fn types_of_all_kinds(alloc: Global) -> Result<Types, AllocError> {
    let rows = vec![in alloc;
        row(alloc, b"u", Kind::Unary, None)?,
        row(alloc, b"s", Kind::Send, Some(2))?,
        row(alloc, b"r", Kind::Receive, Some(1))?,
        row(alloc, b"y", Kind::Sync, Some(3))?,
        row(alloc, b"w", Kind::Watch, None)?,
    ]?;
    Ok(Types::new(TRACES, rows))
}

fn row(alloc: Global, name: &[u8], kind: Kind, mate: Option<u8>) -> Result<TypeRow, AllocError>
    ensures { IfOk result (λ row. row ≡ record { name = name.now; kind = kind; mate = mate }) }
{
    Ok(TypeRow {
        name: Text::new(alloc, name)?,
        kind,
        mate,
    })
}

/// A plain list to which the events of these lines were offered.
fn plain_of(alloc: Global, text: &str) -> Result<Option<Plain>, AllocError> {
    let types = types_of_all_kinds(alloc)?;
    let mut plain = Plain::new(alloc, types.copy(alloc)?);
    if offer_lines(alloc, &types, &mut plain, text)? {
        Ok(Some(plain))
    } else {
        Ok(None)
    }
}

/// Offers the events of these lines, and says whether each line was one and none was refused.
fn offer_lines(
    alloc: Global,
    types: &Types,
    plain: &mut Plain,
    text: &str,
) -> Result<bool, AllocError>
    requires { plain.old.types ≡ types.now }
    ensures { plain.new.types ≡ plain.old.types }
{
    for line in text.lines() {
        let Some(event) = event_of(alloc, line.as_bytes(), types)? else {
            return Ok(false);
        };
        if !is_taken(plain, event) {
            return Ok(false);
        }
    }
    Ok(true)
}

/// Offers an event, and says whether it is in the list then, or another with its id.
fn is_taken(plain: &mut Plain, event: Event) -> bool
    requires { IsFit plain.old.types event }
    ensures { plain.new.types ≡ plain.old.types }
{
    matches!(
        plain.offer(event),
        Ok(()) | Err(Refusal::Repeat) | Err(Refusal::Clash)
    )
}

/// Whether the delivered events with numbers 1 to 4 are just these.
fn delivers_just(plain: &Plain, ids: &str) -> bool {
    let mut told = 0u32;
    for id in ids.split_whitespace() {
        match id_of(id.as_bytes(), TRACES) {
            Ok(id) => {
                if plain.event(id).is_none() {
                    return false;
                }
            }
            Err(_) => return false,
        }
        told = told.saturating_add(1);
    }
    let mut found = 0u32;
    for trace in 0..TRACES {
        for number in 1..5 {
            if plain.event(EventId { trace, number }).is_some() {
                found = found.saturating_add(1);
            }
        }
    }
    found == told
}

/// Whether the plain list answers as the line `A B ANSWER` says.
fn answers_so(plain: &Plain, line: &str) -> bool {
    let Some((a, rest)) = line.split_once(' ') else {
        return false;
    };
    let Some((b, told)) = rest.split_once(' ') else {
        return false;
    };
    match (id_of(a.as_bytes(), TRACES), id_of(b.as_bytes(), TRACES)) {
        (Ok(a), Ok(b)) => is_told(plain.before(a, b), told),
        _ => false,
    }
}

/// Whether the words are those of the answer.
fn is_told(answer: Answer<bool>, told: &str) -> bool {
    match answer {
        Answer::Known(true) => told == "yes",
        Answer::Known(false) => told == "no",
        Answer::NotYet(id) => match told.strip_prefix("notyet ") {
            Some(text) => id_of(text.as_bytes(), TRACES) == Ok(id),
            None => false,
        },
    }
}

/// Lines of events, the ids that are delivered, and lines of questions with their answers.
const CASES: [(&str, &str, &str); 39] = [
    // No event at all, one event, and two that know nothing of each other.
    ("", "", "0.1 1.1 notyet 0.1"),
    (
        "0.1 u - 0\n",
        "0.1",
        "0.1 0.1 no\n0.1 1.1 notyet 1.1\n1.1 0.1 notyet 1.1",
    ),
    (
        "0.1 u - 0\n1.1 u - 0\n",
        "0.1 1.1",
        "0.1 1.1 no\n1.1 0.1 no",
    ),
    // Events before their causes.
    (
        "1.1 r 0.1 0\n0.1 s - 0\n",
        "0.1 1.1",
        "0.1 1.1 yes\n1.1 0.1 no",
    ),
    (
        "2.1 r 1.2 0\n1.2 s - 0\n1.1 r 0.1 0\n0.1 s - 0\n",
        "0.1 1.1 1.2 2.1",
        "0.1 2.1 yes\n1.1 2.1 yes\n2.1 0.1 no",
    ),
    (
        "0.3 u - 0\n0.1 u - 0\n0.2 u - 0\n",
        "0.1 0.2 0.3",
        "0.1 0.3 yes\n0.3 0.1 no",
    ),
    // A send that never comes, and names of what can't be received.
    (
        "1.1 r 0.1 0\n0.2 u - 0\n",
        "",
        "1.1 0.2 notyet 1.1\n0.2 1.1 notyet 0.2",
    ),
    (
        "0.1 s - 0\n1.1 r 0.1 0\n2.1 r 1.1 0\n",
        "0.1 1.1",
        "0.1 2.1 notyet 2.1",
    ),
    (
        "0.1 u - 0\n1.1 r 0.1 0\n1.2 u - 0\n",
        "0.1",
        "0.1 1.1 notyet 1.1",
    ),
    // A trace with a gap.
    ("0.1 u - 0\n0.3 u - 0\n", "0.1", "0.1 0.3 notyet 0.3"),
    // Repeats, and of two events with one id the first counts.
    (
        "0.1 u - 1\n0.1 u - 1\n0.2 u - 2\n",
        "0.1 0.2",
        "0.1 0.2 yes",
    ),
    (
        "0.1 s - 1\n0.1 u - 1\n1.1 r 0.1 2\n",
        "0.1 1.1",
        "0.1 1.1 yes",
    ),
    (
        "0.1 u - 1\n0.1 s - 1\n1.1 r 0.1 2\n",
        "0.1",
        "0.1 1.1 notyet 1.1",
    ),
    (
        "1.1 r 0.1 2\n1.1 r 0.1 3\n0.1 s - 1\n",
        "0.1 1.1",
        "0.1 1.1 yes",
    ),
    // Watches of the own trace and of others.
    (
        "0.2 w 0.1 0\n0.1 u - 0\n",
        "0.1 0.2",
        "0.1 0.2 yes\n0.2 0.1 no",
    ),
    (
        "1.1 w 0.1 0\n0.1 u - 0\n1.2 u - 0\n",
        "0.1 1.1 1.2",
        "0.1 1.2 yes\n1.1 0.1 no\n1.1 1.2 yes",
    ),
    (
        "0.1 s - 0\n1.1 r 0.1 0\n2.1 w 1.1 0\n",
        "0.1 1.1 2.1",
        "0.1 2.1 yes\n2.1 1.1 no",
    ),
    ("0.1 w 0.1 0\n", "", "0.1 0.1 notyet 0.1"),
    ("0.1 w 0.2 0\n0.2 u - 0\n", "", "0.1 0.2 notyet 0.1"),
    ("0.1 w 1.1 0\n1.1 w 0.1 0\n", "", "0.1 1.1 notyet 0.1"),
    // Several receives of one send, and a message of a trace to itself.
    (
        "0.1 s - 0\n1.1 r 0.1 0\n2.1 r 0.1 0\n",
        "0.1 1.1 2.1",
        "0.1 2.1 yes\n1.1 2.1 no\n2.1 1.1 no",
    ),
    ("0.2 r 0.1 0\n0.1 s - 0\n", "0.1 0.2", "0.1 0.2 yes"),
    // Messages that cross, and traces that wait for each other for good.
    (
        "0.1 s - 0\n0.2 r 1.1 0\n1.1 s - 0\n1.2 r 0.1 0\n",
        "0.1 0.2 1.1 1.2",
        "0.1 1.2 yes\n1.1 0.2 yes\n0.1 1.1 no\n0.2 1.2 no",
    ),
    (
        "0.1 r 1.2 0\n0.2 s - 0\n1.1 r 0.2 0\n1.2 s - 0\n",
        "",
        "0.1 1.1 notyet 0.1",
    ),
    // Along a trace, over a message and along the other trace.
    (
        "0.1 u - 0\n0.2 s - 0\n1.1 u - 0\n1.2 r 0.2 0\n1.3 u - 0\n",
        "0.1 0.2 1.1 1.2 1.3",
        "0.1 1.3 yes\n1.1 0.2 no\n0.2 1.1 no\n1.1 1.3 yes",
    ),
    // Partners, whose halves come together or far apart.
    (
        "0.1 y 1.1 0\n1.1 y 0.1 0\n",
        "0.1 1.1",
        "0.1 1.1 no\n1.1 0.1 no",
    ),
    (
        "0.1 y 1.1 0\n2.1 u - 0\n1.2 u - 0\n0.2 s - 0\n2.2 r 0.2 0\n1.1 y 0.1 0\n",
        "0.1 0.2 1.1 1.2 2.1 2.2",
        "0.1 1.2 yes\n1.1 0.2 yes\n1.1 2.2 yes\n2.1 0.1 no\n0.2 1.2 no",
    ),
    // A half that names a third, a ring of three, and a half that names no sync event.
    (
        "0.1 y 2.1 0\n2.1 y 1.1 0\n",
        "",
        "0.1 2.1 notyet 0.1\n2.1 0.1 notyet 2.1",
    ),
    (
        "0.1 y 1.1 0\n1.1 y 2.1 0\n2.1 y 0.1 0\n",
        "",
        "0.1 1.1 notyet 0.1",
    ),
    (
        "0.1 y 1.1 0\n1.1 u - 0\n0.2 u - 0\n",
        "1.1",
        "0.1 1.1 notyet 0.1\n1.1 0.2 notyet 0.2",
    ),
    // Two of one trace are no partners.
    (
        "0.1 y 0.2 0\n0.2 y 0.1 0\n",
        "",
        "0.1 0.2 notyet 0.1\n0.2 0.1 notyet 0.2",
    ),
    // A chain of pairs over four traces, its last pair first.
    (
        "2.2 y 3.1 0\n3.1 y 2.2 0\n1.2 y 2.1 0\n2.1 y 1.2 0\n0.1 y 1.1 0\n1.1 y 0.1 0\n",
        "0.1 1.1 1.2 2.1 2.2 3.1",
        "0.1 3.1 yes\n1.1 3.1 yes\n1.2 2.2 yes\n2.1 3.1 yes\n3.1 0.1 no\n2.1 1.2 no\n2.2 1.1 no",
    ),
    // A pair behind a receive that is never delivered, and one behind an event that comes last.
    (
        "0.1 r 1.4 0\n0.2 y 1.1 0\n1.1 y 0.2 0\n1.2 u - 0\n",
        "",
        "1.1 1.2 notyet 1.1\n0.2 1.1 notyet 0.2",
    ),
    (
        "0.1 y 1.2 0\n1.2 y 0.1 0\n1.1 u - 0\n",
        "0.1 1.1 1.2",
        "1.1 0.1 yes\n0.1 1.1 no\n0.1 1.2 no",
    ),
    // Pairs that wait for each other for good, and traces that pair twice.
    (
        "0.1 y 1.2 0\n0.2 y 1.1 0\n1.1 y 0.2 0\n1.2 y 0.1 0\n",
        "",
        "0.1 1.2 notyet 0.1\n1.1 0.1 notyet 1.1",
    ),
    (
        "0.2 y 1.2 0\n1.2 y 0.2 0\n1.1 y 0.1 0\n0.1 y 1.1 0\n",
        "0.1 0.2 1.1 1.2",
        "0.1 1.2 yes\n1.1 0.2 yes\n0.2 1.2 no\n1.2 0.2 no\n0.2 1.1 no",
    ),
    // What is before one partner is before the other, and so with what is after.
    (
        "0.1 s - 0\n1.1 r 0.1 0\n1.2 y 2.1 0\n2.1 y 1.2 0\n2.2 s - 0\n3.1 r 2.2 0\n",
        "0.1 1.1 1.2 2.1 2.2 3.1",
        "0.1 2.1 yes\n1.1 2.1 yes\n0.1 3.1 yes\n1.2 3.1 yes\n1.2 2.2 yes\n3.1 0.1 no\n2.1 1.2 no",
    ),
    // A watch of a partner, and a receive that names one.
    (
        "0.1 y 1.1 0\n1.1 y 0.1 0\n2.1 w 1.1 0\n3.1 r 0.1 0\n",
        "0.1 1.1 2.1",
        "0.1 2.1 yes\n2.1 0.1 no\n0.1 3.1 notyet 3.1",
    ),
    // Of two halves with one id the first counts.
    (
        "0.1 y 1.1 1\n0.1 y 2.1 1\n2.1 y 0.1 1\n1.1 y 0.1 1\n",
        "0.1 1.1",
        "0.1 1.1 no\n0.1 2.1 notyet 2.1",
    ),
];

#[test]
fn delivers_by_cause(rt: HostRuntime) -> Result<(), Fail> {
    let alloc = rt.alloc();
    for (text, delivered, questions) in CASES {
        let plain = plain_of(alloc, text)?.ok_or("the lines are refused")?;
        assert!(rt; delivers_just(&plain, delivered), "{text}");
        for line in questions.lines() {
            assert!(rt; answers_so(&plain, line), "{line} over {text}");
        }
    }
    Ok(())
}

/// A line of an event, and the clock of that event.
type Clocked = (&'static str, [u32; 5]);

/// Three traces, each of which hears of the one before it.
const CHAIN: [Clocked; 5] = [
    ("0.1 s - 0", [1, 0, 0, 0, 0]),
    ("1.1 r 0.1 0", [1, 1, 0, 0, 0]),
    ("1.2 s - 0", [1, 2, 0, 0, 0]),
    ("2.1 r 1.2 0", [1, 2, 1, 0, 0]),
    ("2.2 u - 0", [1, 2, 2, 0, 0]),
];

/// Five traces, of which each hears of others.
const FIVE: [Clocked; 15] = [
    ("0.1 s - 0", [1, 0, 0, 0, 0]),
    ("1.1 r 0.1 0", [1, 1, 0, 0, 0]),
    ("2.1 s - 0", [0, 0, 1, 0, 0]),
    ("3.1 r 2.1 0", [0, 0, 1, 1, 0]),
    ("1.2 s - 0", [1, 2, 0, 0, 0]),
    ("2.2 r 1.2 0", [1, 2, 2, 0, 0]),
    ("2.3 u - 0", [1, 2, 3, 0, 0]),
    ("2.4 s - 0", [1, 2, 4, 0, 0]),
    ("4.1 r 2.4 0", [1, 2, 4, 0, 1]),
    ("4.2 u - 0", [1, 2, 4, 0, 2]),
    ("4.3 s - 0", [1, 2, 4, 0, 3]),
    ("0.2 r 4.3 0", [2, 2, 4, 0, 3]),
    ("0.3 s - 0", [3, 2, 4, 0, 3]),
    ("2.5 r 0.3 0", [3, 2, 5, 0, 3]),
    ("2.6 u - 0", [3, 2, 6, 0, 3]),
];

/// Partners, and an event behind one of them.
const HALVES: [Clocked; 4] = [
    ("0.1 u - 0", [1, 0, 0, 0, 0]),
    ("0.2 y 1.1 0", [2, 1, 0, 0, 0]),
    ("1.1 y 0.2 0", [2, 1, 0, 0, 0]),
    ("1.2 u - 0", [2, 2, 0, 0, 0]),
];

#[test]
fn clocks_are_those_worked_out(rt: HostRuntime) -> Result<(), Fail> {
    let alloc = rt.alloc();
    for rows in [&CHAIN[..], &FIVE[..], &HALVES[..]] {
        let plain = plain_with(alloc, rows)?.ok_or("a line was refused")?;
        assert!(rt; have_clocks::<Plain, Brand>(&plain, rows, Blank::new(1)));
    }
    Ok(())
}

/// The plain list of the events of these rows, if each line is an event and none is refused.
fn plain_with(alloc: Global, rows: &[Clocked]) -> Result<Option<Plain>, AllocError> {
    let types = types_of_all_kinds(alloc)?;
    let mut plain = Plain::new(alloc, types.copy(alloc)?);
    if offer_rows(alloc, &types, &mut plain, rows)? {
        Ok(Some(plain))
    } else {
        Ok(None)
    }
}

/// Offers the events of these rows, and says whether each line was one and none was refused.
fn offer_rows(
    alloc: Global,
    types: &Types,
    plain: &mut Plain,
    rows: &[Clocked],
) -> Result<bool, AllocError>
    requires { plain.old.types ≡ types.now }
{
    for (line, _) in rows {
        if !offer_lines(alloc, types, plain, line)? {
            return Ok(false);
        }
    }
    Ok(true)
}

/// Whether the events of these rows have their clocks, whole and number by number, and one that
/// isn't delivered has none. It is generic, so it asks by the trait alone.
fn have_clocks<C: Causal, L: Ledger>(causal: &C, rows: &[Clocked], blank: Blank) -> bool
    requires name { blank.name ≡ L.name }
    requires parts { blank.parts ≡ L.parts }
    requires some { 0 < blank.parts }
{
    let mut steps = Steps::<L>::new(blank);
    for (line, expected) in rows {
        let Some(id) = first_id(line) else {
            return false;
        };
        if !has_clock(causal, id, expected, &mut steps) {
            return false;
        }
    }
    causal.traces() > 0
        && causal.event(ABSENT).is_none()
        && causal.component(ABSENT, 0, &mut steps).is_none()
}

/// Whether the event with this id is delivered and has this clock.
fn has_clock<C: Causal, L: Ledger>(
    causal: &C,
    id: EventId,
    expected: &[u32],
    steps: &mut Steps<L>,
) -> bool {
    let mut clock = [9; 5];
    if causal.traces() != 5
        || !causal.clock(id, &mut clock, steps)
        || clock.as_slice() != expected
    {
        return false;
    }
    for trace in 0..causal.traces() {
        if causal.component(id, trace, steps) != expected.get(trace as usize).copied() {
            return false;
        }
    }
    true
}

/// An id that no worked history has.
const ABSENT: EventId = EventId {
    trace: 0,
    number: 1_000,
};

/// The id with which a line begins.
fn first_id(line: &str) -> Option<EventId> {
    id_of(line.split_whitespace().next()?.as_bytes(), TRACES).ok()
}
