//! Lines of events: the one spelling of an event, and what a reader makes of texts in any pieces.

ghost use Rattle.std.specs.Prelude.{◌<◌};

use causal_base::{Event, EventId, Types};
use raw_reader::{LineCause, LineError, Reader, event_of};
use std::alloc::{AllocError, Global};
use std::process::Abort;
use std::test::Fail;

fn id(trace: u32, number: u32) -> EventId {
    EventId { trace, number }
}

/// The line of a plain event with a text of so many bytes.
fn line_with_text(alloc: Global, length: usize) -> Result<Vec<u8>, AllocError> {
    let mut line = Vec::from_slice(alloc, b"0.1 u - 1 ")?;
    for _ in 0..length {
        line.push(b't')?;
    }
    Ok(line)
}

fn assert_event(
    rt: &impl Abort,
    event: &Event,
    id: EventId,
    type_no: u8,
    mate: Option<EventId>,
    time: u64,
    text: &[u8],
) {
    assert_eq!(rt; event.id, id);
    assert_eq!(rt; event.type_no, type_no);
    assert_eq!(rt; event.mate, mate);
    assert_eq!(rt; event.time, time);
    assert_eq!(rt; event.text.bytes(), text);
}

#[test]
fn takes_one_spelling(rt: HostRuntime) -> Result<(), Fail> {
    let types = Types::builtin(rt.alloc(), 7)?;
    let longest = line_with_text(rt.alloc(), 200)?;
    let lines: [(&[u8], EventId, u8, Option<EventId>, u64, &[u8]); 6] = [
        (b"0.1 u - 1", id(0, 1), 0, None, 1, b""),
        (b"0.1 s - 5", id(0, 1), 1, None, 5, b""),
        (b"1.1 r 0.1 6", id(1, 1), 2, Some(id(0, 1)), 6, b""),
        (b"0.2 y 2.1 2", id(0, 2), 3, Some(id(2, 1)), 2, b""),
        (
            b"0.1 u - 1 a text with  spaces ",
            id(0, 1),
            0,
            None,
            1,
            b"a text with  spaces ",
        ),
        (longest.as_slice(), id(0, 1), 0, None, 1, &[b't'; 200]),
    ];
    for (line, id, type_no, mate, time, text) in lines {
        let event = event_of(rt.alloc(), line, &types)?.ok_or("a line is refused")?;
        assert_event(&rt, &event, id, type_no, mate, time, text);
    }
    Ok(())
}

#[test]
fn refuses_all_else(rt: HostRuntime) -> Result<(), Fail> {
    let types = Types::builtin(rt.alloc(), 7)?;
    let too_long = line_with_text(rt.alloc(), 201)?;
    let lines: [&[u8]; 15] = [
        b"0.1 u - 1 ",
        b"0.01 u - 1",
        b"7.1 u - 1",
        b"0.0 u - 1",
        b"0.1 x - 1",
        b"0.1 u 1.1 1",
        b"0.1 r - 1",
        b"0.1 u - 1x",
        too_long.as_slice(),
        b".",
        b"",
        b"0.1  u - 1",
        b"0.1 u - 01",
        b"0.1 u - 1\n",
        b"0.1 u - 1 two\nlines",
    ];
    for line in lines {
        assert!(rt; event_of(rt.alloc(), line, &types)?.is_none(), "{line:?}");
    }
    Ok(())
}

/// How many batches the texts of the tests have at most.
const MOST_BATCHES: usize = 4;

/// What a reader makes of a text: how many events each batch has, the times of the events, and the
/// refusal.
#[derive(Debug, Drop)]
struct Outcome {
    sizes: Vec<usize>,
    times: Vec<u64>,
    error: Option<LineError>,
}

/// Feeds a text in pieces of so many bytes, after a first piece of `first` bytes.
fn read_pieces(
    alloc: Global,
    types: &Types,
    text: &[u8],
    first: usize,
    size: usize,
) -> Result<Outcome, AllocError>
    requires { 0 < size }
{
    let mut reader = Reader::new(alloc, types);
    let mut sizes = Vec::new(alloc);
    let mut times = Vec::new(alloc);
    let first = first.min(text.len());
    let mut fed = reader.feed(&text[..first]);
    for piece in text[first..].chunks(size) {
        let again = reader.feed(piece);
        if fed.is_ok() {
            fed = again;
        }
    }
    let ended = reader.end();
    for _ in 0..MOST_BATCHES {
        if let Some(batch) = reader.take_batch() {
            sizes.push(batch.as_slice().len())?;
            for event in batch.as_slice() {
                times.push(event.time)?;
            }
        }
    }
    let error = match (fed, ended) {
        (Err(error), Err(other)) if error == other => Some(error),
        (Ok(()), Err(error)) => Some(error),
        _ => None,
    };
    Ok(Outcome {
        sizes,
        times,
        error,
    })
}

/// So many lines of events of one trace, numbered from 1.
fn lines_of_events(alloc: Global, count: u32) -> Result<Vec<u8>, AllocError> {
    let mut text = Vec::new(alloc);
    for number in 0..count {
        let number = number.saturating_add(1);
        text.extend_from_slice(format!(in alloc; "0.{number} u - 1\n")?.as_bytes())?;
    }
    Ok(text)
}

/// Texts with the sizes of their batches, and the line and the cause of their first fault.
const TEXTS: [(&str, &[usize], Option<(u64, LineCause)>); 36] = [
    ("", &[], None),
    (".\n", &[], None),
    (".\n.\n", &[], None),
    ("0.1 u - 1\n", &[1], None),
    ("0.1 u - 1\n.\n", &[1], None),
    (
        ".\n0.1 u - 1\n0.2 u - 1\n.\n.\n0.3 u - 1\n.\n",
        &[2, 1],
        None,
    ),
    ("0.1 u - 1\n.\n0.2 u - 1\n", &[1, 1], None),
    // Each cause alone.
    ("0.1 u - 1", &[], Some((1, LineCause::Unended))),
    (".", &[], Some((1, LineCause::Unended))),
    ("\n", &[], Some((1, LineCause::Shape))),
    ("0.1 u -\n", &[], Some((1, LineCause::Shape))),
    (" u - 1\n", &[], Some((1, LineCause::Shape))),
    ("0.1  u - 1\n", &[], Some((1, LineCause::Shape))),
    ("0.1 u - 1 \n", &[], Some((1, LineCause::Shape))),
    ("x u - 1\n", &[], Some((1, LineCause::BadId))),
    ("7.1 u - 1\n", &[], Some((1, LineCause::NoTrace))),
    ("0.0 u - 1\n", &[], Some((1, LineCause::BadNumber))),
    ("0.1 v - 1\n", &[], Some((1, LineCause::NoType))),
    ("0.1 u 0.2 1\n", &[], Some((1, LineCause::MateGiven))),
    ("0.1 s 1.1 1\n", &[], Some((1, LineCause::MateGiven))),
    ("0.1 r - 1\n", &[], Some((1, LineCause::MateMissing))),
    ("0.1 y - 1\n", &[], Some((1, LineCause::MateMissing))),
    ("0.1 r x 1\n", &[], Some((1, LineCause::BadId))),
    ("0.1 r 7.1 1\n", &[], Some((1, LineCause::NoTrace))),
    ("0.1 r 1.1000001 1\n", &[], Some((1, LineCause::BadNumber))),
    ("0.1 u - 01\n", &[], Some((1, LineCause::BadTime))),
    ("0.1 u - 1\r\n", &[], Some((1, LineCause::BadTime))),
    ("\u{e9} u - 1\n", &[], Some((1, LineCause::BadId))),
    // Two causes in one line: the first in the order counts.
    ("x v - 1\n", &[], Some((1, LineCause::BadId))),
    ("0.1 v x y\n", &[], Some((1, LineCause::NoType))),
    ("0.1 r x y\n", &[], Some((1, LineCause::BadId))),
    ("7.0 u - 1\n", &[], Some((1, LineCause::NoTrace))),
    // Behind good lines: the closed batches stay, and the one that is open is lost.
    (
        "0.1 u - 1\n.\n0.2 u - 1\nx u - 1\n",
        &[1],
        Some((4, LineCause::BadId)),
    ),
    (
        "0.1 u - 1\n.\n0.2 u - 2",
        &[1],
        Some((3, LineCause::Unended)),
    ),
    (
        "0.1 u - 1\nx u - 1\n.\n0.2 u - 1\n.\n",
        &[],
        Some((2, LineCause::BadId)),
    ),
    ("0.1 u - 1 \u{e9}\n", &[1], None),
];

/// A good line, and one that closes its batch.
const FRONT: &[u8] = b"0.1 u - 1\n.\n";

fn is_told(outcome: &Outcome, sizes: &[usize], error: Option<(u64, LineCause)>) -> bool {
    let error = match error {
        Some((line, cause)) => Some(LineError { line, cause }),
        None => None,
    };
    outcome.sizes.as_slice() == sizes && outcome.error == error
}

/// The same for a text behind `FRONT`: a batch of one event before the others, and two lines more.
fn is_told_behind(outcome: &Outcome, sizes: &[usize], error: Option<(u64, LineCause)>) -> bool {
    let Some((first, others)) = outcome.sizes.as_slice().split_first() else {
        return false;
    };
    let error = match error {
        Some((line, cause)) => Some(LineError {
            line: line.saturating_add(2),
            cause,
        }),
        None => None,
    };
    *first == 1 && others == sizes && outcome.error == error
}

#[test]
fn reads_texts_in_any_pieces(rt: HostRuntime) -> Result<(), Fail> {
    let alloc = rt.alloc();
    let types = Types::builtin(alloc, 7)?;
    for (text, sizes, error) in TEXTS {
        let bytes = text.as_bytes();
        let mut behind = Vec::from_slice(alloc, FRONT)?;
        behind.extend_from_slice(bytes)?;
        for first in 0..behind.len() + 1 {
            for size in [1, behind.len().max(1)] {
                assert!(rt; size > 0);
                let outcome = read_pieces(alloc, &types, bytes, first, size)?;
                assert!(rt;
                    is_told(&outcome, sizes, error),
                    "{text} in pieces of {first} and {size}"
                );
                let outcome = read_pieces(alloc, &types, &behind, first, size)?;
                assert!(rt;
                    is_told_behind(&outcome, sizes, error),
                    "{text} behind a line, in pieces of {first} and {size}"
                );
            }
        }
    }
    Ok(())
}

/// Longer texts, each with the sizes of its batches, the times of their events, and its first fault.
const LONG_TEXTS: [(&str, &[usize], &[u64], Option<(u64, LineCause)>); 5] = [
    (
        "0.1 s - 10\n1.1 r 0.1 20\n.\n0.2 y 2.1 31\n2.1 y 0.2 32\n.\n.\n0.3 u - 40 a text\n",
        &[2, 2, 1],
        &[10, 20, 31, 32, 40],
        None,
    ),
    (
        "0.1 u - 1 a text that is longer than sixty bytes, with  two spaces and a . in it\n.\n0.2 u - 2\n",
        &[1, 1],
        &[1, 2],
        None,
    ),
    (
        "0.1 u - 1\n0.2 u - 2\n.\n0.3 u - 3\n0.4 r - 4\n0.5 u - 5\n.\n",
        &[2],
        &[1, 2],
        Some((5, LineCause::MateMissing)),
    ),
    (
        "0.1 u - 1\n.\n\n0.2 u - 2\n.\n",
        &[1],
        &[1],
        Some((3, LineCause::Shape)),
    ),
    (
        "0.1 u - 1\n0.2 u - 2\n.\n0.3 u - 3\n0.4 u - 4 no end",
        &[2],
        &[1, 2],
        Some((5, LineCause::Unended)),
    ),
];

#[test]
fn reads_alike_in_pieces_of_each_length(rt: HostRuntime) -> Result<(), Fail> {
    let alloc = rt.alloc();
    let types = Types::builtin(alloc, 7)?;
    for (text, sizes, times, error) in LONG_TEXTS {
        let whole = read_pieces(alloc, &types, text.as_bytes(), text.len(), 1)?;
        assert!(rt; is_told(&whole, sizes, error), "{text} whole");
        assert_eq!(rt; whole.times.as_slice(), times);
        for size in 1..61 {
            let outcome = read_pieces(alloc, &types, text.as_bytes(), 0, size)?;
            assert!(rt;
                is_told(&outcome, sizes, error),
                "{text} in pieces of {size}"
            );
            assert_eq!(rt; outcome.times.as_slice(), times);
        }
    }
    Ok(())
}

#[test]
fn reads_up_to_its_limits(rt: HostRuntime) -> Result<(), Fail> {
    let alloc = rt.alloc();
    let types = Types::builtin(alloc, 7)?;
    let counts: [(u32, &[usize]); 3] = [
        (1_000, &[1_000]),
        (1_001, &[1_000, 1]),
        (2_000, &[1_000, 1_000]),
    ];
    for (count, sizes) in counts {
        let text = lines_of_events(alloc, count)?;
        for size in [1, 4096] {
            assert!(rt; size > 0);
            let outcome = read_pieces(alloc, &types, &text, 0, size)?;
            assert!(rt; is_told(&outcome, sizes, None), "{count} events");
        }
    }
    // Lines of 400 and 401 bytes, ended and not, and texts of 200 and 201 bytes.
    let lines: [(usize, bool, LineCause); 5] = [
        (201, true, LineCause::LongText),
        (390, true, LineCause::LongText),
        (390, false, LineCause::Unended),
        (391, true, LineCause::LongLine),
        (391, false, LineCause::LongLine),
    ];
    for (length, ends, cause) in lines {
        let mut text = line_with_text(alloc, length)?;
        if ends {
            text.push(b'\n')?;
        }
        let mut behind = Vec::from_slice(alloc, FRONT)?;
        behind.extend_from_slice(&text)?;
        for (first, size) in [(0, 1), (0, 1000), (7, 64), (400, 1000)] {
            assert!(rt; size > 0);
            let outcome = read_pieces(alloc, &types, &text, first, size)?;
            assert!(rt;
                is_told(&outcome, &[], Some((1, cause))),
                "a text of {length} bytes"
            );
            let outcome = read_pieces(alloc, &types, &behind, first, size)?;
            assert!(rt;
                is_told_behind(&outcome, &[], Some((1, cause))),
                "a text of {length} bytes behind a line"
            );
        }
    }
    let mut text = line_with_text(alloc, 200)?;
    text.push(b'\n')?;
    let outcome = read_pieces(alloc, &types, &text, 7, 64)?;
    assert!(rt; is_told(&outcome, &[1], None));
    Ok(())
}

/// How many lines of 211 bytes a text has within its limit, of which 171 are left.
const MOST_LINES: u64 = 5_088_823;

#[test]
fn takes_no_more_than_the_limit(rt: HostRuntime) -> Result<(), Fail> {
    let alloc = rt.alloc();
    let types = Types::builtin(alloc, 7)?;
    let mut line = line_with_text(alloc, 200)?;
    line.push(b'\n')?;
    assert_eq!(rt; line.len(), 211);

    let mut reader = Reader::new(alloc, &types);
    let mut batches = 0u64;
    for _ in 0..MOST_LINES {
        assert!(rt; reader.feed(&line).is_ok());
        if reader.take_batch().is_some() {
            batches = batches.saturating_add(1);
        }
    }
    assert_eq!(rt; batches, 5_088);
    let rest = line_with_text(alloc, 161)?;
    assert_eq!(rt; rest.len(), 171);
    assert!(rt; reader.feed(&rest).is_ok());
    let error = LineError {
        line: MOST_LINES + 1,
        cause: LineCause::TooLarge,
    };
    assert_eq!(rt; reader.feed(b"t"), Err(error));
    assert!(rt; reader.take_batch().is_none());
    Ok(())
}
