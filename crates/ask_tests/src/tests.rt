//! `ask`: the text and the status of one question over one file.

ghost use Rattle.std.specs.Prelude.{◌<◌};

use poet_io::{MemFolder, MemSink};
use poet_top::poet_still;
use std::alloc::{AllocError, Global};
use std::test::Fail;

/// How many bytes a sink takes: no test writes so much.
const ROOM: usize = 1000;

fn words_from(alloc: Global, words: &[&str]) -> Result<Vec<String>, AllocError> {
    let mut owned = Vec::new(alloc);
    for word in words {
        owned.push(String::from_str(alloc, word)?)?;
    }
    Ok(owned)
}

/// The status and the text for these words, over a folder with the file `e.txt`, whose reads with
/// the numbers of `fail_reads` fail. The sink takes `most` bytes a call, and its calls with the
/// numbers of `fail_writes` fail.
fn run(
    alloc: Global,
    words: &[&str],
    text: &[u8],
    fail_reads: &[u64],
    most: usize,
    fail_writes: &[u64],
) -> Result<(u8, MemSink), AllocError>
    requires { 0 < most }
{
    let words = words_from(alloc, words)?;
    let mut files = MemFolder::new(alloc);
    files.add("e.txt", text, fail_reads)?;
    files.fail_open("closed.txt")?;
    let mut out = MemSink::new(alloc, Vec::from_slice(alloc, fail_writes)?, most, ROOM)?;
    let status = poet_still(alloc, &words, &mut files, &mut out);
    Ok((status, out))
}

/// One message.
const MESSAGE: &str = "0.1 s - 5\n1.1 r 0.1 6\n";

/// Partners, and an event before one of them.
const PARTNERS: &str = "0.1 u - 1\n0.2 y 2.1 2\n2.1 y 0.2 3\n";

/// A text that ends within its second line.
const DAMAGED: &str = "0.1 s - 5\n1.1 r 0.1 6";

/// Words, the text of the file `e.txt`, and the status and the text that come.
const ASKED: [(&[&str], &str, u8, &str); 27] = [
    (&["ask", "e.txt", "0.1", "1.1"], MESSAGE, 0, "yes\n"),
    (&["ask", "e.txt", "0.1", "2.1"], MESSAGE, 0, "notyet 2.1\n"),
    (&["ask", "e.txt", "0.1", "0.1"], MESSAGE, 0, "no\n"),
    (&["ask", "e.txt", "1.1", "0.1"], MESSAGE, 0, "no\n"),
    (
        &["ask", "e.txt", "255.1000000", "2.1"],
        MESSAGE,
        0,
        "notyet 255.1000000\n",
    ),
    (&["ask", "e.txt", "0.1", "1.1"], "", 0, "notyet 0.1\n"),
    // Partners, and halves that don't name each other.
    (
        &["ask", "e.txt", "0.1", "1.1"],
        "0.1 y 1.1 0\n1.1 y 0.1 0\n",
        0,
        "no\n",
    ),
    (&["ask", "e.txt", "0.1", "2.1"], PARTNERS, 0, "yes\n"),
    (&["ask", "e.txt", "0.2", "2.1"], PARTNERS, 0, "no\n"),
    (&["ask", "e.txt", "2.1", "0.2"], PARTNERS, 0, "no\n"),
    (
        &["ask", "e.txt", "0.1", "1.1"],
        "0.1 y 2.1 1\n2.1 y 1.1 2\n",
        0,
        "notyet 0.1\n",
    ),
    // Words that are no plan.
    (&["ask", "e.txt", "0.1", "x"], MESSAGE, 1, "poet: words\n"),
    (
        &["ask", "e.txt", "0.1", "256.1"],
        MESSAGE,
        1,
        "poet: words\n",
    ),
    (
        &["ask", "e.txt", "0.1000001", "1.1"],
        MESSAGE,
        1,
        "poet: words\n",
    ),
    (&["ask", "e.txt", "0.0", "1.1"], MESSAGE, 1, "poet: words\n"),
    (&["ask", "e.txt", "0.1"], MESSAGE, 1, "poet: words\n"),
    (
        &["ask", "e.txt", "0.1", "1.1", "1.1"],
        MESSAGE,
        1,
        "poet: words\n",
    ),
    (
        &["tell", "e.txt", "0.1", "1.1"],
        MESSAGE,
        1,
        "poet: words\n",
    ),
    (&[], MESSAGE, 1, "poet: words\n"),
    // A file that is absent, one that doesn't open, and files that aren't lines of events.
    (
        &["ask", "absent.txt", "0.1", "1.1"],
        MESSAGE,
        2,
        "poet: open absent.txt\n",
    ),
    (
        &["ask", "closed.txt", "0.1", "1.1"],
        MESSAGE,
        2,
        "poet: open closed.txt\n",
    ),
    (
        &["ask", "e.txt", "0.1", "1.1"],
        DAMAGED,
        6,
        "poet: line 2 Unended\n",
    ),
    (
        &["ask", "e.txt", "0.1", "1.1"],
        "\n",
        6,
        "poet: line 1 Shape\n",
    ),
    (
        &["ask", "e.txt", "0.1", "1.1"],
        "0.1 u - 1\n.\n0.2 u - 2",
        6,
        "poet: line 3 Unended\n",
    ),
    // Full stops close batches, and say nothing of the answer.
    (&["ask", "e.txt", "0.1", "1.1"], ".\n", 0, "notyet 0.1\n"),
    (
        &["ask", "e.txt", "0.1", "1.1"],
        ".\n1.1 r 0.1 6\n.\n.\n0.1 s - 5\n",
        0,
        "yes\n",
    ),
    // Of events with one id the first counts, whether the others are repeats or clashes.
    (
        &["ask", "e.txt", "0.1", "0.2"],
        "0.1 u - 1\n0.1 u - 1\n0.1 u - 2\n.\n0.2 u - 3\n0.2 s - 3\n",
        0,
        "yes\n",
    ),
];

#[test]
fn asks_over_a_file(rt: HostRuntime) -> Result<(), Fail> {
    for (words, text, status, written) in ASKED {
        for most in [1, ROOM] {
            assert!(rt; most > 0);
            let (answered, out) = run(rt.alloc(), words, text.as_bytes(), &[], most, &[])?;
            assert_eq!(rt; answered, status, "{words:?}");
            assert_eq!(rt; out.bytes(), written.as_bytes(), "{words:?}");
        }
    }
    Ok(())
}

#[test]
fn reads_fail(rt: HostRuntime) -> Result<(), Fail> {
    let alloc = rt.alloc();
    let words = ["ask", "e.txt", "0.1", "0.1"];
    let long = text_of_repeats(alloc, 600)?;
    let mut bad = Vec::from_slice(alloc, b"x\n")?;
    bad.extend_from_slice(&long)?;
    // The first fault counts in the order of reading.
    let cases: [(&[u8], u64, u8, &str); 9] = [
        (b"0.1 u - 0\n", 1, 2, "poet: read e.txt\n"),
        (b"0.1 u - 0\n", 2, 2, "poet: read e.txt\n"),
        (b"0.1 u - 0\n", 3, 0, "no\n"),
        (&long, 1, 2, "poet: read e.txt\n"),
        (&long, 2, 2, "poet: read e.txt\n"),
        (&long, 3, 2, "poet: read e.txt\n"),
        (&long, 4, 0, "no\n"),
        (&bad, 1, 2, "poet: read e.txt\n"),
        (&bad, 2, 6, "poet: line 1 Shape\n"),
    ];
    for (text, read, told, written) in cases {
        let (status, out) = run(alloc, &words, text, &[read], ROOM, &[])?;
        assert_eq!(rt; status, told, "at read {read}");
        assert_eq!(rt; out.bytes(), written.as_bytes(), "at read {read}");
    }
    Ok(())
}

#[test]
fn writes_fail(rt: HostRuntime) -> Result<(), Fail> {
    for (words, text, status, written) in ASKED {
        let all = written.as_bytes();
        let mut call = 1u64;
        for taken in 0..all.len() {
            let (answered, out) = run(rt.alloc(), words, text.as_bytes(), &[], 1, &[call])?;
            assert_eq!(rt; answered, 3, "at write {call}");
            assert_eq!(rt; out.bytes(), &all[..taken], "at write {call}");
            call = call.saturating_add(1);
        }
        let (answered, _) = run(rt.alloc(), words, text.as_bytes(), &[], 1, &[call])?;
        assert_eq!(rt; answered, status, "past the last write");
    }
    Ok(())
}

/// With each request for memory refused in turn, the text of the answer comes or `poet: memory`.
/// Where the test itself gets no memory, it has nothing to say.
#[test]
fn memory_runs_out(rt: HostRuntime) -> Result<(), Fail> {
    let words = ["ask", "e.txt", "0.1", "1.1"];
    if let Ok((status, out)) = run(rt.alloc(), &words, MESSAGE.as_bytes(), &[], ROOM, &[]) {
        let written: &[u8] = match status {
            0 => b"yes\n",
            _ => b"poet: memory\n",
        };
        assert!(rt; status == 0 || status == 7);
        assert_eq!(rt; out.bytes(), written);
    }
    Ok(())
}

/// Lines of unary events of one trace, each of ten bytes, with these many of them.
fn text_of_repeats(alloc: Global, lines: usize) -> Result<Vec<u8>, AllocError> {
    let mut text = Vec::new(alloc);
    for _ in 0..lines {
        text.extend_from_slice(b"0.1 u - 0\n")?;
    }
    Ok(text)
}

/// Lines of so many unary events of one trace, numbered from 1.
fn text_of_events(alloc: Global, count: u32) -> Result<Vec<u8>, AllocError> {
    let mut text = Vec::new(alloc);
    for number in 0..count {
        let number = number.saturating_add(1);
        text.extend_from_slice(format!(in alloc; "0.{number} u - 0\n")?.as_bytes())?;
    }
    Ok(text)
}

#[test]
fn takes_no_more_than_its_limit(rt: HostRuntime) -> Result<(), Fail> {
    let alloc = rt.alloc();
    let words = ["ask", "e.txt", "0.1", "0.10000"];
    // The thousandth event of a batch closes it, and a fault loses the events of the open one.
    let cases: [(u32, &str, u8, &str); 6] = [
        (10_000, "", 0, "yes\n"),
        (10_000, "0.1 u - 0\n0.1 s - 0\n", 0, "yes\n"),
        (10_000, "1.1 u - 0\n", 8, "poet: full\n"),
        (10_000, "1.1 u - 0\nx\n", 6, "poet: line 10002 Shape\n"),
        (10_000, "1.1 u - 0\n.\nx\n", 8, "poet: full\n"),
        (
            9_999,
            "x\n1.1 u - 0\n1.2 u - 0\n",
            6,
            "poet: line 10000 Shape\n",
        ),
    ];
    for (count, last, told, written) in cases {
        let mut text = text_of_events(alloc, count)?;
        text.extend_from_slice(last.as_bytes())?;
        let (status, out) = run(alloc, &words, &text, &[], ROOM, &[])?;
        assert_eq!(rt; status, told, "{count} events and {last}");
        assert_eq!(rt;
            out.bytes(),
            written.as_bytes(),
            "{count} events and {last}"
        );
    }
    Ok(())
}
