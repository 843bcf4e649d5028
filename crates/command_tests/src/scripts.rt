//! Tests of what no clause shows: that each cause is told where it is the only one or the first of
//! two, and that scripts are read and written where there is memory.

use causal_base::EventId;
use client_session::{Command, Script, ScriptCause, ScriptError, put_command};
use poet_io::{MemSink, put};
use std::alloc::{AllocError, Global};
use std::test::Fail;
use target_desc::Target;

/// A target of three traces.
const TARGET: &str = "traces = [\"a\", \"b\", \"c\"]\n[[event]]\nname = \"u\"\nkind = \"unary\"\n";

/// How many bytes a sink takes: no text is longer.
const ROOM: usize = 1_000;

fn target(alloc: Global) -> Result<Target, Fail> {
    let target = Target::read(alloc, TARGET.as_bytes());
    Ok(target.ok().ok_or("the target is refused")?)
}

/// Whether the script is refused with this error.
fn is_refused(
    alloc: Global,
    target: &Target,
    script: &[u8],
    closing: bool,
    error: ScriptError,
) -> bool {
    match Script::read(alloc, script, target, closing) {
        Ok(_) => false,
        Err(other) => other == error,
    }
}

/// So many lines `count`, then so many bytes `x`, and the end of their line if there is to be one.
fn script_of(alloc: Global, lines: usize, bytes: usize, ends: bool) -> Result<Vec<u8>, AllocError> {
    let mut script = Vec::new(alloc);
    for _ in 0..lines {
        script.extend_from_slice(b"count\n")?;
    }
    for _ in 0..bytes {
        script.push(b'x')?;
    }
    if ends {
        script.push(b'\n')?;
    }
    Ok(script)
}

/// A line with a fault, whether its script is a closing one, and the first of its causes.
type FaultyLine = (&'static str, bool, ScriptCause);

const LINES: [FaultyLine; 57] = [
    ("", false, ScriptCause::NoCommand),
    (" ", false, ScriptCause::NoCommand),
    (" count", false, ScriptCause::NoCommand),
    ("Count", false, ScriptCause::NoCommand),
    ("counts", false, ScriptCause::NoCommand),
    ("cuts none", false, ScriptCause::NoCommand),
    ("count\r", false, ScriptCause::NoCommand),
    ("before\t0.1 1.1", false, ScriptCause::NoCommand),
    ("\u{e9}", false, ScriptCause::NoCommand),
    ("count ", false, ScriptCause::Shape),
    ("count 0.1", false, ScriptCause::Shape),
    ("event", false, ScriptCause::Shape),
    ("event ", false, ScriptCause::Shape),
    ("event  0.1", false, ScriptCause::Shape),
    ("event 0.1 ", false, ScriptCause::Shape),
    ("event 0.1 1.1", false, ScriptCause::Shape),
    ("await", false, ScriptCause::Shape),
    ("before 0.1", false, ScriptCause::Shape),
    ("before 0.1 ", false, ScriptCause::Shape),
    ("before 0.1  1.1", false, ScriptCause::Shape),
    ("before  0.1 1.1", false, ScriptCause::Shape),
    ("before 0.1 1.1 ", false, ScriptCause::Shape),
    ("relation 0.1 1.1 2.1", false, ScriptCause::Shape),
    ("gp 0.1", false, ScriptCause::Shape),
    ("gp  0.1 0", false, ScriptCause::Shape),
    ("cut", false, ScriptCause::Shape),
    ("cut  all", false, ScriptCause::Shape),
    ("cut none 0.1", false, ScriptCause::Shape),
    ("cut to", false, ScriptCause::Shape),
    ("cut up 0.1", false, ScriptCause::Shape),
    ("stamp 0.1", true, ScriptCause::NotInClosing),
    ("event x", false, ScriptCause::BadId),
    ("await 0", false, ScriptCause::BadId),
    ("stamp 0.01", false, ScriptCause::BadId),
    ("before x 0.1", false, ScriptCause::BadId),
    ("relation 0.1 0.1.1", false, ScriptCause::BadId),
    ("gp 0.1 x", false, ScriptCause::BadId),
    ("gp 0.1 01", false, ScriptCause::BadId),
    ("event 3.1", false, ScriptCause::NoTrace),
    ("before 3.1 0.1", false, ScriptCause::NoTrace),
    ("relation 2.1 3.1", false, ScriptCause::NoTrace),
    ("gp 0.1 9", false, ScriptCause::NoTrace),
    ("ls 0.1 3", false, ScriptCause::NoTrace),
    ("event 0.0", false, ScriptCause::BadNumber),
    ("await 2.1000001", false, ScriptCause::BadNumber),
    ("relation 0.1 1.0", false, ScriptCause::BadNumber),
    // Two causes in one line: the first in the order counts, and of two arguments the first.
    ("counts x", false, ScriptCause::NoCommand),
    ("before x", false, ScriptCause::Shape),
    ("stamp", true, ScriptCause::Shape),
    ("stamp x", true, ScriptCause::NotInClosing),
    ("event 3.0", false, ScriptCause::NoTrace),
    ("before 3.1 x", false, ScriptCause::NoTrace),
    ("before x 3.1", false, ScriptCause::BadId),
    ("relation 0.0 3.1", false, ScriptCause::BadNumber),
    ("relation 3.1 0.0", false, ScriptCause::NoTrace),
    ("gp x 9", false, ScriptCause::BadId),
    ("gp 9.1 x", false, ScriptCause::NoTrace),
];

/// Whether the line is refused as the one behind so many good lines, whatever stands behind it.
fn is_refused_behind(
    alloc: Global,
    target: &Target,
    good: usize,
    line: &[u8],
    closing: bool,
    cause: ScriptCause,
) -> Result<bool, AllocError> {
    let mut script = script_of(alloc, good, 0, false)?;
    script.extend_from_slice(line)?;
    script.push(b'\n')?;
    let error = ScriptError {
        line: (good as u64).saturating_add(1),
        cause,
    };
    let alone = is_refused(alloc, target, &script, closing, error);
    script.extend_from_slice(b"count\nx\n")?;
    Ok(alone && is_refused(alloc, target, &script, closing, error))
}

/// The first of the lines that isn't refused as it should be, behind none, one or two good ones.
fn first_untold(
    alloc: Global,
    target: &Target,
    lines: &[FaultyLine],
) -> Result<Option<&'static str>, AllocError> {
    for (text, closing, cause) in lines {
        for good in 0..3 {
            if !is_refused_behind(alloc, target, good, text.as_bytes(), *closing, *cause)? {
                return Ok(Some(text));
            }
        }
    }
    Ok(None)
}

#[test]
fn tells_the_first_fault(rt: HostRuntime) -> Result<(), Fail> {
    let alloc = rt.alloc();
    let target = target(alloc)?;
    let untold = first_untold(alloc, &target, &LINES)?;
    assert!(rt; untold.is_none(), "{untold:?}");
    Ok(())
}

/// How many lines `count` and bytes `x` a script has, whether these end, and its fault.
type FaultyScript = (usize, usize, bool, u64, ScriptCause);

const LIMITS: [FaultyScript; 15] = [
    (0, 1, false, 1, ScriptCause::Unended),
    (1, 1, false, 2, ScriptCause::Unended),
    (0, 400, false, 1, ScriptCause::Unended),
    (0, 401, false, 1, ScriptCause::LongLine),
    (0, 400, true, 1, ScriptCause::NoCommand),
    (0, 401, true, 1, ScriptCause::LongLine),
    (1, 401, true, 2, ScriptCause::LongLine),
    (10_000, 0, true, 10_001, ScriptCause::TooManyLines),
    (10_000, 400, true, 10_001, ScriptCause::TooManyLines),
    (10_000, 401, true, 10_001, ScriptCause::LongLine),
    (10_000, 400, false, 10_001, ScriptCause::Unended),
    (10_001, 0, false, 10_001, ScriptCause::TooManyLines),
    (0, 1_048_576, false, 1, ScriptCause::LongLine),
    (0, 1_048_577, false, 0, ScriptCause::TooLong),
    (1, 1_048_571, false, 0, ScriptCause::TooLong),
];

/// Whether each of the scripts is refused as it should be.
fn are_refused(
    alloc: Global,
    target: &Target,
    scripts: &[FaultyScript],
) -> Result<bool, AllocError> {
    for (lines, bytes, ends, line, cause) in scripts {
        let script = script_of(alloc, *lines, *bytes, *ends)?;
        let error = ScriptError {
            line: *line,
            cause: *cause,
        };
        if !is_refused(alloc, target, &script, false, error) {
            return Ok(false);
        }
    }
    Ok(true)
}

#[test]
fn keeps_to_its_limits(rt: HostRuntime) -> Result<(), Fail> {
    let alloc = rt.alloc();
    let target = target(alloc)?;
    let all = are_refused(alloc, &target, &LIMITS)?;
    assert!(rt; all);
    let most = script_of(alloc, 10_000, 0, false)?;
    let script = Script::read(alloc, &most, &target, true);
    let script = script.ok().ok_or("10,000 lines are refused")?;
    assert!(rt; script.len() == 10_000);
    assert!(rt; script.command(9_999) == Some(&Command::Count));
    assert!(rt; script.command(10_000).is_none());
    Ok(())
}

/// A command, and its line.
type Row = (Command, &'static str);

const FIRST: EventId = EventId {
    trace: 0,
    number: 1,
};

const LAST: EventId = EventId {
    trace: 2,
    number: 1_000_000,
};

const ROWS: [Row; 13] = [
    (Command::Before(FIRST, LAST), "before 0.1 2.1000000\n"),
    (Command::Relation(LAST, FIRST), "relation 2.1000000 0.1\n"),
    (Command::Event(FIRST), "event 0.1\n"),
    (Command::Stamp(LAST), "stamp 2.1000000\n"),
    (Command::GreatestBefore(LAST, 0), "gp 2.1000000 0\n"),
    (Command::LeastAfter(FIRST, 2), "ls 0.1 2\n"),
    (Command::CutNone, "cut none\n"),
    (Command::CutAll, "cut all\n"),
    (Command::CutTo(FIRST), "cut to 0.1\n"),
    (Command::CutBack(FIRST), "cut back 0.1\n"),
    (Command::CutHas(FIRST), "cut has 0.1\n"),
    (Command::Count, "count\n"),
    (Command::Await(FIRST), "await 0.1\n"),
];

/// Whether the command is written as this line, and the line is read as this command.
fn is_written_and_read(
    alloc: Global,
    target: &Target,
    command: &Command,
    line: &[u8],
) -> Result<bool, AllocError> {
    let mut out = MemSink::new(alloc, Vec::new(alloc), ROOM, ROOM)?;
    let written = put_command(&mut out, command).and_then(|_| put(&mut out, b"\n"));
    let read = match Script::read(alloc, out.bytes(), target, false) {
        Ok(script) => script.len() == 1 && script.command(0) == Some(command),
        Err(_) => false,
    };
    Ok(written.is_ok() && out.bytes() == line && read)
}

/// Whether each command is written as its line, and each line, alone and among the others, is read
/// as its command.
fn are_written_and_read(alloc: Global, target: &Target, rows: &[Row]) -> Result<bool, AllocError> {
    let mut lines = Vec::new(alloc);
    for (command, line) in rows {
        if !is_written_and_read(alloc, target, command, line.as_bytes())? {
            return Ok(false);
        }
        lines.extend_from_slice(line.as_bytes())?;
    }
    match Script::read(alloc, &lines, target, false) {
        Ok(script) => Ok(has_commands(&script, rows)),
        Err(_) => Ok(false),
    }
}

/// Whether the script has the commands of these rows, in their order.
fn has_commands(script: &Script, rows: &[Row]) -> bool {
    let mut at = 0u32;
    for (command, _) in rows {
        if script.command(at) != Some(command) {
            return false;
        }
        at = at.saturating_add(1);
    }
    script.len() == at
}

#[test]
fn reads_what_is_written(rt: HostRuntime) -> Result<(), Fail> {
    let alloc = rt.alloc();
    let target = target(alloc)?;
    let all = are_written_and_read(alloc, &target, &ROWS)?;
    assert!(rt; all);
    let none = are_written_and_read(alloc, &target, &[])?;
    assert!(rt; none);
    Ok(())
}
