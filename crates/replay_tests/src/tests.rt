//! What no clause says: that a run comes about where there is memory.

ghost use Rattle.std.specs.Prelude.{◌<◌};

use crate::rows::damaged::damaged;
use crate::rows::deliveries::deliveries;
use crate::rows::files::files;
use crate::rows::lines::lines;
use crate::rows::loads::loads;
use crate::rows::neighbours::neighbours;
use crate::rows::words::words;
use crate::rows::{Row, TYPES};
use poet_io::{MemFolder, MemSink};
use poet_top::poet_still;
use std::alloc::{AllocError, Global};
use std::test::Fail;

/// How many bytes a sink takes: no test writes so much.
const ROOM: usize = 4_096;

/// The most bytes of a script.
const MOST_SCRIPT: usize = 1_048_576;

/// The target with so many traces, named p0, p1 and so on.
fn target(alloc: Global, traces: u32) -> Result<String, AllocError> {
    let mut text = String::from_str(alloc, "traces = [\"p0\"")?;
    for trace in 1..traces {
        text.push_str(&format!(in alloc; ", \"p{trace}\"")?)?;
    }
    text.push_str("]\n")?;
    text.push_str(TYPES)?;
    Ok(text)
}

/// The files of a row.
fn folder_of(alloc: Global, row: &Row) -> Result<MemFolder, AllocError> {
    let mut files = MemFolder::new(alloc);
    files.add("three.toml", target(alloc, 3)?.as_bytes(), &[])?;
    files.add("five.toml", target(alloc, 5)?.as_bytes(), &[])?;
    for file in row.files {
        files.add(file.name, file.text.as_bytes(), file.fail_reads)?;
    }
    files.fail_open("closed")?;
    Ok(files)
}

/// The status and the text for these words. The sink takes `most` bytes a call, and its calls with
/// the numbers of `fail_writes` fail.
fn run(
    alloc: Global,
    words: &[&str],
    files: &mut MemFolder,
    most: usize,
    fail_writes: &[u64],
) -> Result<(u8, MemSink), AllocError>
    requires { 0 < most }
{
    let mut owned = Vec::new(alloc);
    for word in words {
        owned.push(String::from_str(alloc, word)?)?;
    }
    let mut out = MemSink::new(alloc, Vec::from_slice(alloc, fail_writes)?, most, ROOM)?;
    let status = poet_still(alloc, &owned, files, &mut out);
    Ok((status, out))
}

/// Whether each of these runs comes out so: in one write, since a second one fails, and byte by
/// byte.
fn come_out(alloc: Global, rows: &[Row]) -> Result<bool, AllocError> {
    for row in rows {
        if !comes_out(alloc, row, ROOM, &[2])? || !comes_out(alloc, row, 1, &[])? {
            return Ok(false);
        }
    }
    Ok(true)
}

/// Whether a run comes out so, over a sink that takes so many bytes a call.
fn comes_out(alloc: Global, row: &Row, most: usize, fail_writes: &[u64]) -> Result<bool, AllocError>
    requires { 0 < most }
{
    let mut files = folder_of(alloc, row)?;
    let (status, out) = run(alloc, row.words, &mut files, most, fail_writes)?;
    Ok(status == row.status && out.bytes() == row.text.as_bytes())
}

#[test]
fn runs_are_those_worked_out(rt: HostRuntime) -> Result<(), Fail> {
    let alloc = rt.alloc();
    assert!(rt; come_out(alloc, deliveries())?);
    assert!(rt; come_out(alloc, damaged())?);
    assert!(rt; come_out(alloc, lines())?);
    assert!(rt; come_out(alloc, neighbours())?);
    assert!(rt; come_out(alloc, loads())?);
    assert!(rt; come_out(alloc, words())?);
    assert!(rt; come_out(alloc, files())?);
    Ok(())
}

/// Whether exactly the bytes before each write that fails are out.
fn is_cut_short(alloc: Global, row: &Row) -> Result<bool, AllocError> {
    let all = row.text.as_bytes();
    for taken in 0..all.len() {
        let mut files = folder_of(alloc, row)?;
        let call = (taken as u64).saturating_add(1);
        let (status, out) = run(alloc, row.words, &mut files, 1, &[call])?;
        if status != 3 || out.bytes() != &all[..taken] {
            return Ok(false);
        }
    }
    Ok(true)
}

#[test]
fn writes_fail(rt: HostRuntime) -> Result<(), Fail> {
    let alloc = rt.alloc();
    for row in damaged() {
        assert!(rt; is_cut_short(alloc, row)?);
    }
    // No words at all.
    let mut files = MemFolder::new(alloc);
    let (status, out) = run(alloc, &[], &mut files, ROOM, &[1])?;
    assert_eq!(rt; status, 3);
    assert!(rt; out.bytes().is_empty());
    Ok(())
}

#[test]
fn scripts_are_too_long(rt: HostRuntime) -> Result<(), Fail> {
    let alloc = rt.alloc();
    let words = ["replay", "three.toml", "e:a", "z:long"];
    let mut files = MemFolder::new(alloc);
    files.add("three.toml", target(alloc, 3)?.as_bytes(), &[])?;
    files.add("a", b"", &[])?;
    let long = vec![in alloc; b'x'; MOST_SCRIPT + 1]?;
    files.add("long", long.as_slice(), &[])?;
    let (status, out) = run(alloc, &words, &mut files, ROOM, &[])?;
    assert_eq!(rt; out.bytes(), b"poet: closing 0 TooLong\n".as_slice());
    assert_eq!(rt; status, 5);
    Ok(())
}
