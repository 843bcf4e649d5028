//! A run below the top call: what its collectors and its clients report.

ghost use Rattle.std.specs.Prelude.{◌≡◌, [], length, IfOk};

use answer_text::Reply;
use causal_base::EventId;
use client_session::Script;
use cluster_levels::Sizes;
use event_book::Desk;
use poet_io::{Bytes, MemSource};
use poet_serve::{ClientReport, CollectorReport, Line, Run, Stop, serve_in_turn};
use std::alloc::{AllocError, Global};
use std::test::Fail;
use target_desc::Target;

/// Two traces, with the sends `s` and their receives `r`.
const TARGET: &str = "traces = [\"a\", \"b\"]\n\
    [[event]]\nname = \"s\"\nkind = \"send\"\nmate = \"r\"\n\
    [[event]]\nname = \"r\"\nkind = \"receive\"\nmate = \"s\"\n";

fn source_of(alloc: Global, text: &str) -> Result<MemSource, AllocError> {
    let mut bytes = Vec::new(alloc);
    bytes.extend_from_slice(text.as_bytes())?;
    Ok(MemSource::new(Bytes::new(bytes), Vec::new(alloc)))
}

fn script_of(alloc: Global, target: &Target, text: &str, closing: bool) -> Result<Script, Fail> {
    let script = Script::read(alloc, text.as_bytes(), target, closing);
    Ok(script.ok().ok_or("the script is refused")?)
}

/// What the first collector reads: a receive, which comes before its send.
const FIRST: &str = "1.1 r 0.1 6 got it\n";

/// What the second one reads: the send, a repeat, and a batch that a fault cuts short.
const SECOND: &str = "0.1 s - 5\n1.1 r 0.1 6 got it\n.\n0.1 s - 7\n0.2 s\n";

fn target(alloc: Global) -> Result<Target, Fail> {
    let target = Target::read(alloc, TARGET.as_bytes());
    Ok(target.ok().ok_or("the target is refused")?)
}

/// A desk of two collectors.
fn desk(alloc: Global, target: &Target) -> Result<Desk, Fail>
    ensures new { IfOk result (λ desk. desk.journal ≡ []) }
    ensures types { IfOk result (λ desk. desk.setup.types ≡ target.now.types) }
    ensures collectors { IfOk result (λ desk. desk.setup.collectors ≡ 2) }
{
    let sizes = Sizes::new(&[8, 32]);
    let sizes = sizes.ok().ok_or("the sizes are refused")?;
    Ok(Desk::new(alloc, target.types().copy(alloc)?, sizes, 2, 1)?)
}

fn sources(alloc: Global) -> Result<Vec<MemSource>, AllocError>
    ensures { IfOk result (λ sources. length sources.items ≡ 2) }
{
    let mut sources = Vec::new(alloc);
    sources.push(source_of(alloc, FIRST)?)?;
    sources.push(source_of(alloc, SECOND)?)?;
    Ok(sources)
}

fn scripts(alloc: Global, target: &Target) -> Result<Vec<Script>, Fail> {
    let mut scripts = Vec::new(alloc);
    scripts.push(script_of(alloc, target, "before 0.1 1.1\nevent 0.2\n", false)?)?;
    Ok(scripts)
}

/// A run of two collectors and a client, and a closing script.
fn run(alloc: Global, target: &Target) -> Result<Run<MemSource>, Fail> {
    let scripts = scripts(alloc, target)?;
    let closing = script_of(alloc, target, "count\nawait 0.2\n", true)?;
    run_of(alloc, target, &scripts, &closing)
}

/// A run of these scripts over the two collectors.
fn run_of(
    alloc: Global,
    target: &Target,
    scripts: &[Script],
    closing: &Script,
) -> Result<Run<MemSource>, Fail> {
    let desk = desk(alloc, target)?;
    let sources = sources(alloc)?;
    let run = serve_in_turn(alloc, desk, target.types(), sources, scripts, closing);
    Ok(run.ok().ok_or("there is no run")?)
}

/// Whether a collector read its source to the end, and its one event was accepted.
fn is_first(report: &CollectorReport<MemSource>) -> bool {
    report.accepted == 1 && report.repeats == 0 && report.clashes == 0 && report.stop == Stop::End
}

/// Whether a collector stopped at a line with a fault, behind an event that was accepted and a
/// repeat; the clash is in the batch that is open there.
fn is_second(report: &CollectorReport<MemSource>) -> bool {
    report.accepted == 1
        && report.repeats == 1
        && report.clashes == 0
        && matches!(report.stop, Stop::Line(error) if error.line == 5)
}

/// Whether what was told is these two replies, on so many entries.
fn was_told(lines: &[Line], entries: u64, first: &Reply, second: &Reply) -> bool {
    match lines {
        [one, other] => is_line(one, entries, 0, first) && is_line(other, entries, 1, second),
        _ => false,
    }
}

fn is_line(line: &Line, entries: u64, place: u32, reply: &Reply) -> bool {
    line.at == entries && line.place == place && line.reply == *reply
}

/// Whether the two collectors report what they read.
fn are_collected(reports: &[CollectorReport<MemSource>]) -> bool {
    match reports {
        [first, second] => is_first(first) && is_second(second),
        _ => false,
    }
}

/// Whether the client was told of what is delivered, and of an event that isn't.
fn is_answered(reports: &[ClientReport]) -> bool {
    let missing = Reply::NotYet(EventId {
        trace: 0,
        number: 2,
    });
    match reports {
        [client] => !client.memory && was_told(client.lines.as_slice(), 6, &Reply::Yes, &missing),
        _ => false,
    }
}

/// Whether the closing script was told the counts, and that nothing more is waited for.
fn is_closed(report: &ClientReport) -> bool {
    let counted = Reply::Counted {
        accepted: 2,
        delivered: 2,
        held: 0,
    };
    !report.memory && was_told(report.lines.as_slice(), 6, &counted, &Reply::Closed)
}

#[test]
fn serves_in_turn(rt: HostRuntime) -> Result<(), Fail> {
    let target = target(rt.alloc())?;
    let run = run(rt.alloc(), &target)?;
    assert!(rt; are_collected(run.collectors.as_slice()));
    assert!(rt; is_answered(run.clients.as_slice()));
    assert!(rt; is_closed(&run.closing));
    Ok(())
}
