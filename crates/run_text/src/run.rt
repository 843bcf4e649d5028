//! Writes the text of a run, line by line.

ghost use Rattle.std.specs.Prelude.{◌≡◌, ◌++◌, List, codes, length, map};
ghost use Rattle.std.specs.List.{AllByRecursion};
ghost use Rattle.answer_text.specs.Texts.{text_of_entry};
ghost use Rattle.client_session.specs.declared.command.Command.{Command};
ghost use Rattle.poet_io.specs.Writes.{Writes};
ghost use Rattle.poet_serve.specs.Collecting.{told_by};
ghost use Rattle.poet_serve.specs.Transcripts.{Collected, IsTranscript};
ghost use Rattle.text_buffer.specs.Gathering.{Gathers};
ghost use Rattle.run_text.specs.Lines.{ended_lines, lines_of_client, lines_of_clients, lines_of_closing, lines_of_collector, lines_of_collectors, lines_of_journal, text_of_clash, text_of_line};
ghost use Rattle.run_text.specs.Printable.{HasPrintableLines, HavePrintableLines, IsPrintableLine};
ghost use Rattle.run_text.specs.Runs.{lines_of_end, lines_of_setup, run_told, text_of};

use crate::counts::count_held;
use crate::status::status_of_run;
use crate::text_line::TextLine;
use causal_base::{Book, EventId, Types};
use client_session::Script;
use event_book::Desk;
use poet_io::{Failed, Sink};
use poet_serve::{ClientReport, CollectorReport, Line, Run};
use text_buffer::Buffer;

/// Writes the text of a run that left a transcript, with the commands of its scripts. It takes no
/// memory. After an `Err` the sink has taken some prefix of the text.
pub fn put_run<K: Sink, S>(
    out: &mut K,
    run: &Run<S>,
    scripts: &[Script],
    closing: &Script,
) -> Result<(), Failed>
    requires { (collectors : List Collected) × IsTranscript run.now.desk.setup run.now.desk.journal
        collectors scripts.now run.now.clients closing.now run.now.closing }
    ensures { Writes (K.state out.old) (K.state out.new)
        (text_of (run_told run.now scripts.now closing.now)) result }
{
    let mut buffer = Buffer::new();
    put_setup(out, &mut buffer, &run.desk)?;
    put_journal(out, &mut buffer, &run.desk)?;
    put_clients(out, &mut buffer, run, scripts)?;
    put_closing(out, &mut buffer, run, closing)?;
    put_collectors(out, &mut buffer, run)?;
    put_end(out, &mut buffer, run)?;
    buffer.hand_on(out)
}

/// How many traces there are, and the sizes of the levels.
fn put_setup<K: Sink>(out: &mut K, buffer: &mut Buffer, desk: &Desk) -> Result<(), Failed>
    ensures { Gathers (K.state out.old) buffer.old (K.state out.new) buffer.new
        (ended_lines (lines_of_setup desk.now.setup)) result }
{
    let setup = desk.setup();
    buffer.put(out, &TextLine::Traces(setup.types.traces()))?;
    buffer.put(out, &TextLine::Levels(&setup.sizes, setup.after))
}

/// How many entries the journal has, and the entries.
fn put_journal<K: Sink>(out: &mut K, buffer: &mut Buffer, desk: &Desk) -> Result<(), Failed>
    ensures { Gathers (K.state out.old) buffer.old (K.state out.new) buffer.new
        (ended_lines (lines_of_journal desk.now.setup.types desk.now.journal)) result }
{
    buffer.put(out, &TextLine::Journal(count_entries(desk)))?;
    put_entries(out, buffer, desk)
}

/// How many entries the journal has.
fn count_entries(desk: &Desk) -> u64
    ensures { result ≡ length desk.now.journal }
{
    // Reading it shows that the journal is legal.
    let _setup = desk.setup();
    desk.seen()
}

/// The entries of the journal.
fn put_entries<K: Sink>(out: &mut K, buffer: &mut Buffer, desk: &Desk) -> Result<(), Failed>
    ensures { Gathers (K.state out.old) buffer.old (K.state out.new) buffer.new
        (ended_lines (map (text_of_entry desk.now.setup.types) desk.now.journal)) result }
{
    let types = &desk.setup().types;
    // How many there are shows that each place fits.
    let _entries = count_entries(desk);
    let mut at = 0;
    while let Some(entry) = desk.entry(at) {
        buffer.put(out, &TextLine::Entry(types, entry))?;
        at += 1;
    }
    Ok(())
}

/// What each client was told.
fn put_clients<K: Sink, S>(
    out: &mut K,
    buffer: &mut Buffer,
    run: &Run<S>,
    scripts: &[Script],
) -> Result<(), Failed>
    requires { HavePrintableLines run.now.desk.setup.types scripts.now run.now.clients }
    ensures { Gathers (K.state out.old) buffer.old (K.state out.new) buffer.new
        (ended_lines (lines_of_clients run.now.desk.setup.types scripts.now run.now.clients))
        result }
{
    let types = &run.desk.setup().types;
    let clients = run.clients.as_slice();
    for client in 0..clients.len() {
        put_client(
            out,
            buffer,
            types,
            client as u64,
            &scripts[client],
            &clients[client],
        )?;
    }
    Ok(())
}

/// What a client was told.
fn put_client<K: Sink>(
    out: &mut K,
    buffer: &mut Buffer,
    types: &Types,
    client: u64,
    script: &Script,
    report: &ClientReport,
) -> Result<(), Failed>
    requires { HasPrintableLines types.now script.now report.now }
    ensures { Gathers (K.state out.old) buffer.old (K.state out.new) buffer.new
        (ended_lines (lines_of_client types.now client script.now report.now)) result }
{
    let lines = report.lines.as_slice();
    buffer.put(out, &TextLine::Client(client, lines.len() as u64))?;
    put_lines(out, buffer, types, script, lines)
}

/// What the closing script was told.
fn put_closing<K: Sink, S>(
    out: &mut K,
    buffer: &mut Buffer,
    run: &Run<S>,
    script: &Script,
) -> Result<(), Failed>
    requires { HasPrintableLines run.now.desk.setup.types script.now run.now.closing }
    ensures { Gathers (K.state out.old) buffer.old (K.state out.new) buffer.new
        (ended_lines (lines_of_closing run.now.desk.setup.types script.now run.now.closing))
        result }
{
    let types = &run.desk.setup().types;
    let lines = run.closing.lines.as_slice();
    buffer.put(out, &TextLine::Closing(lines.len() as u64))?;
    put_lines(out, buffer, types, script, lines)
}

/// The lines that a script was told.
fn put_lines<K: Sink>(
    out: &mut K,
    buffer: &mut Buffer,
    types: &Types,
    script: &Script,
    lines: &[Line],
) -> Result<(), Failed>
    requires { AllByRecursion (IsPrintableLine types.now script.now) lines.now }
    ensures { Gathers (K.state out.old) buffer.old (K.state out.new) buffer.new
        (ended_lines (map (text_of_line types.now script.now) lines.now)) result }
{
    for line in lines {
        put_line(out, buffer, types, script, line)?;
    }
    Ok(())
}

/// A line that a script was told.
fn put_line<K: Sink>(
    out: &mut K,
    buffer: &mut Buffer,
    types: &Types,
    script: &Script,
    line: &Line,
) -> Result<(), Failed>
    requires { IsPrintableLine types.now script.now line.now }
    ensures { Gathers (K.state out.old) buffer.old (K.state out.new) buffer.new
        (text_of_line types.now script.now line.now ++ codes "\n") result }
{
    let Some(command) = script.command(line.place) else {
        unreachable!();
    };
    let asked = TextLine::Asked {
        types,
        at: line.at,
        command,
        reply: &line.reply,
    };
    buffer.put(out, &asked)
}

/// What is told of each collector.
fn put_collectors<K: Sink, S>(out: &mut K, buffer: &mut Buffer, run: &Run<S>) -> Result<(), Failed>
    ensures { Gathers (K.state out.old) buffer.old (K.state out.new) buffer.new
        (ended_lines (lines_of_collectors (map told_by run.now.collectors))) result }
{
    let reports = run.collectors.as_slice();
    for collector in 0..reports.len() {
        put_collector(out, buffer, collector as u64, &reports[collector])?;
    }
    Ok(())
}

/// What is told of a collector.
fn put_collector<K: Sink, S>(
    out: &mut K,
    buffer: &mut Buffer,
    collector: u64,
    report: &CollectorReport<S>,
) -> Result<(), Failed>
    ensures { Gathers (K.state out.old) buffer.old (K.state out.new) buffer.new
        (ended_lines (lines_of_collector collector (told_by report.now))) result }
{
    let head = TextLine::Collector {
        collector,
        accepted: report.accepted,
        repeats: report.repeats,
        clashes: report.clashes,
        stop: report.stop,
    };
    buffer.put(out, &head)?;
    put_clashes(out, buffer, report.first.as_slice())
}

/// The ids of events that clashed.
fn put_clashes<K: Sink>(out: &mut K, buffer: &mut Buffer, ids: &[EventId]) -> Result<(), Failed>
    ensures { Gathers (K.state out.old) buffer.old (K.state out.new) buffer.new
        (ended_lines (map text_of_clash ids.now)) result }
{
    for id in ids {
        buffer.put(out, &TextLine::Clash(*id))?;
    }
    Ok(())
}

/// How many events are held, and the status.
fn put_end<K: Sink, S>(out: &mut K, buffer: &mut Buffer, run: &Run<S>) -> Result<(), Failed>
    ensures { (scripts : List (List Command)) (last : List Command)
        → Gathers (K.state out.old) buffer.old (K.state out.new) buffer.new
        (ended_lines (lines_of_end (run_told run.now scripts last))) result }
{
    buffer.put(out, &TextLine::Held(count_held(&run.desk)))?;
    buffer.put(out, &TextLine::Status(status_of_run(run)))
}
