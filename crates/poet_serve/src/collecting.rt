//! One collector on one thread: its source is read to its end, or until something stops it, and
//! what it brings is fed to a desk.

ghost use Rattle.std.specs.Prelude.{◌≡◌, ◌⊎◌, ◌+◌, ◌<◌, ◌≤◌, ◌^◌, ◌++◌, ◌∷◌, ℕ, List, [], reverse, length, None, IfErr, OnOk};
ghost use Rattle.std.specs.List.{AllByRecursion};
ghost use Rattle.causal_base.specs.declared.entry.Entry.{Entry};
ghost use Rattle.causal_base.specs.declared.event.Event.{Event};
ghost use Rattle.causal_base.specs.Event.{IsFit};
ghost use Rattle.causal_base.specs.declared.entry.Entry.TheVariants.{Ended};
ghost use Rattle.causal_base.specs.declared.limits.TheConstants.{MOST_EVENTS};
ghost use Rattle.causal_base.specs.Journal.{IsSettled, came_by};
ghost use Rattle.causal_base.specs.Past.{HasEnded};
ghost use Rattle.event_book.specs.Feeding.{no_report};
ghost use Rattle.raw_reader.specs.ReaderState.{HasRead, HasReadToEnd};
ghost use Rattle.poet_serve.specs.Collecting.{told_by, told_of};
ghost use Rattle.poet_serve.specs.Reading.{CountsStop};
ghost use Rattle.poet_serve.specs.Tallies.{tally_of, total_of, HasBrought, HasCollected, HasTaken, HasTakenFrom, IsCutShort, IsStopOf, IsStopped};

use crate::limits::MOST_READ;
use crate::report::{CollectorReport, Stop};
use crate::tally::Tally;
use causal_base::{Ids, Types};
use event_book::{Desk, FeedStop};
use poet_io::Source;
use raw_reader::{Batch, LineCause, LineError, Reader};
use std::alloc::Global;

/// Reads a source to its end, or until something stops it, feeds what it brings to a desk as this
/// collector, and ends the collector there. The types are those of the desk.
pub(crate) fn collect_in_turn<S: Source>(
    alloc: Global,
    desk: &mut Desk,
    types: &Types,
    collector: u32,
    source: S,
) -> CollectorReport<S>
    requires types { types.now ≡ desk.old.setup.types }
    requires collector { collector < desk.old.setup.collectors }
    requires open { HasEnded (reverse desk.old.journal) collector → ⊥ }
    ensures collected { HasCollected types.now collector (S.state source) (S.state result.source)
        (told_by result) desk.old.journal desk.new.journal }
    ensures few { length (came_by desk.new.journal) ≤ MOST_EVENTS }
    ensures setup { desk.new.setup ≡ desk.old.setup }
{
    // Reading it shows that the journal is legal.
    let _setup = desk.setup();
    let mut source = source;
    let Ok(mut tally) = Tally::new(alloc) else {
        end_collector(desk, collector);
        return nothing_read(alloc, source);
    };
    let stop = read_and_feed(alloc, desk, types, collector, &mut source, &mut tally);
    end_collector(desk, collector);
    tally.into_report(source, stop)
}

/// Ends a collector.
fn end_collector(desk: &mut Desk, collector: u32)
    requires collector { collector < desk.old.setup.collectors }
    requires open { HasEnded (reverse desk.old.journal) collector → ⊥ }
    ensures ended { desk.new ≡ record desk.old {
      journal = desk.old.journal ++ Ended collector ∷ [];
    } }
    ensures few { length (came_by desk.new.journal) ≤ MOST_EVENTS }
{
    desk.end(collector);
    // Reading it shows that no more events came than may.
    let _setup = desk.setup();
}

/// The report of a collector that had no memory to begin.
fn nothing_read<S>(alloc: Global, source: S) -> CollectorReport<S>
    ensures source { result.source ≡ source }
    ensures told { told_by result ≡ told_of no_report Stop.Memory }
{
    CollectorReport {
        source,
        accepted: 0,
        repeats: 0,
        clashes: 0,
        first: Ids::new(Vec::new(alloc)),
        stop: Stop::Memory,
    }
}

/// Reads a source piece by piece, and feeds each batch that a piece closes. It answers why it
/// stopped.
fn read_and_feed<S: Source>(
    alloc: Global,
    desk: &mut Desk,
    types: &Types,
    collector: u32,
    source: &mut S,
    tally: &mut Tally,
) -> Stop
    requires types { types.now ≡ desk.old.setup.types }
    requires collector { collector < desk.old.setup.collectors }
    requires open { HasEnded (reverse desk.old.journal) collector → ⊥ }
    requires none { tally.old ≡ tally_of no_report }
    ensures brought { HasBrought types.now collector desk.old.journal (S.state source.old)
        (S.state source.new) result desk.new.journal tally.new }
    ensures open { HasEnded (reverse desk.new.journal) collector → ⊥ }
    ensures setup { desk.new.setup ≡ desk.old.setup }
{
    // Reading it shows that the journal is legal.
    let _setup = desk.setup();
    let mut reader = Reader::new(alloc, types);
    let mut buffer = [0u8; MOST_READ];
    loop {
        let Ok(count) = source.read(&mut buffer) else {
            return Stop::Read;
        };
        if count == 0 {
            return feed_end(alloc, desk, collector, &mut reader, tally);
        }
        if let Err(stop) = feed_piece(
            alloc,
            desk,
            collector,
            &buffer[..count],
            &mut reader,
            tally,
        ) {
            return stop;
        }
    }
}

/// Feeds a batch to the desk, and counts what became of its events.
fn feed_batch(
    alloc: Global,
    desk: &mut Desk,
    collector: u32,
    batch: Batch,
    tally: &mut Tally,
) -> Result<(), Stop>
    requires collector { collector < desk.old.setup.collectors }
    requires open { HasEnded (reverse desk.old.journal) collector → ⊥ }
    requires fit { AllByRecursion (IsFit desk.old.setup.types) batch }
    requires few { total_of tally.old + length batch < 2 ^ 32 }
    ensures ok { OnOk result ((start : List Entry) (events : List Event)
        → HasTaken desk.old.setup.types collector start events desk.old.journal tally.old
        → HasTaken desk.old.setup.types collector start (events ++ batch) desk.new.journal
        tally.new) }
    ensures settled { OnOk result (IsSettled desk.old.setup.types desk.new.journal) }
    ensures err { IfErr result (λ stop. (start : List Entry) (events : List Event)
        → HasTaken desk.old.setup.types collector start events desk.old.journal tally.old
        → IsCutShort desk.old.setup.types collector start (events ++ batch) desk.new.journal
        tally.new stop) }
    ensures open { HasEnded (reverse desk.new.journal) collector → ⊥ }
    ensures setup { desk.new.setup ≡ desk.old.setup }
{
    match desk.feed(alloc, collector, batch) {
        Ok(report) => {
            tally.add(&report);
            Ok(())
        }
        Err(FeedStop::Full { id, report }) => {
            tally.add(&report);
            Err(Stop::Full(id))
        }
        Err(FeedStop::Oom { report, .. }) => {
            if let Some(report) = report {
                tally.add(&report);
            }
            Err(Stop::Memory)
        }
    }
}

/// Feeds the batches that wait at a reader.
fn feed_waiting(
    alloc: Global,
    desk: &mut Desk,
    collector: u32,
    reader: &mut Reader<'_>,
    tally: &mut Tally,
) -> Result<(), Stop>
    requires collector { collector < desk.old.setup.collectors }
    requires open { HasEnded (reverse desk.old.journal) collector → ⊥ }
    requires types { reader.old.types ≡ desk.old.setup.types }
    requires taken { (start : List Entry) × (fed : List ℕ)
        × (HasTakenFrom HasRead collector start reader.old fed desk.old.journal tally.old
        ⊎ HasTakenFrom HasReadToEnd collector start reader.old fed desk.old.journal tally.old) }

    ensures none_waits { OnOk result (reader.new ≡ record reader.old { waiting = [] }) }
    ensures going_on { OnOk result ((start : List Entry) (fed : List ℕ)
        → HasTakenFrom HasRead collector start reader.old fed desk.old.journal tally.old
        → HasTakenFrom HasRead collector start reader.new fed desk.new.journal tally.new) }
    ensures at_end { OnOk result ((start : List Entry) (fed : List ℕ)
        → HasTakenFrom HasReadToEnd collector start reader.old fed desk.old.journal tally.old
        → HasTakenFrom HasReadToEnd collector start reader.new fed desk.new.journal tally.new) }

    // It stops at an event of these batches, whatever follows.
    ensures err { IfErr result (λ stop. (start : List Entry) (fed more left : List ℕ)
        → HasTakenFrom HasRead collector start reader.old fed desk.old.journal tally.old
        → IsStopped reader.old.types collector start (fed ++ more) left stop desk.new.journal
        tally.new) }
    ensures err_at_end { IfErr result (λ stop. (start : List Entry) (fed left : List ℕ)
        → HasTakenFrom HasReadToEnd collector start reader.old fed desk.old.journal tally.old
        → IsStopped reader.old.types collector start fed left stop desk.new.journal tally.new) }
    ensures no_count { IfErr result (λ stop. (count : ℕ) → CountsStop stop count count) }
    ensures open { HasEnded (reverse desk.new.journal) collector → ⊥ }
    ensures types { reader.new.types ≡ reader.old.types }
    ensures setup { desk.new.setup ≡ desk.old.setup }
{
    while let Some(batch) = reader.take_batch() {
        feed_batch(alloc, desk, collector, batch, tally)?;
    }
    Ok(())
}

/// Reads a piece of a source, and feeds the batches that it closes.
fn feed_piece(
    alloc: Global,
    desk: &mut Desk,
    collector: u32,
    piece: &[u8],
    reader: &mut Reader<'_>,
    tally: &mut Tally,
) -> Result<(), Stop>
    requires collector { collector < desk.old.setup.collectors }
    requires open { HasEnded (reverse desk.old.journal) collector → ⊥ }
    requires types { reader.old.types ≡ desk.old.setup.types }
    requires taken { (start : List Entry) × (fed : List ℕ)
        × HasTakenFrom HasRead collector start reader.old fed desk.old.journal tally.old }

    ensures ok { OnOk result ((start : List Entry) (fed : List ℕ)
        → HasTakenFrom HasRead collector start reader.old fed desk.old.journal tally.old
        → HasTakenFrom HasRead collector start reader.new (fed ++ piece.now) desk.new.journal
        tally.new) }
    ensures going { OnOk result (reader.new.refusal ≡ None) }
    ensures none_waits { OnOk result (reader.new.waiting ≡ []) }

    // Whatever follows.
    ensures err { IfErr result (λ stop. (start : List Entry) (fed more left : List ℕ)
        → HasTakenFrom HasRead collector start reader.old fed desk.old.journal tally.old
        → IsStopped reader.old.types collector start (fed ++ piece.now ++ more) left stop
        desk.new.journal tally.new) }
    ensures no_count { IfErr result (λ stop. (count : ℕ) → CountsStop stop count count) }
    ensures open { HasEnded (reverse desk.new.journal) collector → ⊥ }
    ensures types { reader.new.types ≡ reader.old.types }
    ensures setup { desk.new.setup ≡ desk.old.setup }
{
    let fed = reader.feed(piece);
    feed_waiting(alloc, desk, collector, reader, tally)?;
    match fed {
        Ok(()) => Ok(()),
        Err(error) => Err(stop_of(error)),
    }
}

/// Takes the end of a source, and feeds the batches that wait then.
fn feed_end(
    alloc: Global,
    desk: &mut Desk,
    collector: u32,
    reader: &mut Reader<'_>,
    tally: &mut Tally,
) -> Stop
    requires collector { collector < desk.old.setup.collectors }
    requires open { HasEnded (reverse desk.old.journal) collector → ⊥ }
    requires types { reader.old.types ≡ desk.old.setup.types }
    requires taken { (start : List Entry) × (fed : List ℕ)
        × HasTakenFrom HasRead collector start reader.old fed desk.old.journal tally.old }

    ensures stopped { (start : List Entry) (fed : List ℕ)
        → HasTakenFrom HasRead collector start reader.old fed desk.old.journal tally.old
        → IsStopped reader.old.types collector start fed [] result desk.new.journal tally.new }
    ensures no_count { (count : ℕ) → CountsStop result count count }
    ensures open { HasEnded (reverse desk.new.journal) collector → ⊥ }
    ensures setup { desk.new.setup ≡ desk.old.setup }
{
    let ended = reader.end();
    if let Err(stop) = feed_waiting(alloc, desk, collector, reader, tally) {
        return stop;
    }
    match ended {
        Ok(()) => Stop::End,
        Err(error) => stop_of(error),
    }
}

/// Why a collector stops that met this at a line.
fn stop_of(error: LineError) -> Stop
    ensures { IsStopOf error result }
{
    match error.cause {
        LineCause::Oom => Stop::Memory,
        _ => Stop::Line(error),
    }
}
