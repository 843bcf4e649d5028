//! How the events of a batch are taken.

ghost use Rattle.std.specs.Prelude.{◌≡◌, ◌+◌, ◌<◌, ◌≤◌, length, reverse, IfErr, OnOk, OnErr};
ghost use Rattle.std.specs.List.{AllByRecursion};
ghost use Rattle.causal_base.specs.Event.{IsFit};
ghost use Rattle.causal_base.specs.Journal.{IsLegal};
ghost use Rattle.causal_base.specs.Past.{HasEnded};
ghost use Rattle.cluster_levels.specs.Levels.{clustering_of};
ghost use Rattle.raw_reader.specs.declared.limits.TheConstants.{MOST_IN_BATCH};
ghost use Rattle.event_book.specs.Counted.{count_of};
ghost use Rattle.event_book.specs.Feeding.{no_report, IsFed, TakesOne};
ghost use Rattle.event_book.specs.Stopping.{IsStoppedAt, IsStoppedBy};

use crate::counting::Counting;
use crate::deliverer::Deliverer;
use causal_base::{Event, EventId, Refusal};
use raw_reader::Batch;
use std::alloc::Global;

/// Why the events of a batch weren't taken to their end.
#[derive(Debug, Drop)]
pub(crate) enum Stop {
    /// As many as there may be came before one with this id, which is new.
    Full(EventId),
    /// Memory ran out.
    Oom,
}

/// Takes the events of a batch that a collector brings, one after another, and counts them. It
/// stops at a new one that as many as may be came before, and where memory runs out.
pub(crate) fn take_each(
    deliverer: &mut Deliverer,
    alloc: Global,
    collector: u32,
    batch: Batch,
    counting: &mut Counting,
) -> Result<(), Stop>
    requires fit { AllByRecursion (IsFit deliverer.old.types) batch }
    requires open { HasEnded (reverse deliverer.old.journal) collector → ⊥ }
    requires none { counting.old.report ≡ no_report }
    requires room { length batch ≤ counting.old.room }
    ensures ok { OnOk result (IsFed deliverer.old.types collector batch deliverer.old.journal
        deliverer.new.journal counting.new.report) }
    ensures err { IfErr result (IsStoppedBy deliverer.old.types collector batch
        deliverer.old.journal deliverer.new.journal counting.new.report) }
    ensures types { deliverer.new.types ≡ deliverer.old.types }
    ensures clustering { clustering_of deliverer.new.levels
        ≡ clustering_of deliverer.old.levels }
{
    // Reading it shows that the journal is legal.
    let _stamped = deliverer.stamped();
    for event in batch.into_vec() {
        take(deliverer, alloc, collector, event, counting)?;
    }
    match deliverer.settle(alloc) {
        Ok(()) => Ok(()),
        Err(_) => Err(Stop::Oom),
    }
}

/// Takes one event, once all is delivered that may go, and counts it.
fn take(
    deliverer: &mut Deliverer,
    alloc: Global,
    collector: u32,
    event: Event,
    counting: &mut Counting,
) -> Result<(), Stop>
    requires fit { IsFit deliverer.old.types event }
    requires open { HasEnded (reverse deliverer.old.journal) collector → ⊥ }
    requires few { count_of counting.old.report < MOST_IN_BATCH }
    requires room { 1 ≤ counting.old.room }
    ensures ok { OnOk result (TakesOne deliverer.old.types collector event deliverer.old.journal
        counting.old.report deliverer.new.journal counting.new.report) }
    ensures err { IfErr result (IsStoppedAt deliverer.old.types event deliverer.old.journal
        deliverer.new.journal) }
    ensures unchanged { OnErr result (counting.new.report ≡ counting.old.report) }
    ensures room { counting.old.room ≤ counting.new.room + 1 }
    ensures legal { IsLegal deliverer.new.types deliverer.new.journal }
    ensures types { deliverer.new.types ≡ deliverer.old.types }
    ensures clustering { clustering_of deliverer.new.levels
        ≡ clustering_of deliverer.old.levels }
{
    if deliverer.settle(alloc).is_err() {
        return Err(Stop::Oom);
    }
    let id = event.id;
    match deliverer.accept(collector, event) {
        Ok(()) => {
            counting.accept();
            Ok(())
        }
        Err(Refusal::Repeat) => {
            counting.repeat();
            Ok(())
        }
        Err(Refusal::Clash) => {
            counting.clash(id);
            Ok(())
        }
        Err(Refusal::Full) => Err(Stop::Full(id)),
        Err(Refusal::Oom) => Err(Stop::Oom),
    }
}
