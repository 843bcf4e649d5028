ghost use Rattle.std.specs.Prelude.{◌≡◌, ◌+◌, ◌<◌, ◌≤◌, ◌^◌, ◌++◌, length, take, vec_capacity, IfOk};
ghost use Rattle.poet_serve.specs.declared.limits.TheConstants.{MOST_CLASHES_NAMED};
ghost use Rattle.event_book.specs.declared.report.FeedReport.{FeedReport};
ghost use Rattle.event_book.specs.Feeding.{no_report};
ghost use Rattle.poet_serve.specs.Collecting.{told_by, told_of};
ghost use Rattle.poet_serve.specs.Tallies.{both, tally_of, total_of};
ghost use Rattle.event_book.specs.Counted.{count_of};

use crate::limits::MOST_CLASHES_NAMED;
use crate::report::{CollectorReport, Stop};
use causal_base::{EventId, Ids};
use event_book::FeedReport;
use std::alloc::{AllocError, Global};
use std::marker::Model;

/// What became of a collector's events so far: how many were what, and the first ids that clashed.
#[derive(Debug, Drop)]
pub(crate) struct Tally {
    accepted: u32,
    repeats: u64,
    clashes: u64,
    first: Vec<EventId>,
}

impl Model for Tally {
    ghost use Rattle.std.specs.Prelude.{◌≤◌, length, vec_capacity};
    ghost use Rattle.poet_serve.specs.declared.limits.TheConstants.{MOST_CLASHES_NAMED};
    ghost use Rattle.poet_serve.specs.Collecting.{told_by, told_of};
    ghost use Rattle.poet_serve.specs.Tallies.{TallyState};

    ghost Value = { TallyState };

    ghost view = { λ t. record {
      accepted = t.accepted;
      repeats = t.repeats;
      clashes = t.clashes;
      first = t.first.items;
    } };

    ghost invariant = { λ t. (length t.first.items ≤ MOST_CLASHES_NAMED)
        × (MOST_CLASHES_NAMED ≤ vec_capacity t.first) };
}

impl Tally {
    /// No events. It fails where there is no memory for the ids.
    pub(crate) fn new(alloc: Global) -> Result<Tally, AllocError>
        ensures { IfOk result (λ tally. tally ≡ tally_of no_report) }
    {
        Ok(Tally {
            accepted: 0,
            repeats: 0,
            clashes: 0,
            first: Vec::with_capacity(alloc, MOST_CLASHES_NAMED)?,
        })
    }

    /// What became of some more events.
    pub(crate) fn add(&mut self, report: &FeedReport)
        requires { total_of self.old + count_of report.now < 2 ^ 32 }
        ensures { (counted : FeedReport) → self.old ≡ tally_of counted
            → self.new ≡ tally_of (both counted report.now) }
    {
        self.accepted += report.accepted;
        self.repeats += u64::from(report.repeats);
        self.clashes += report.clashes.as_slice().len() as u64;
        name_clashes(&mut self.first, report.clashes.as_slice());
    }

    /// The report of a collector with this source, which stopped so.
    pub(crate) fn into_report<S>(self, source: S, stop: Stop) -> CollectorReport<S>
        ensures source { result.source ≡ source }
        ensures stop { result.stop ≡ stop }
        ensures counts { (counted : FeedReport) → self ≡ tally_of counted
            → told_by result ≡ told_of counted stop }
    {
        CollectorReport {
            source,
            accepted: self.accepted,
            repeats: self.repeats,
            clashes: self.clashes,
            first: Ids::new(self.first),
            stop,
        }
    }
}

/// Adds the ids of a batch's clashes, as far as there are no more than are named.
fn name_clashes(first: &mut Vec<EventId>, clashes: &[EventId])
    requires few { length first.old.items ≤ MOST_CLASHES_NAMED }
    requires room { MOST_CLASHES_NAMED ≤ vec_capacity first.old }
    ensures items { first.new.items ≡ take MOST_CLASHES_NAMED (first.old.items ++ clashes.now) }
    ensures room { vec_capacity first.new ≡ vec_capacity first.old }
{
    for id in clashes {
        if first.len() < MOST_CLASHES_NAMED {
            first.push_reserved(*id);
        }
    }
}
