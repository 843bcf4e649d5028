ghost use Rattle.std.specs.Prelude.{◌≡◌, ◌+◌, ◌-◌, ◌<◌, ◌≤◌, ◌++◌, ◌∷◌, [], ◌^◌, length, IfOk};
ghost use Rattle.event_book.specs.Feeding.{no_report};
ghost use Rattle.event_book.specs.Counted.{count_of};

use crate::report::FeedReport;
use causal_base::{EventId, Ids};
use std::alloc::{AllocError, Global};
use std::marker::Model;

/// What became of the events of a batch so far. Contracts see the report, and for how many more
/// clashes there is room.
#[derive(Debug, Drop)]
pub(crate) struct Counting {
    accepted: u32,
    repeats: u32,
    clashes: Vec<EventId>,
}

impl Model for Counting {
    ghost use Rattle.std.specs.Prelude.{◌-◌, vec_len, vec_capacity};
    ghost use Rattle.event_book.specs.Counted.{CountingState};

    ghost Value = { CountingState };

    ghost view = { λ c. record {
      report = record {
        accepted = c.accepted;
        repeats = c.repeats;
        clashes = c.clashes.items;
      };
      room = vec_capacity c.clashes - vec_len c.clashes;
    } };
}

impl Counting {
    /// No events, with room for so many clashes. It fails where there is no memory.
    pub(crate) fn new(alloc: Global, most: usize) -> Result<Counting, AllocError>
        ensures report { IfOk result (λ counting. counting.report ≡ no_report) }
        ensures room { IfOk result (λ counting. most ≤ counting.room) }
    {
        Ok(Counting {
            accepted: 0,
            repeats: 0,
            clashes: Vec::with_capacity(alloc, most)?,
        })
    }

    /// An event was accepted.
    pub(crate) fn accept(&mut self)
        requires { self.old.report.accepted < 2 ^ 32 - 1 }
        ensures report { self.new.report
            ≡ record self.old.report { accepted = self.old.report.accepted + 1 } }
        ensures room { self.new.room ≡ self.old.room }
    {
        self.accepted += 1;
    }

    /// An event was a repeat.
    pub(crate) fn repeat(&mut self)
        requires { self.old.report.repeats < 2 ^ 32 - 1 }
        ensures report { self.new.report
            ≡ record self.old.report { repeats = self.old.report.repeats + 1 } }
        ensures room { self.new.room ≡ self.old.room }
    {
        self.repeats += 1;
    }

    /// An event with this id was a clash.
    pub(crate) fn clash(&mut self, id: EventId)
        requires { 1 ≤ self.old.room }
        ensures report { self.new.report
            ≡ record self.old.report { clashes = self.old.report.clashes ++ id ∷ [] } }
        ensures room { self.old.room ≤ self.new.room + 1 }
    {
        self.clashes.push_reserved(id);
    }

    /// How many events were counted.
    pub(crate) fn done(&self) -> u32
        requires { count_of self.now.report < 2 ^ 32 }
        ensures { result ≡ count_of self.now.report }
    {
        self.accepted + self.repeats + self.clashes.len() as u32
    }

    /// The report.
    pub(crate) fn into_report(self) -> FeedReport
        ensures { result ≡ self.report }
    {
        FeedReport {
            accepted: self.accepted,
            repeats: self.repeats,
            clashes: Ids::new(self.clashes),
        }
    }
}
