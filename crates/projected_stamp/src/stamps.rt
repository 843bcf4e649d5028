ghost use Rattle.std.specs.Prelude.{◌≡◌, ◌⊎◌, ℕ, ◌+◌, ◌<◌, ◌≤◌, [], length, IfOk, IfSome, IfNone, OnOk, replicate, slice_index};
ghost use Rattle.causal_base.specs.Stamps.{ClusterTimestamp};
ghost use Rattle.causal_base.specs.declared.limits.TheConstants.{MOST_NUMBER, MOST_TRACES};
ghost use Rattle.shared_list.specs.Traces.{list_of, with_item};
ghost use Rattle.projected_stamp.specs.StampLists.{IsAt, IsStampAt, IsLastOf, HasNoneAbove, parts_of};

use crate::above::{Kept, keep, number_above};
use crate::new_stamp::NewStamp;
use crate::numbers::Numbers;
use crate::stamp::Stamp;
use causal_base::{EventId, Steps};
use shared_list::TraceLists;
use std::alloc::{AllocError, Global};
use std::marker::Model;
use std::sync::ledger::Ledger;

/// The stamps of the delivered events, by trace and number. They are shared as their lists are, and
/// each look-up counts as a step. Contracts see the list of stamps of each trace, and how many more
/// of that trace there is room for.
#[derive(Debug, Drop)]
pub struct Stamps {
    kept: TraceLists<Kept>,
    numbers: Numbers,
    parts: u64,
}

impl Model for Stamps {
    ghost use Rattle.std.specs.Prelude.{◌≡◌, ◌≤◌, All, length, map};
    ghost use Rattle.causal_base.specs.declared.limits.TheConstants.{MOST_TRACES};
    ghost use Rattle.projected_stamp.specs.Above.{IsKept, stamps_of};
    ghost use Rattle.projected_stamp.specs.Runs.{spares_within};
    ghost use Rattle.projected_stamp.specs.StampLists.{StampLists, parts_of};

    ghost Value = { StampLists };

    ghost view = { λ s. record {
      lists = map (stamps_of s.numbers.blocks) s.kept.lists;
      spare = spares_within s.numbers.room s.kept.spare;
    } };

    ghost invariant = { λ s. All (IsKept s.numbers.blocks) s.kept.lists
        × (length s.kept.lists ≤ MOST_TRACES)
        × (s.parts ≡ parts_of (map (stamps_of s.numbers.blocks) s.kept.lists)) };
}

impl Stamps {
    /// No stamps, of so many traces, with no room. It fails where there is no memory.
    pub fn new(alloc: Global, traces: u32) -> Result<Stamps, AllocError>
        requires { traces ≤ MOST_TRACES }
        ensures lists { IfOk result (λ stamps. stamps.lists ≡ replicate traces []) }
        ensures spare { IfOk result (λ stamps. stamps.spare ≡ replicate traces 0) }
    {
        Ok(Stamps {
            kept: TraceLists::new(alloc, traces)?,
            numbers: Numbers::new(alloc),
            parts: 0,
        })
    }

    /// Makes room for at least two more stamps of a trace. It fails where there is no memory.
    pub fn reserve(&mut self, trace: u32) -> Result<(), AllocError>
        requires { trace < length self.old.lists }
        ensures lists { self.new.lists ≡ self.old.lists }
        ensures room { OnOk result (2 ≤ slice_index self.new.spare trace) }

        // The room of no trace gets less, whatever the answer.
        ensures kept { (k : ℕ) → slice_index self.old.spare k ≤ slice_index self.new.spare k }
    {
        self.kept.reserve(trace)?;
        self.numbers.reserve()
    }

    /// Adds the stamp of the next event of a trace. It takes no memory.
    pub fn add(&mut self, id: EventId, stamp: NewStamp<'_>)
        requires trace { id.trace < length self.old.lists }
        requires room { 1 ≤ slice_index self.old.spare id.trace }
        requires next { id.number ≡ length (list_of self.old.lists id.trace) + 1 }
        requires most { id.number ≤ MOST_NUMBER }
        ensures lists { self.new.lists ≡ with_item self.old.lists id.trace stamp.entry }
        ensures spare { (k : ℕ) → slice_index self.old.spare k ≤ slice_index self.new.spare k + 1 }
    {
        self.parts += u64::from(stamp.size());
        let run = self.numbers.add(stamp.members.traces(), stamp.clock);
        keep(&mut self.kept, id.trace, stamp, run);
    }

    /// Adds the stamps of partners, which are equal, and share their numbers. Each is the next event
    /// of its trace. It takes no memory.
    pub fn add_two(
        &mut self,
        first: EventId,
        second: EventId,
        stamp: NewStamp<'_>,
        other: NewStamp<'_>,
    )
        requires equal { other ≡ stamp }
        requires first { first.trace < length self.old.lists }
        requires room { 1 ≤ slice_index self.old.spare first.trace }
        requires next { first.number ≡ length (list_of self.old.lists first.trace) + 1 }
        requires most { first.number ≤ MOST_NUMBER }
        requires second { second.trace < length self.old.lists }
        requires second_room { 2 ≤ slice_index self.old.spare second.trace }
        requires second_next { second.number ≡ length (list_of
            (with_item self.old.lists first.trace stamp) second.trace) + 1 }
        requires second_most { second.number ≤ MOST_NUMBER }
        ensures lists { self.new.lists ≡ with_item
            (with_item self.old.lists first.trace stamp.entry) second.trace stamp.entry }
        ensures spare { (k : ℕ) → slice_index self.old.spare k ≤ slice_index self.new.spare k + 2 }
    {
        self.parts += u64::from(stamp.size()) + u64::from(other.size());
        let run = self.numbers.add(stamp.members.traces(), stamp.clock);
        keep(&mut self.kept, first.trace, stamp, run);
        keep(&mut self.kept, second.trace, other, run);
    }

    /// How many stamps of a trace there are.
    pub fn len(&self, trace: u32) -> u32
        ensures { result ≡ length (list_of self.now.lists trace) }
    {
        self.kept.len(trace)
    }

    /// The stamp of the event with this id, if there is one. It takes one step.
    pub fn read<L: Ledger>(&self, id: EventId, steps: &mut Steps<L>) -> Option<Stamp<'_>>
        ensures some { IfSome result (λ stamp. IsStampAt self.now.lists id stamp) }
        ensures none { IfNone result ((stamp : ClusterTimestamp)
            → IsStampAt self.now.lists id stamp → ⊥) }
        ensures steps { steps.new ≡ steps.old + 1 }
    {
        steps.tick();
        self.stamp_at(id.trace, id.number)
    }

    /// The last event of a trace with a number up to this one and a greater level than this one:
    /// its number and its stamp, if there is one. It takes one step.
    pub fn entry<L: Ledger>(
        &self,
        trace: u32,
        upto: u32,
        level: u8,
        steps: &mut Steps<L>,
    ) -> Option<(u32, Stamp<'_>)>
        ensures some { IfSome result (λ found.
            IsLastOf (list_of self.now.lists trace) upto level found.0 found.1) }
        ensures none { IfNone result (HasNoneAbove (list_of self.now.lists trace) upto level) }
        ensures steps { steps.new ≡ steps.old + 1 }
    {
        steps.tick();
        let within = lesser(self.kept.len(trace), upto);
        let number = number_above(&self.kept, trace, within, level);
        match self.stamp_at(trace, number) {
            Some(stamp) => Some((number, stamp)),
            None => None,
        }
    }

    /// How many numbers all stamps keep.
    pub fn total_parts(&self) -> u64
        ensures { result ≡ parts_of self.now.lists }
    {
        self.parts
    }

    /// Equal stamps, with no room. What is added to either later doesn't change the other. It fails
    /// where there is no memory.
    pub fn share(&self, alloc: Global) -> Result<Stamps, AllocError>
        ensures lists { IfOk result (λ shared. shared.lists ≡ self.now.lists) }
        ensures spare { IfOk result (λ shared. shared.spare ≡ replicate (length self.now.lists) 0) }
    {
        Ok(Stamps {
            kept: self.kept.share(alloc)?,
            numbers: self.numbers.share(alloc)?,
            parts: self.parts,
        })
    }

    /// The stamp of this number of a trace, counted from 1, if there is one.
    fn stamp_at(&self, trace: u32, number: u32) -> Option<Stamp<'_>>
        ensures some { IfSome result (λ stamp. IsAt (list_of self.now.lists trace) number
            stamp) }
        ensures none { IfNone result ((stamp : ClusterTimestamp)
            → IsAt (list_of self.now.lists trace) number stamp → ⊥) }
    {
        if number == 0 {
            return None;
        }
        match self.kept.get(trace, number - 1) {
            Some(kept) => Some(kept.stamp(&self.numbers)),
            None => None,
        }
    }
}

/// The lesser of two numbers.
fn lesser(a: u32, b: u32) -> u32
    ensures first { result ≤ a }
    ensures second { result ≤ b }
    ensures one { (result ≡ a) ⊎ (result ≡ b) }
{
    if a < b { a } else { b }
}
