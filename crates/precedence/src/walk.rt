//! The walk over entries.

ghost use Rattle.std.specs.Prelude.{◌≡◌, ◌+◌, ◌-◌, ◌*◌, ◌≤◌, ◌↔◌, length, IsTrue};
ghost use Rattle.causal_base.specs.declared.event.Event.{Event};
ghost use Rattle.causal_base.specs.Journal.{deliveries_by};
ghost use Rattle.causal_base.specs.Stamps.{level_of};
ghost use Rattle.precedence.specs.StampedJournal.{StampedJournal, IsStampIn};
ghost use Rattle.precedence.specs.Walking.{bound_from, HasWanted, IsBetween, IsDelivered, IsNumber, IsOver, TakesIn, TakesInEntries};

use crate::laws::laws;
use crate::numbers::{number_at, raise_parts};
use causal_base::Steps;
use projected_stamp::{Stamp, Stamps};
use std::sync::ledger::Ledger;

/// Whose numbers are wanted.
#[derive(Clone, Copy)]
pub(crate) enum Wanted {
    /// That of one trace.
    One(u32),
    /// Those of all traces.
    All,
}

/// A walk from an event to its entries, to theirs, and so on. It keeps numbers, one for each trace,
/// and an event is within them where its number is at most that of its trace. What is within them
/// brings nothing new and is passed over. So that this stays so, the own numbers of an event are
/// written last.
#[derive(Drop)]
pub(crate) struct Walk<'a> {
    pub(crate) stamps: &'a Stamps,
    pub(crate) wanted: Wanted,
}

impl Walk<'_> {
    /// Takes an event in, that of this stamp and trace: raises the numbers that are wanted to its
    /// clock, and others no further.
    #[cycle(walk)]
    pub(crate) fn take_in<L: Ledger>(
        &self,
        stamp: &Stamp<'_>,
        own: u32,
        into: &mut [u32],
        steps: &mut Steps<L>,
    )
        ensures taken { (w : StampedJournal)
            → IsOver w self.now.stamps.now.lists self.now.wanted into.old
            → (e : Event) → IsStampIn w e stamp.now
            → TakesIn w self.now.wanted e into.old into.new }
        ensures steps { (w : StampedJournal)
            → IsOver w self.now.stamps.now.lists self.now.wanted into.old
            → (e : Event) → IsStampIn w e stamp.now
            → steps.new + 1 ≤ steps.old + bound_from w stamp.now.level }
    {
        laws();
        if !self.has_wanted(stamp, into.len()) {
            let own_place = place_of(stamp.members(), own);
            self.take_in_entries(stamp, own_place, stamp.members().len(), into, steps);
            self.take_in_entries(stamp, 0, own_place, into, steps);
        }
        raise_parts(into, stamp);
    }

    /// Takes in the entries on the members at these places.
    #[cycle(walk)]
    fn take_in_entries<L: Ledger>(
        &self,
        stamp: &Stamp<'_>,
        from: usize,
        to: usize,
        into: &mut [u32],
        steps: &mut Steps<L>,
    )
        requires range { from ≤ to }
        requires within { to ≤ length stamp.now.members }
        ensures taken { (w : StampedJournal)
            → IsOver w self.now.stamps.now.lists self.now.wanted into.old
            → (e : Event) → IsStampIn w e stamp.now
            → TakesInEntries w self.now.wanted e (IsBetween stamp.now.members from to)
            into.old into.new }
        ensures steps { (w : StampedJournal)
            → IsOver w self.now.stamps.now.lists self.now.wanted into.old
            → (e : Event) → IsStampIn w e stamp.now
            → steps.new ≤ steps.old + (to - from) * bound_from w (stamp.now.level + 1) }
    {
        laws();
        for place in from..to {
            let trace = stamp.members()[place];
            let part = stamp.numbers()[place];
            self.take_in_entry(trace, part, stamp.level(), into, steps);
        }
    }

    /// Takes in the entry of an event of this level on a member, whose part is this number. There may
    /// be none.
    #[cycle(walk)]
    fn take_in_entry<L: Ledger>(
        &self,
        trace: u32,
        part: u32,
        level: u8,
        into: &mut [u32],
        steps: &mut Steps<L>,
    )
        ensures taken { (w : StampedJournal)
            → IsOver w self.now.stamps.now.lists self.now.wanted into.old
            → (e : Event) → IsDelivered w e
            → level ≡ level_of w.clustering (deliveries_by w.journal) e.id
            → IsNumber w e trace part
            → TakesInEntries w self.now.wanted e (λ on. on ≡ trace) into.old into.new }
        ensures steps { (w : StampedJournal)
            → IsOver w self.now.stamps.now.lists self.now.wanted into.old
            → steps.new ≤ steps.old + bound_from w (level + 1) }
    {
        laws();
        if part <= number_at(into, trace) {
            return;
        }
        if let Some((number, stamp)) = self.stamps.entry(trace, part, level, steps) {
            if number_at(into, trace) < number {
                self.take_in(&stamp, trace, into, steps);
            }
        }
    }

    /// Whether the stamp has the numbers that are wanted itself, of so many traces.
    fn has_wanted(&self, stamp: &Stamp<'_>, traces: usize) -> bool
        ensures { IsTrue result ↔ HasWanted self.now.wanted traces stamp.now.members }
    {
        match self.wanted {
            Wanted::One(trace) => stamp.part(trace).is_some(),
            Wanted::All => stamp.members().len() == traces,
        }
    }
}

/// The place of a trace among these, which rise.
fn place_of(traces: &[u32], trace: u32) -> usize
    ensures { result ≤ length traces.now }
{
    traces.partition_point(|other| *other < trace)
}
