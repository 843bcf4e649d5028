ghost use Rattle.std.specs.Prelude.{◌≡◌, ◌+◌, ◌<◌, ◌↔◌, [], ◌∷◌, ◌++◌, length, reverse, Contains, IfOk, IfSome, IfNone, OnOk, OnErr};
ghost use Rattle.causal_base.specs.declared.block.Block.TheVariants.{One, Two};
ghost use Rattle.causal_base.specs.declared.entry.Entry.TheVariants.{Came, Ended, Gone, Pair};
ghost use Rattle.causal_base.specs.declared.limits.TheConstants.{MOST_COLLECTORS, MOST_EVENTS};
ghost use Rattle.causal_base.specs.Event.{IsFit};
ghost use Rattle.causal_base.specs.Journal.{IsLegal, IsSettled, came_by};
ghost use Rattle.causal_base.specs.Past.{HasEnded, HasEvent, HasNoNext, IsNext};
ghost use Rattle.cluster_levels.specs.Levels.{StandsAfter, clustering_of};
ghost use Rattle.journal.specs.Delivered.{AreOfJournal};
ghost use Rattle.event_book.specs.Delivering.{entries_of, GoesOn};
ghost use Rattle.event_book.specs.Feeding.{Delivers};
ghost use Rattle.event_book.specs.Stamping.{IsStamped};

use crate::cluster::{cluster_after, plan_with};
use crate::stamped::Stamped;
use causal_base::{Block, Event, EventId, Refusal, Types};
use cluster_levels::Levels;
use cluster_members::ClusterMembers;
use cluster_merge::plan;
use journal::Delivered;
use projected_stamp::{NewStamp, Stamps};
use std::alloc::{AllocError, Global};
use std::marker::Model;
use vector_flight::Flight;

/// A delivery with its clusters and stamps, and what the next one needs: the newest clocks, and the
/// lists of members. Contracts see the former.
#[derive(Debug, Drop)]
pub(crate) struct Deliverer {
    stamped: Stamped,
    members: ClusterMembers,
    flight: Flight,
}

impl Model for Deliverer {
    ghost use Rattle.event_book.specs.Stamping.{StampedState};
    ghost use Rattle.event_book.specs.Delivering.{AreAtHand};

    ghost Value = { StampedState };

    ghost view = { λ d. d.stamped };

    ghost invariant = { λ d. AreAtHand d.stamped d.members d.flight };
}

impl Deliverer {
    /// No events of these types, and clusters after no communications. It fails where there is no
    /// memory.
    pub(crate) fn new(alloc: Global, types: Types, levels: Levels) -> Result<Deliverer, AllocError>
        requires traces { levels.traces ≡ types.traces }
        requires stands { StandsAfter levels [] }
        ensures types { IfOk result (λ deliverer. deliverer.types ≡ types) }
        ensures journal { IfOk result (λ deliverer. deliverer.journal ≡ []) }
        ensures levels { IfOk result (λ deliverer. deliverer.levels ≡ levels) }
    {
        let members = ClusterMembers::new(alloc, &levels)?;
        let flight = Flight::new(alloc, levels.traces())?;
        Ok(Deliverer {
            stamped: Stamped::new(alloc, types, levels)?,
            members,
            flight,
        })
    }

    /// The delivery with its clusters and stamps.
    pub(crate) fn stamped(&self) -> &Stamped
        ensures value { result.now ≡ self.now }
        ensures stamped { IsStamped self.now }
    {
        // Reading it shows what holds of it.
        let _types = self.stamped.types();
        &self.stamped
    }

    /// Accepts an event that a collector brings, as [`Stamped::accept`] does.
    pub(crate) fn accept(&mut self, collector: u32, event: Event) -> Result<(), Refusal>
        requires fit { IsFit self.old.types event }
        requires settled { HasNoNext self.old.types (reverse self.old.journal) }
        requires open { HasEnded (reverse self.old.journal) collector → ⊥ }

        ensures repeat { (result ≡ Err Refusal.Repeat) ↔ Contains (came_by self.old.journal) event }
        ensures clash { (result ≡ Err Refusal.Clash)
            ↔ (HasEvent (came_by self.old.journal) event.id
            × ¬ Contains (came_by self.old.journal) event) }
        ensures full { (result ≡ Err Refusal.Full)
            ↔ ((¬ HasEvent (came_by self.old.journal) event.id)
            × (length (came_by self.old.journal) ≡ MOST_EVENTS)) }

        ensures new { OnOk result ((¬ HasEvent (came_by self.old.journal) event.id)
            × (length (came_by self.old.journal) < MOST_EVENTS)) }
        ensures came { OnOk result (GoesOn self.old self.new (Came collector event ∷ [])) }
        ensures err { OnErr result (self.new ≡ self.old) }
        ensures legal { IsLegal self.new.types self.new.journal }
    {
        let accepted = self.stamped.accept(collector, event);
        // Reading it shows that the journal is legal.
        let _types = self.stamped.types();
        accepted
    }

    /// A collector that hasn't ended brings no more. It takes no memory.
    pub(crate) fn end(&mut self, collector: u32)
        requires collector { collector < MOST_COLLECTORS }
        requires open { HasEnded (reverse self.old.journal) collector → ⊥ }
        ensures { GoesOn self.old self.new (Ended collector ∷ []) }
    {
        self.stamped.end(collector);
    }

    /// Delivers what may go, one Next after another, until nothing may. It fails where there is no
    /// memory for one of them, and then those before it are delivered.
    pub(crate) fn settle(&mut self, alloc: Global) -> Result<(), AllocError>
        ensures delivers { Delivers self.old.types self.old.journal self.new.journal }
        ensures settled { OnOk result (IsSettled self.old.types self.new.journal) }
        ensures types { self.new.types ≡ self.old.types }
        ensures clustering { clustering_of self.new.levels ≡ clustering_of self.old.levels }
    {
        // Reading it shows that the journal is legal.
        let _stamped = self.stamped();
        while self.deliver_next(alloc)?.is_some() {}
        Ok(())
    }

    /// The delivered events and their stamps, as they are now. It fails where there is no memory.
    pub(crate) fn share(&mut self, alloc: Global) -> Result<(Delivered, Stamps), AllocError>
        ensures delivered { IfOk result (λ shared. AreOfJournal self.old.journal shared.0) }
        ensures stamps { IfOk result (λ shared. shared.1.lists ≡ self.old.stamps.lists) }
        ensures same { self.new ≡ self.old }
    {
        self.stamped.share(alloc)
    }

    /// Delivers Next, and tells which it was, or none where nothing is enabled. It fails where there
    /// is no memory for what is kept of it, and then nothing is delivered.
    pub(crate) fn deliver_next(&mut self, alloc: Global) -> Result<Option<Block>, AllocError>
        ensures some { IfOk result (λ block. IfSome block
            (IsNext self.old.types (reverse self.old.journal))) }
        ensures none { IfOk result (λ block. IfNone block
            (HasNoNext self.old.types (reverse self.old.journal))) }
        ensures delivered { IfOk result (λ block. GoesOn self.old self.new (entries_of block)) }
        ensures err { OnErr result (GoesOn self.old self.new []) }
    {
        let Some(block) = self.stamped.next_block() else {
            return Ok(None);
        };
        match block {
            Block::One(id) => self.deliver_one(alloc, id)?,
            Block::Two(first, second) => self.deliver_two(alloc, first, second)?,
        }
        Ok(Some(block))
    }

    /// Delivers the event with this id, which is Next. All memory is taken before anything changes.
    fn deliver_one(&mut self, alloc: Global, id: EventId) -> Result<(), AllocError>
        requires { IsNext self.old.types (reverse self.old.journal) (One id) }
        ensures ok { OnOk result (GoesOn self.old self.new (Gone id ∷ [])) }
        ensures err { OnErr result (GoesOn self.old self.new []) }
    {
        let Some(event) = self.stamped.accepted_event(id) else {
            unreachable!()
        };
        let mate = event.mate;
        let ahead = self
            .flight
            .ahead(alloc, &self.stamped, self.stamped.types(), event, None)?;
        let levels = self.stamped.levels();
        let merge = plan_with(levels, id.trace, mate);
        let cluster = cluster_after(alloc, levels, &self.members, id.trace, merge)?;
        let stamp = NewStamp::new(cluster.level, &cluster.members, ahead.vector())?;
        self.stamped.reserve(id.trace)?;
        self.stamped.deliver_one(id, merge, stamp);
        self.flight.keep(ahead);
        self.members.keep(
            self.stamped.levels(),
            cluster.level,
            id.trace,
            &cluster.members,
        );
        Ok(())
    }

    /// Delivers the partners with these ids, which are Next. All memory is taken before anything
    /// changes.
    fn deliver_two(
        &mut self,
        alloc: Global,
        first: EventId,
        second: EventId,
    ) -> Result<(), AllocError>
        requires { IsNext self.old.types (reverse self.old.journal) (Two first second) }
        ensures ok { OnOk result (GoesOn self.old self.new (Pair first second ∷ [])) }
        ensures err { OnErr result (GoesOn self.old self.new []) }
    {
        let Some(event) = self.stamped.accepted_event(first) else {
            unreachable!()
        };
        let Some(partner) = self.stamped.accepted_event(second) else {
            unreachable!()
        };
        let ahead = self.flight.ahead(
            alloc,
            &self.stamped,
            self.stamped.types(),
            event,
            Some(partner),
        )?;
        let levels = self.stamped.levels();
        let merge = plan(levels, first.trace, second.trace);
        let cluster = cluster_after(alloc, levels, &self.members, first.trace, Some(merge))?;
        let stamp = NewStamp::new(cluster.level, &cluster.members, ahead.vector())?;
        let other = stamp.share()?;
        self.stamped.reserve(first.trace)?;
        self.stamped.reserve(second.trace)?;
        self.stamped.deliver_two(first, second, merge, stamp, other);
        self.flight.keep(ahead);
        self.members.keep(
            self.stamped.levels(),
            cluster.level,
            first.trace,
            &cluster.members,
        );
        Ok(())
    }
}
