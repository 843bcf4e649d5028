ghost use Rattle.std.specs.Prelude.{◌≡◌, ◌==◌, ◌+◌, ◌<◌, ◌≤◌, ◌↔◌, [], ◌∷◌, ◌++◌, ℕ, count_by, length, reverse, slice_index, Contains, Some, IfOk, IfSome, IfNone, OnOk, OnErr};
ghost use Rattle.causal_base.specs.declared.block.Block.TheVariants.{One, Two};
ghost use Rattle.causal_base.specs.declared.entry.Entry.TheVariants.{Came, Ended, Gone, Pair};
ghost use Rattle.causal_base.specs.declared.event.Event.{Event};
ghost use Rattle.causal_base.specs.declared.limits.TheConstants.{MOST_COLLECTORS, MOST_EVENTS};
ghost use Rattle.causal_base.specs.Clusters.{levels_of};
ghost use Rattle.causal_base.specs.Event.{IsFit};
ghost use Rattle.causal_base.specs.History.{alone, together};
ghost use Rattle.causal_base.specs.Journal.{came_by, delivered_by, deliveries_by};
ghost use Rattle.causal_base.specs.Past.{event_of, HasEnded, HasEvent, HasNoNext, IsNext};
ghost use Rattle.causal_base.specs.Stamps.{ClusterTimestamp, IsStamp};
ghost use Rattle.cluster_levels.specs.Levels.{StandsAfter, clustering_of};
ghost use Rattle.journal.specs.Delivered.{AreOfJournal};
ghost use Rattle.event_book.specs.Stamping.{IsMergeOf, IsStamped, parts_by, full_by};

use crate::cluster::merge_clusters;
use causal_base::{Accepted, Block, Causal, Event, EventId, MOST_EVENTS, Refusal, Steps, Types};
use causal_laws::{
    delivered_are_numbered, delivered_has_own_id, delivered_is_on_a_trace, stamp_stays,
};
use cluster_levels::Levels;
use cluster_merge::Merge;
use delivery::Delivery;
use journal::{Delivered, Journal};
use projected_stamp::{NewStamp, Stamps};
use std::alloc::{AllocError, Global};
use std::marker::Model;
use std::sync::ledger::Ledger;

/// A delivery, and the clusters and the stamps that belong to its journal. Contracts see all of
/// them.
#[derive(Debug, Drop)]
pub(crate) struct Stamped {
    delivery: Delivery,
    levels: Levels,
    stamps: Stamps,
    full: u32,
}

impl Model for Stamped {
    ghost use Rattle.event_book.specs.Stamping.{IsStamped, StampedState};

    ghost Value = { StampedState };

    ghost view = { λ s. record {
      types = s.delivery.types;
      journal = s.delivery.journal;
      levels = s.levels;
      stamps = s.stamps;
      full = s.full;
    } };

    ghost invariant = { λ s. IsStamped (record {
      types = s.delivery.types;
      journal = s.delivery.journal;
      levels = s.levels;
      stamps = s.stamps;
      full = s.full;
    }) };
}

impl Stamped {
    /// No events of these types, and clusters after no communications. It fails where there is no
    /// memory.
    pub(crate) fn new(alloc: Global, types: Types, levels: Levels) -> Result<Stamped, AllocError>
        requires traces { levels.traces ≡ types.traces }
        requires stands { StandsAfter levels [] }
        ensures types { IfOk result (λ stamped. stamped.types ≡ types) }
        ensures journal { IfOk result (λ stamped. stamped.journal ≡ []) }
        ensures levels { IfOk result (λ stamped. stamped.levels ≡ levels) }
    {
        let stamps = Stamps::new(alloc, types.traces())?;
        // Reading the number of traces shows that the levels have sizes.
        let _traces = levels.traces();
        Ok(Stamped {
            delivery: Delivery::new(alloc, types)?,
            levels,
            stamps,
            full: 0,
        })
    }

    /// The types of the events.
    pub(crate) fn types(&self) -> &Types
        ensures types { result.now ≡ self.now.types }
        ensures stamped { IsStamped self.now }
    {
        // Reading a part shows what holds of all of them.
        let _full = self.full;
        self.delivery.types()
    }

    /// The journal.
    pub(crate) fn journal(&self) -> &Journal
        ensures journal { result.now ≡ self.now.journal }
        ensures stamped { IsStamped self.now }
    {
        // Reading a part shows what holds of all of them.
        let _full = self.full;
        self.delivery.journal()
    }

    /// The clusters.
    pub(crate) fn levels(&self) -> &Levels
        ensures levels { result.now ≡ self.now.levels }
        ensures stamped { IsStamped self.now }
    {
        &self.levels
    }

    /// The stamps.
    pub(crate) fn stamps(&self) -> &Stamps
        ensures stamps { result.now ≡ self.now.stamps }
        ensures stamped { IsStamped self.now }
    {
        &self.stamps
    }

    /// How many stamps have all traces.
    pub(crate) fn full(&self) -> u32
        ensures { result ≡ full_by (clustering_of self.now.levels) self.now.journal }
    {
        self.full
    }

    /// How many numbers all stamps have.
    pub(crate) fn parts(&self) -> u64
        ensures { result ≡ parts_by (clustering_of self.now.levels) self.now.journal }
    {
        self.stamps.total_parts()
    }

    /// Accepts an event that a collector brings, as [`Delivery::accept`] does, where nothing may go.
    pub(crate) fn accept(&mut self, collector: u32, event: Event) -> Result<(), Refusal>
        requires fit { IsFit self.old.types event }
        requires settled { HasNoNext self.old.types (reverse self.old.journal) }
        requires open { HasEnded (reverse self.old.journal) collector → ⊥ }

        ensures repeat { (result ≡ Err Refusal.Repeat) ↔ Contains (came_by self.old.journal) event }
        ensures clash { (result ≡ Err Refusal.Clash)
            ↔ (HasEvent (came_by self.old.journal) event.id
            × ¬ Contains (came_by self.old.journal) event) }
        ensures full { (result ≡ Err Refusal.Full)
            ↔ ((¬ HasEvent (came_by self.old.journal) event.id)
            × (length (came_by self.old.journal) ≡ MOST_EVENTS)) }

        ensures new { OnOk result ((¬ HasEvent (came_by self.old.journal) event.id)
            × (length (came_by self.old.journal) < MOST_EVENTS)) }
        ensures came { OnOk result (self.new ≡ record self.old {
          journal = self.old.journal ++ Came collector event ∷ [];
        }) }
        ensures err { OnErr result (self.new ≡ self.old) }
    {
        self.delivery.accept(collector, event)
    }

    /// A collector that hasn't ended brings no more. It takes no memory.
    pub(crate) fn end(&mut self, collector: u32)
        requires collector { collector < MOST_COLLECTORS }
        requires open { HasEnded (reverse self.old.journal) collector → ⊥ }
        ensures { self.new ≡ record self.old {
          journal = self.old.journal ++ Ended collector ∷ [];
        } }
    {
        self.delivery.end(collector);
    }

    /// Next, or none where nothing is enabled.
    pub(crate) fn next_block(&self) -> Option<Block>
        ensures some { IfSome result (IsNext self.now.types (reverse self.now.journal)) }
        ensures none { IfNone result (HasNoNext self.now.types (reverse self.now.journal)) }
    {
        self.delivery.next_block()
    }

    /// The event with this id, if it was accepted.
    pub(crate) fn accepted_event(&self, id: EventId) -> Option<&Event>
        ensures some { IfSome result (λ e. Contains (came_by self.now.journal) e.now
            × (e.now.id ≡ id)) }
        ensures none { IfNone result (¬ HasEvent (came_by self.now.journal) id) }
    {
        self.delivery.event(id)
    }

    /// The delivered events and their stamps, as they are now. It fails where there is no memory.
    pub(crate) fn share(&mut self, alloc: Global) -> Result<(Delivered, Stamps), AllocError>
        ensures delivered { IfOk result (λ shared. AreOfJournal self.old.journal shared.0) }
        ensures stamps { IfOk result (λ shared. shared.1.lists ≡ self.old.stamps.lists) }
        ensures same { self.new ≡ self.old }
    {
        let delivered = self.delivery.share_delivered(alloc)?;
        Ok((delivered, self.stamps.share(alloc)?))
    }

    /// Makes room for the stamps of two more events of a trace at least. It fails where there is no
    /// memory.
    pub(crate) fn reserve(&mut self, trace: u32) -> Result<(), AllocError>
        requires { trace < self.old.types.traces }
        ensures same { self.new ≡ record self.old { stamps = self.new.stamps } }
        ensures lists { self.new.stamps.lists ≡ self.old.stamps.lists }
        ensures room { OnOk result (2 ≤ slice_index self.new.stamps.spare trace) }

        // The room of no trace gets less, whatever the answer.
        ensures kept { (k : ℕ) → slice_index self.old.stamps.spare k
            ≤ slice_index self.new.stamps.spare k }
    {
        self.stamps.reserve(trace)
    }

    /// Delivers the event with this id, which is Next, with the merge of its communication, if any,
    /// and its stamp. It takes no memory.
    pub(crate) fn deliver_one(&mut self, id: EventId, merge: Option<Merge>, stamp: NewStamp<'_>)
        requires next { IsNext self.old.types (reverse self.old.journal) (One id) }
        requires merge { (e : Event) → event_of (came_by self.old.journal) id ≡ Some e
            → IsMergeOf self.old.levels (alone e) merge }
        requires stamp { (e : Event) → event_of (came_by self.old.journal) id ≡ Some e
            → IsStamp self.old.types (clustering_of self.old.levels)
            (alone e ∷ deliveries_by self.old.journal) e stamp }
        requires room { 1 ≤ slice_index self.old.stamps.spare id.trace }
        ensures types { self.new.types ≡ self.old.types }
        ensures journal { self.new.journal ≡ self.old.journal ++ Gone id ∷ [] }
        ensures clustering { clustering_of self.new.levels ≡ clustering_of self.old.levels }
    {
        stamp_stays();
        delivered_is_on_a_trace();
        self.delivery.deliver_block(Block::One(id));
        merge_clusters(&mut self.levels, merge);
        self.full += full_of(&self.levels, &stamp);
        self.stamps.add(id, stamp);
    }

    /// Delivers the partners with these ids, which are Next, with the merge of their communication
    /// and their stamps, which are equal. It takes no memory.
    pub(crate) fn deliver_two(
        &mut self,
        first: EventId,
        second: EventId,
        merge: Merge,
        first_stamp: NewStamp<'_>,
        second_stamp: NewStamp<'_>,
    )
        requires next { IsNext self.old.types (reverse self.old.journal) (Two first second) }
        requires merge { (a b : Event) → event_of (came_by self.old.journal) first ≡ Some a
            → event_of (came_by self.old.journal) second ≡ Some b
            → IsMergeOf self.old.levels (together a b) (Some merge) }
        requires stamps { (a b : Event) → event_of (came_by self.old.journal) first ≡ Some a
            → event_of (came_by self.old.journal) second ≡ Some b
            → IsStamp self.old.types (clustering_of self.old.levels)
            (together a b ∷ deliveries_by self.old.journal) a first_stamp
            × IsStamp self.old.types (clustering_of self.old.levels)
            (together a b ∷ deliveries_by self.old.journal) b second_stamp }
        requires same { second_stamp ≡ first_stamp }
        requires first_room { 1 ≤ slice_index self.old.stamps.spare first.trace }
        requires second_room { 2 ≤ slice_index self.old.stamps.spare second.trace }
        ensures types { self.new.types ≡ self.old.types }
        ensures journal { self.new.journal ≡ self.old.journal ++ Pair first second ∷ [] }
        ensures clustering { clustering_of self.new.levels ≡ clustering_of self.old.levels }
    {
        stamp_stays();
        delivered_is_on_a_trace();
        self.delivery.deliver_block(Block::Two(first, second));
        merge_clusters(&mut self.levels, Some(merge));
        self.full += full_of(&self.levels, &first_stamp) + full_of(&self.levels, &second_stamp);
        self.stamps
            .add_two(first, second, first_stamp, second_stamp);
    }
}

impl Causal for Stamped {
    ghost use Rattle.causal_base.specs.Clusters.{bound_of};
    ghost use Rattle.event_book.specs.Stamping.{IsOwn};

    ghost types = { λ s. s.types };

    ghost stands_for = { λ s journal. IsOwn s.types s.journal journal };

    ghost legal = { λ s journal stands. stands.legal };

    ghost bound = { λ s. bound_of s.levels.sizes };

    fn traces(&self) -> u32 {
        // Reading a part shows what holds of all of them.
        let _full = self.full;
        self.delivery.types().traces()
    }

    fn bound(&self) -> u64 {
        self.levels.sizes().bound()
    }

    fn count(&self, trace: u32) -> u32 {
        // Reading a part shows what holds of all of them.
        let _full = self.full;
        self.delivery.journal().delivered_on(trace)
    }

    fn event(&self, id: EventId) -> Option<&Event> {
        delivered_are_numbered();
        // Reading a part shows what holds of all of them.
        let _full = self.full;
        if !self.delivery.is_delivered(id) {
            return None;
        }
        self.delivery.event(id)
    }

    fn component<L: Ledger>(&self, id: EventId, trace: u32, steps: &mut Steps<L>) -> Option<u32> {
        // Reading a part shows what holds of all of them.
        let _full = self.full;
        precedence::component(&self.stamps, id, trace, steps)
    }

    fn clock<L: Ledger>(&self, id: EventId, into: &mut [u32], steps: &mut Steps<L>) -> bool {
        // Reading a part shows what holds of all of them.
        let _full = self.full;
        precedence::clock(&self.stamps, id, into, steps)
    }
}

/// 1 for a stamp of the level above those that have a size, and else 0.
fn full_of(levels: &Levels, stamp: &NewStamp<'_>) -> u32
    ensures { result ≡ count_by (λ s. s.level == levels_of (clustering_of levels.now) + 1)
        (stamp.now ∷ []) }
{
    if stamp.level() == levels.sizes().levels() + 1 {
        1
    } else {
        0
    }
}
