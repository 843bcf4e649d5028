ghost use Rattle.std.specs.Prelude.{◌≡◌, ◌<◌, ◌≤◌, ◌↔◌, true, [], ◌∷◌, ◌++◌, ℕ, length, reverse, slice_get, slice_index_or, false, Some, IsTrue, IfErr, IfOk, OnOk, OnErr};
ghost use Rattle.std.specs.Bool.{OnTrue, OnFalse};
ghost use Rattle.std.specs.List.{AllByRecursion};
ghost use Rattle.std.specs.Option.{option_map};
ghost use Rattle.causal_base.specs.declared.entry.Entry.{Entry};
ghost use Rattle.causal_base.specs.declared.entry.Entry.TheVariants.{Came, Ended};
ghost use Rattle.causal_base.specs.declared.limits.TheConstants.{MOST_COLLECTORS, MOST_EVENTS};
ghost use Rattle.causal_base.specs.Entry.{entry_of};
ghost use Rattle.causal_base.specs.Event.{IsFit};
ghost use Rattle.causal_base.specs.Journal.{IsSettled, IsLegal, came_by};
ghost use Rattle.causal_base.specs.Past.{HasEnded};
ghost use Rattle.delivery.specs.Leading.{entry_of as block_entry};
ghost use Rattle.event_book.specs.Setups.{clustering_of, IsJournalOf, IsSetup};
ghost use Rattle.event_book.specs.Appending.{IsAppendable, MayAppend};
ghost use Rattle.event_book.specs.Feeding.{Delivers, IsFed};
ghost use Rattle.event_book.specs.FeedStops.{IsFeedStop};
ghost use Rattle.event_book.specs.Stamping.{full_by, parts_by};
ghost use Rattle.event_book.specs.Views.{IsViewOf};

use crate::counting::Counting;
use crate::deliverer::Deliverer;
use crate::feeding::{Stop, take_each};
use crate::report::{FeedReport, FeedStop};
use crate::setup::Setup;
use crate::view::View;
use causal_base::{
    Block, Book, Causal, Entry, EntryRef, Event, EventId, MOST_COLLECTORS, Refusal, Steps, Types,
};
use causal_laws::next_is_one;
use cluster_levels::{Levels, Sizes};
use raw_reader::Batch;
use std::alloc::{AllocError, Global};
use std::marker::Model;
use std::sync::Arc;
use std::sync::ledger::Ledger;
use turnstile::StandsFor;

/// The state of the server: what collectors brought, delivered in causal order, with the clusters
/// and the stamps of the delivered events. Contracts see how it was made, and its journal, which is
/// legal whatever happens.
#[derive(Debug, Drop)]
pub struct Desk {
    setup: Arc<Setup>,
    deliverer: Deliverer,
    ended: [bool; MOST_COLLECTORS as usize],
}

impl Model for Desk {
    ghost use Rattle.event_book.specs.Desks.{DeskState, IsDesk};

    ghost Value = { DeskState };

    ghost view = { λ d. record { setup = d.setup.value; journal = d.deliverer.journal } };

    ghost invariant = { λ d. IsDesk d.setup.value d.deliverer d.ended };
}

impl Desk {
    /// An empty journal, for events of these types and clusters of these sizes, of 1 to
    /// [`MOST_COLLECTORS`] collectors. Two clusters may merge from communication number `after`
    /// between them on; 0 is as 1. It fails where there is no memory.
    pub fn new(
        alloc: Global,
        types: Types,
        sizes: Sizes,
        collectors: u32,
        after: u32,
    ) -> Result<Desk, AllocError>
        requires some { 1 ≤ collectors }
        requires most { collectors ≤ MOST_COLLECTORS }
        ensures { IfOk result (λ desk. desk ≡ record {
          setup = record {
            types = types;
            sizes = sizes;
            collectors = collectors;
            after = after;
          };
          journal = [];
        }) }
    {
        let levels = Levels::new(alloc, sizes.copy(), types.traces(), after)?;
        let deliverer = Deliverer::new(alloc, types.copy(alloc)?, levels)?;
        let setup = Setup {
            types,
            sizes,
            collectors,
            after,
        };
        Ok(Desk {
            setup: Arc::new(alloc, setup)?,
            deliverer,
            ended: [false; MOST_COLLECTORS as usize],
        })
    }

    /// Takes the events of a batch that a collector brings, one after another, and tells what
    /// became of them. Before each event, and at the end, all is delivered that may go. An event
    /// that equals one that was accepted counts as a repeat, and another of its id as a clash.
    ///
    /// It stops at an event with a new id that [`MOST_EVENTS`](causal_base::MOST_EVENTS) were
    /// accepted before, and where memory runs out; what was done before stays, and the next call
    /// goes on from there.
    pub fn feed(
        &mut self,
        alloc: Global,
        collector: u32,
        batch: Batch,
    ) -> Result<FeedReport, FeedStop>
        requires collector { collector < self.old.setup.collectors }
        requires open { HasEnded (reverse self.old.journal) collector → ⊥ }
        requires fit { AllByRecursion (IsFit self.old.setup.types) batch }
        ensures ok { IfOk result (IsFed self.old.setup.types collector batch self.old.journal
            self.new.journal) }
        ensures err { IfErr result (IsFeedStop self.old.setup.types collector batch
            self.old.journal self.new.journal) }
        ensures setup { self.new.setup ≡ self.old.setup }
    {
        let Ok(mut counting) = Counting::new(alloc, batch.as_slice().len()) else {
            return Err(FeedStop::Oom {
                done: 0,
                report: None,
            });
        };
        let taken = take_each(&mut self.deliverer, alloc, collector, batch, &mut counting);
        match taken {
            Ok(()) => Ok(counting.into_report()),
            Err(Stop::Full(id)) => Err(FeedStop::Full {
                id,
                report: counting.into_report(),
            }),
            Err(Stop::Oom) => Err(FeedStop::Oom {
                done: counting.done(),
                report: Some(counting.into_report()),
            }),
        }
    }

    /// Delivers what may go, one Next after another, until nothing may. It fails where there is no
    /// memory for one of them; those before it are delivered.
    pub fn settle(&mut self, alloc: Global) -> Result<(), AllocError>
        ensures delivers { Delivers self.old.setup.types self.old.journal self.new.journal }
        ensures settled { OnOk result (IsSettled self.old.setup.types self.new.journal) }
        ensures setup { self.new.setup ≡ self.old.setup }
    {
        self.deliverer.settle(alloc)
    }

    /// Whether nothing is left that may go.
    pub fn settled(&self) -> bool
        ensures { IsTrue result ↔ IsSettled self.now.setup.types self.now.journal }
    {
        // Reading a part shows what holds of all of them.
        let _ended = self.ended;
        self.deliverer.stamped().next_block().is_none()
    }

    /// A collector that hasn't ended brings no more. It takes no memory.
    pub fn end(&mut self, collector: u32)
        requires collector { collector < self.old.setup.collectors }
        requires open { HasEnded (reverse self.old.journal) collector → ⊥ }
        ensures { self.new ≡ record self.old {
          journal = self.old.journal ++ Ended collector ∷ [];
        } }
    {
        self.deliverer.end(collector);
        self.ended[collector as usize] = true;
    }

    /// Appends an entry, where the journal is legal with it and has no more events than may come,
    /// and tells whether it is. It fails where there is no memory; the journal is then as before.
    pub fn append(&mut self, alloc: Global, entry: Entry) -> Result<bool, AllocError>
        requires { IsAppendable self.old.setup entry }
        ensures legal { IfOk result (λ may. IsTrue may
            ↔ MayAppend self.old.setup.types self.old.journal entry) }
        ensures appended { IfOk result (λ may. may ≡ true → self.new ≡ record self.old {
          journal = self.old.journal ++ entry ∷ [];
        }) }
        ensures refused { IfOk result (λ may. may ≡ false → self.new ≡ self.old) }
        ensures err { OnErr result (self.new ≡ self.old) }
    {
        match entry {
            Entry::Came(collector, event) => self.append_came(collector, event),
            Entry::Gone(id) => self.append_block(alloc, Block::One(id)),
            Entry::Pair(first, second) => self.append_block(alloc, Block::Two(first, second)),
            Entry::Ended(collector) => Ok(self.append_end(collector)),
        }
    }

    /// The entry at a place, counted from 0, if there is one.
    pub fn entry(&self, at: u64) -> Option<EntryRef<'_>>
        ensures { option_map entry_of result ≡ slice_get self.now.journal at }
    {
        self.deliverer.stamped().journal().entry(at)
    }

    /// How many numbers the stamps of all delivered events have.
    pub fn total_parts(&self) -> u64
        ensures { result ≡ parts_by (clustering_of self.now.setup) self.now.journal }
    {
        self.deliverer.stamped().parts()
    }

    /// How many delivered events have a stamp with all traces, as their level is the one above
    /// those that have a size.
    pub fn full_stamps(&self) -> u32
        ensures { result ≡ full_by (clustering_of self.now.setup) self.now.journal }
    {
        self.deliverer.stamped().full()
    }

    /// The delivered events and their stamps as they are now, for questions that are asked while
    /// the desk goes on. What it costs doesn't grow in proportion to the events. It fails where
    /// there is no memory.
    pub fn view(&mut self, alloc: Global) -> Result<View, AllocError>
        ensures view { IfOk result (λ view. IsViewOf view self.old.journal) }
        ensures setup { IfOk result (λ view. view.setup ≡ self.old.setup) }
        ensures same { self.new ≡ self.old }
    {
        // Reading them shows that the journal is legal and has its stamps.
        let _setup = self.setup();
        let _stamped = self.deliverer.stamped();
        let seen = self.seen();
        let accepted = self.accepted();
        let all_ended = self.all_ended();
        let (delivered, stamps) = self.deliverer.share(alloc)?;
        Ok(View::new(
            self.setup.clone()?,
            delivered,
            stamps,
            seen,
            accepted,
            all_ended,
        ))
    }

    /// How the desk was made: the types, the sizes, how many collectors, and W.
    pub fn setup(&self) -> &Setup
        ensures value { result.now ≡ self.now.setup }
        ensures is_setup { IsSetup self.now.setup }
        ensures is_journal { IsJournalOf self.now.setup self.now.journal }
    {
        // Reading it shows that the journal is legal.
        let _stamped = self.deliverer.stamped();
        &self.setup
    }

    /// Appends that an event came, where it may.
    fn append_came(&mut self, collector: u32, event: Event) -> Result<bool, AllocError>
        requires collector { collector < self.old.setup.collectors }
        requires fit { IsFit self.old.setup.types event }
        ensures legal { IfOk result (λ may. IsTrue may
            ↔ MayAppend self.old.setup.types self.old.journal (Came collector event)) }
        ensures appended { IfOk result (λ may. may ≡ true → self.new ≡ record self.old {
          journal = self.old.journal ++ Came collector event ∷ [];
        }) }
        ensures refused { IfOk result (λ may. may ≡ false → self.new ≡ self.old) }
        ensures err { OnErr result (self.new ≡ self.old) }
    {
        // Reading it shows that the journal is legal.
        let _setup = self.setup();
        if self.ended[collector as usize] {
            return Ok(false);
        }
        if !self.settled() {
            return Ok(false);
        }
        match self.deliverer.accept(collector, event) {
            Ok(()) => Ok(true),
            Err(Refusal::Repeat) => Ok(false),
            Err(Refusal::Clash) => Ok(false),
            Err(Refusal::Full) => Ok(false),
            Err(Refusal::Oom) => Err(AllocError),
        }
    }

    /// Appends that a block was delivered, where it is Next.
    fn append_block(&mut self, alloc: Global, block: Block) -> Result<bool, AllocError>
        ensures legal { IfOk result (λ may. IsTrue may
            ↔ MayAppend self.old.setup.types self.old.journal (block_entry block)) }
        ensures appended { IfOk result (λ may. may ≡ true → self.new ≡ record self.old {
          journal = self.old.journal ++ block_entry block ∷ [];
        }) }
        ensures refused { IfOk result (λ may. may ≡ false → self.new ≡ self.old) }
        ensures err { OnErr result (self.new ≡ self.old) }
    {
        next_is_one();
        // Reading it shows that the journal is legal.
        let _setup = self.setup();
        if !is_block(self.deliverer.stamped().next_block(), block) {
            return Ok(false);
        }
        self.deliverer.deliver_next(alloc)?;
        Ok(true)
    }

    /// Appends that a collector brings no more, where it hasn't ended.
    fn append_end(&mut self, collector: u32) -> bool
        requires collector { collector < self.old.setup.collectors }
        ensures legal { IsTrue result
            ↔ MayAppend self.old.setup.types self.old.journal (Ended collector) }
        ensures appended { OnTrue result (self.new ≡ record self.old {
          journal = self.old.journal ++ Ended collector ∷ [];
        }) }
        ensures refused { OnFalse result (self.new ≡ self.old) }
    {
        // Reading it shows that the journal is legal.
        let _setup = self.setup();
        if self.ended[collector as usize] {
            return false;
        }
        self.end(collector);
        true
    }
}

impl Causal for Desk {
    ghost use Rattle.causal_base.specs.Clusters.{bound_of};
    ghost use Rattle.event_book.specs.Stamping.{IsOwn};

    ghost types = { λ d. d.setup.types };

    ghost stands_for = { λ d journal. IsOwn d.setup.types d.journal journal };

    ghost legal = { λ d journal stands. stands.legal };

    ghost bound = { λ d. bound_of d.setup.sizes };

    fn traces(&self) -> u32 {
        // Reading a part shows what holds of all of them.
        let _ended = self.ended;
        self.deliverer.stamped().traces()
    }

    fn bound(&self) -> u64 {
        // Reading a part shows what holds of all of them.
        let _ended = self.ended;
        self.setup.sizes.bound()
    }

    fn count(&self, trace: u32) -> u32 {
        // Reading a part shows what holds of all of them.
        let _ended = self.ended;
        self.deliverer.stamped().count(trace)
    }

    fn event(&self, id: EventId) -> Option<&Event> {
        // Reading a part shows what holds of all of them.
        let _ended = self.ended;
        self.deliverer.stamped().event(id)
    }

    fn component<L: Ledger>(&self, id: EventId, trace: u32, steps: &mut Steps<L>) -> Option<u32> {
        // Reading a part shows what holds of all of them.
        let _ended = self.ended;
        self.deliverer.stamped().component(id, trace, steps)
    }

    fn clock<L: Ledger>(&self, id: EventId, into: &mut [u32], steps: &mut Steps<L>) -> bool {
        // Reading a part shows what holds of all of them.
        let _ended = self.ended;
        self.deliverer.stamped().clock(id, into, steps)
    }
}

impl Book for Desk {
    ghost use Rattle.std.specs.Prelude.{refl};
    ghost use Rattle.delivery.specs.Leading.{entry_of as block_entry};
    ghost use Rattle.event_book.specs.Setups.{clustering_of};

    ghost clustering = { λ d. clustering_of d.setup };

    ghost as_many_traces = { λ d. refl };

    ghost collectors = { λ d. d.setup.collectors };

    fn seen(&self) -> u64 {
        self.deliverer.stamped().journal().len()
    }

    fn accepted(&self) -> u32 {
        self.deliverer.stamped().journal().accepted()
    }

    fn all_ended(&self) -> bool {
        have_all_ended(&self.ended, self.setup.collectors)
    }

    fn stamp_level(&self, id: EventId) -> Option<u8> {
        // Reading a part shows what holds of all of them.
        let _ended = self.ended;
        precedence::level(self.deliverer.stamped().stamps(), id)
    }

    fn stamp_part(&self, id: EventId, trace: u32) -> Option<u32> {
        // Reading a part shows what holds of all of them.
        let _ended = self.ended;
        precedence::part(self.deliverer.stamped().stamps(), id, trace)
    }
}

impl StandsFor for Desk {
    type Fixed = Setup;

    ghost journal_of = { λ d. d.journal };

    ghost fixed_of = { λ d. d.setup };

    fn length(&self) -> u64 {
        self.deliverer.stamped().journal().len()
    }
}

/// Whether each of so many collectors has ended.
fn have_all_ended(ended: &[bool], collectors: u32) -> bool
    requires { collectors ≤ length ended.now }
    ensures { IsTrue result ↔ ((collector : ℕ) → collector < collectors
        → slice_index_or ended.now collector false ≡ true) }
{
    for collector in 0..collectors {
        if !ended[collector as usize] {
            return false;
        }
    }
    true
}

/// Whether the block that is Next is this one.
fn is_block(next: Option<Block>, block: Block) -> bool
    ensures { IsTrue result ↔ (next ≡ Some block) }
{
    next == Some(block)
}
