ghost use Rattle.std.specs.Prelude.{◌≡◌, ◌≢◌, ◌+◌, ◌*◌, ◌<◌, ◌⊎◌, ◌↔◌, [], ◌∷◌, ◌++◌, ℕ, length, reverse, Contains, Some, IsTrue, IfErr, IfOk, IfSome, IfNone, OnOk, OnErr};
ghost use Rattle.std.specs.Option.{option_map, option_to_list};
ghost use Rattle.causal_base.specs.declared.block.Block.TheVariants.{One, Two};
ghost use Rattle.causal_base.specs.declared.entry.Entry.TheVariants.{Came, Ended, Gone, Pair};
ghost use Rattle.causal_base.specs.declared.limits.TheConstants.{MOST_COLLECTORS, MOST_EVENTS, MOST_TRACES};
ghost use Rattle.causal_base.specs.Event.{IsFit};
ghost use Rattle.causal_base.specs.declared.event_id.EventId.{EventId};
ghost use Rattle.causal_base.specs.History.{count_on};
ghost use Rattle.causal_base.specs.Past.{HasEnded, HasEvent, HasNoNext, IsHistoryOf, IsNext};
ghost use Rattle.causal_base.specs.Journal.{came_by, delivered_by, deliveries_by};
ghost use Rattle.journal.specs.Delivered.{AreOfJournal};
ghost use Rattle.partner_match.specs.Waiting.{waiting_for};
ghost use Rattle.delivery.specs.Deliveries.{AreParts};
ghost use Rattle.delivery.specs.Leading.{entry_of};

use crate::looking::{enabled_of, look, wake};
use crate::trace_set::TraceSet;
use causal_base::{Accepted, Block, Event, EventId, MOST_COLLECTORS, MOST_EVENTS, Refusal, Types};
use causal_laws::next_is_one;
use journal::{Delivered, Journal};
use partner_match::Matcher;
use std::alloc::{AllocError, Global};
use std::marker::Model;

/// Events of some types, and their delivery. Contracts see it as its types and the journal that it
/// makes.
#[derive(Debug, Drop)]
pub struct Delivery {
    types: Types,
    journal: Journal,
    waiting: Matcher,
    ready: TraceSet,
    ended: [bool; MOST_COLLECTORS as usize],
}

impl Model for Delivery {
    ghost use Rattle.partner_match.specs.Waiting.{waiting_for};
    ghost use Rattle.delivery.specs.Deliveries.{IsDelivery, TypedJournal};

    ghost Value = { TypedJournal };

    ghost view = { λ d. record { types = d.types; journal = d.journal } };

    ghost invariant = { λ d. IsDelivery d.types d.journal d.waiting d.ready d.ended };
}

impl Delivery {
    /// No events of these types. It fails where there is no memory.
    pub fn new(alloc: Global, types: Types) -> Result<Delivery, AllocError>
        ensures { IfOk result (λ delivery. delivery ≡ record { types = types; journal = [] }) }
    {
        // Reading the number of traces shows that the types are a table.
        let _traces = types.traces();
        Ok(Delivery {
            types,
            journal: Journal::new(alloc)?,
            waiting: Matcher::new(alloc),
            ready: TraceSet::new(),
            ended: [false; MOST_COLLECTORS as usize],
        })
    }

    /// Accepts an event that a collector brings, which is fit for the types, and delivers nothing.
    /// It is refused as a repeat where an equal event was accepted, as a clash where a different one
    /// of its id was, else as full where [`MOST_EVENTS`] were, and where memory runs out. A refused
    /// event is dropped, and all is as before.
    pub fn accept(&mut self, collector: u32, event: Event) -> Result<(), Refusal>
        requires { IsFit self.old.types event }

        ensures repeat { (result ≡ Err Refusal.Repeat) ↔ Contains (came_by self.old.journal) event }
        ensures clash { (result ≡ Err Refusal.Clash)
            ↔ (HasEvent (came_by self.old.journal) event.id
            × ¬ Contains (came_by self.old.journal) event) }
        ensures full { (result ≡ Err Refusal.Full)
            ↔ ((¬ HasEvent (came_by self.old.journal) event.id)
            × (length (came_by self.old.journal) ≡ MOST_EVENTS)) }

        ensures new { OnOk result ((¬ HasEvent (came_by self.old.journal) event.id)
            × (length (came_by self.old.journal) < MOST_EVENTS)) }
        ensures came { OnOk result (self.new ≡ record {
          types = self.old.types;
          journal = self.old.journal ++ Came collector event ∷ [];
        }) }
        ensures err { OnErr result (self.new ≡ self.old) }
    {
        if let Some(known) = self.journal.event(event.id) {
            return Err(refusal_of_known(known, &event));
        }
        if self.journal.accepted() == MOST_EVENTS {
            return Err(Refusal::Full);
        }
        accept_new(
            &self.types,
            &mut self.journal,
            &mut self.waiting,
            &mut self.ready,
            collector,
            event,
        )
    }

    /// Next, or none where nothing is enabled.
    pub fn next_block(&self) -> Option<Block>
        ensures some { IfSome result (IsNext self.now.types (reverse self.now.journal)) }
        ensures none { IfNone result (HasNoNext self.now.types (reverse self.now.journal)) }
    {
        enabled_of(&self.types, &self.journal, self.ready.lowest()?)
    }

    /// Delivers Next, and tells which it was, or none where nothing is enabled. It takes no memory.
    pub fn deliver(&mut self) -> Option<Block>
        ensures some { IfSome result (IsNext self.old.types (reverse self.old.journal)) }
        ensures none { IfNone result (HasNoNext self.old.types (reverse self.old.journal)) }
        ensures delivered { self.new ≡ record {
          types = self.old.types;
          journal = self.old.journal ++ option_to_list (option_map entry_of result);
        } }
    {
        let block = self.next_block()?;
        self.deliver_block(block);
        Some(block)
    }

    /// Delivers this block, which is Next: what a caller does that has asked for it already. It
    /// takes no memory.
    pub fn deliver_block(&mut self, block: Block)
        requires { IsNext self.old.types (reverse self.old.journal) block }
        ensures { self.new ≡ record {
          types = self.old.types;
          journal = self.old.journal ++ entry_of block ∷ [];
        } }
    {
        match block {
            Block::One(id) => deliver_one(
                &self.types,
                &mut self.journal,
                &mut self.waiting,
                &mut self.ready,
                id,
            ),
            Block::Two(first, second) => deliver_two(
                &self.types,
                &mut self.journal,
                &mut self.waiting,
                &mut self.ready,
                first,
                second,
            ),
        }
    }

    /// A collector that hasn't ended brings no more. It takes no memory.
    pub fn end(&mut self, collector: u32)
        requires collector { collector < MOST_COLLECTORS }
        requires open { HasEnded (reverse self.old.journal) collector → ⊥ }
        ensures { self.new ≡ record {
          types = self.old.types;
          journal = self.old.journal ++ Ended collector ∷ [];
        } }
    {
        self.journal.push_ended(collector);
        self.ended[collector as usize] = true;
    }

    /// The types of the events.
    pub fn types(&self) -> &Types
        ensures { result.now ≡ self.now.types }
    {
        &self.types
    }

    /// The journal.
    pub fn journal(&self) -> &Journal
        ensures { result.now ≡ self.now.journal }
    {
        &self.journal
    }

    /// The event with this id, if it was accepted.
    pub fn event(&self, id: EventId) -> Option<&Event>
        ensures some { IfSome result (λ e. Contains (came_by self.now.journal) e.now
            × (e.now.id ≡ id)) }
        ensures none { IfNone result (¬ HasEvent (came_by self.now.journal) id) }
    {
        self.journal.event(id)
    }

    /// Whether the event with this id is delivered.
    pub fn is_delivered(&self, id: EventId) -> bool
        ensures { IsTrue result ↔ HasEvent (delivered_by self.now.journal) id }
    {
        match self.journal.event(id) {
            Some(_) => id.number <= self.journal.delivered_on(id.trace),
            None => false,
        }
    }

    /// How many events were accepted.
    pub fn accepted(&self) -> u32
        ensures { result ≡ length (came_by self.now.journal) }
    {
        self.journal.accepted()
    }

    /// How many events are delivered.
    pub fn delivered(&self) -> u32
        ensures { result ≡ length (delivered_by self.now.journal) }
    {
        self.journal.delivered()
    }

    /// The delivered events, as they are now. It fails where there is no memory.
    pub fn share_delivered(&mut self, alloc: Global) -> Result<Delivered, AllocError>
        ensures shared { IfOk result (AreOfJournal self.old.journal) }
        ensures same { self.new ≡ self.old }
    {
        self.journal.share_delivered(alloc)
    }
}

/// Why an event is refused where an event of its id was accepted.
fn refusal_of_known(known: &Event, offered: &Event) -> Refusal
    ensures { ((result ≡ Refusal.Repeat) × (known.now ≡ offered.now))
        ⊎ ((result ≡ Refusal.Clash) × (known.now ≢ offered.now)) }
{
    if known == offered {
        Refusal::Repeat
    } else {
        Refusal::Clash
    }
}

/// Accepts a new event, where there is memory.
fn accept_new(
    types: &Types,
    journal: &mut Journal,
    waiting: &mut Matcher,
    ready: &mut TraceSet,
    collector: u32,
    event: Event,
) -> Result<(), Refusal>
    requires parts { AreParts types.now (reverse journal.old) waiting.old ready.old }
    requires fit { IsFit types.now event }
    requires new { HasEvent (came_by journal.old) event.id → ⊥ }
    requires few { length (came_by journal.old) < MOST_EVENTS }
    ensures parts { AreParts types.now (reverse journal.new) waiting.new ready.new }
    ensures ok { OnOk result (journal.new ≡ journal.old ++ Came collector event ∷ []) }
    ensures err { IfErr result (λ refusal. (refusal ≡ Refusal.Oom) × (journal.new ≡ journal.old)) }
{
    match take_in(types, journal, waiting, ready, collector, event) {
        Ok(()) => Ok(()),
        Err(_) => Err(Refusal::Oom),
    }
}

/// Takes in a new event: it comes, its trace waits for what it names, and what leads now is ready.
/// It fails where there is no memory, and then the journal is as before.
fn take_in(
    types: &Types,
    journal: &mut Journal,
    waiting: &mut Matcher,
    ready: &mut TraceSet,
    collector: u32,
    event: Event,
) -> Result<(), AllocError>
    requires parts { AreParts types.now (reverse journal.old) waiting.old ready.old }
    requires fit { IsFit types.now event }
    requires new { HasEvent (came_by journal.old) event.id → ⊥ }
    requires few { length (came_by journal.old) < MOST_EVENTS }
    ensures parts { AreParts types.now (reverse journal.new) waiting.new ready.new }
    ensures ok { OnOk result (journal.new ≡ journal.old ++ Came collector event ∷ []) }
    ensures err { OnErr result (journal.new ≡ journal.old) }
{
    let id = event.id;
    wait_for_mate(types, journal, waiting, &event)?;
    journal.push_came(collector, event)?;
    // Behind others of its trace it enables nothing.
    if id.number == journal.delivered_on(id.trace) + 1 {
        look(types, journal, ready, id.trace);
    }
    Ok(())
}

/// Has the trace of an event wait for the event that it names, where that one isn't delivered. It
/// fails where there is no memory.
fn wait_for_mate(
    types: &Types,
    journal: &Journal,
    waiting: &mut Matcher,
    event: &Event,
) -> Result<(), AllocError>
    requires history { IsHistoryOf types.now (came_by journal.now) (deliveries_by journal.now) }
    requires fit { IsFit types.now event.now }
    ensures kept { (id : EventId) (trace : ℕ) → Contains (waiting_for waiting.old id) trace
        → Contains (waiting_for waiting.new id) trace }
    ensures waits { OnOk result ((mate : EventId) → event.now.mate ≡ Some mate
        → ¬ HasEvent (delivered_by journal.now) mate
        → Contains (waiting_for waiting.new mate) event.now.id.trace) }
{
    // Reading the number of traces shows that the types are a table.
    let _traces = types.traces();
    match event.mate {
        Some(mate) => wait_for(journal, waiting, mate, event.id.trace),
        None => Ok(()),
    }
}

/// Has a trace wait for the event with this id, where that many of its trace aren't delivered. It
/// fails where there is no memory.
fn wait_for(
    journal: &Journal,
    waiting: &mut Matcher,
    mate: EventId,
    trace: u32,
) -> Result<(), AllocError>
    requires { mate.trace < MOST_TRACES }
    ensures kept { (id : EventId) (other : ℕ) → Contains (waiting_for waiting.old id) other
        → Contains (waiting_for waiting.new id) other }
    ensures waits { OnOk result (count_on mate.trace (delivered_by journal.now) < mate.number
        → Contains (waiting_for waiting.new mate) trace) }
{
    if mate.number <= journal.delivered_on(mate.trace) {
        return Ok(());
    }
    waiting.wait(mate, trace)
}

/// Delivers the event that is Next.
fn deliver_one(
    types: &Types,
    journal: &mut Journal,
    waiting: &mut Matcher,
    ready: &mut TraceSet,
    id: EventId,
)
    requires parts { AreParts types.now (reverse journal.old) waiting.old ready.old }
    requires next { IsNext types.now (reverse journal.old) (One id) }
    requires room { length journal.old
        < 2 * length (came_by journal.old) + MOST_COLLECTORS }
    ensures parts { AreParts types.now (reverse journal.new) waiting.new ready.new }
    ensures delivered { journal.new ≡ journal.old ++ Gone id ∷ [] }
{
    next_is_one();
    journal.push_gone(id);
    ready.remove(id.trace);
    look(types, journal, ready, id.trace);
    wake(types, journal, waiting, ready, id);
}

/// Delivers the two partners that are Next.
fn deliver_two(
    types: &Types,
    journal: &mut Journal,
    waiting: &mut Matcher,
    ready: &mut TraceSet,
    first: EventId,
    second: EventId,
)
    requires parts { AreParts types.now (reverse journal.old) waiting.old ready.old }
    requires next { IsNext types.now (reverse journal.old) (Two first second) }
    requires room { length journal.old
        < 2 * length (came_by journal.old) + MOST_COLLECTORS }
    ensures parts { AreParts types.now (reverse journal.new) waiting.new ready.new }
    ensures delivered { journal.new ≡ journal.old ++ Pair first second ∷ [] }
{
    next_is_one();
    journal.push_pair(first, second);
    ready.remove(first.trace);
    look(types, journal, ready, first.trace);
    look(types, journal, ready, second.trace);
    wake(types, journal, waiting, ready, first);
    wake(types, journal, waiting, ready, second);
}
