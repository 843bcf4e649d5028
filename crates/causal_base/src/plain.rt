ghost use Rattle.std.specs.Prelude.{◌≡◌, ◌≢◌, ◌⊎◌, ◌+◌, ◌<◌, ◌≤◌, ◌↔◌, [], ◌∷◌, ◌++◌, List, length, reverse, Contains, IfOk, IfSome, IfNone, OnOk, OnErr};
ghost use Rattle.causal_base.specs.declared.entry.Entry.TheVariants.{Came, Gone};
ghost use Rattle.causal_base.specs.Event.{IsFit};
ghost use Rattle.causal_base.specs.Past.{came, delivered, HasEvent, HasNoNext, IsNext};
ghost use Rattle.causal_base.specs.Journal.{came_by, delivered_by};
ghost use Rattle.causal_base.specs.InTurn.{SettlesTo};
ghost use Rattle.causal_base.specs.Asked.{IsBeforeAnswer};
ghost use Rattle.causal_base.specs.PlainList.{IsOpenJournal};
ghost use Rattle.causal_base.specs.Clocks.{HasClock};
ghost use Rattle.causal_base.specs.Walks.{Reaches};
ghost use Rattle.causal_base.specs.declared.event.Event.{Event};

use crate::accepted::Accepted;
use crate::answer::Answer;
use crate::block::Block;
use crate::causal::Causal;
use crate::clock::write_clock;
use crate::enabled::enabled_on;
use crate::event::Event;
use crate::event_id::EventId;
use crate::fitting::pairs;
use crate::indexed_journal::IndexedJournal;
use crate::limits::{MOST_PLAIN_EVENTS, MOST_TRACES};
use crate::refusal::Refusal;
use crate::steps::Steps;
use crate::types::Types;
use std::alloc::Global;
use std::marker::Model;
use std::sync::ledger::Ledger;

/// The plain list: a journal of one collector's events and nothing derived from causes. It delivers
/// what is enabled as soon as an event comes, and answers by going back through the journal. It is
/// the yardstick for what answers faster. Contracts see it as its types and its journal, which is
/// legal and settled.
#[derive(Debug, Drop)]
pub struct Plain {
    types: Types,
    journal: IndexedJournal,
}

impl Model for Plain {
    ghost use Rattle.causal_base.specs.Journal.{IsSettled};
    ghost use Rattle.causal_base.specs.PlainList.{TypedJournal, IsOpenJournal};

    ghost Value = { TypedJournal };

    ghost view = { λ p. record { types = p.types; journal = p.journal } };

    ghost invariant = { λ p. IsOpenJournal p.types p.journal × IsSettled p.types p.journal };
}

impl Plain {
    /// A list without events.
    pub fn new(alloc: Global, types: Types) -> Plain
        ensures { result ≡ record { types = types; journal = [] } }
    {
        // Reading the number of traces shows that the types are a table.
        let _traces = types.traces();
        Plain {
            types,
            journal: IndexedJournal::new(alloc),
        }
    }

    /// Accepts an event, which is fit for the types, and delivers all that is enabled then. It is
    /// refused as a repeat where an equal event was accepted, as a clash where a different one of
    /// its id was, else as full where [`MOST_PLAIN_EVENTS`] were, and where memory runs out. A
    /// refused event is dropped, and the list stays as it was.
    pub fn offer(&mut self, event: Event) -> Result<(), Refusal>
        requires { IsFit self.old.types event }

        ensures repeat { (result ≡ Err Refusal.Repeat) ↔ Contains (came_by self.old.journal) event }
        ensures clash { (result ≡ Err Refusal.Clash)
            ↔ (HasEvent (came_by self.old.journal) event.id
            × ¬ Contains (came_by self.old.journal) event) }
        ensures full { (result ≡ Err Refusal.Full)
            ↔ ((¬ HasEvent (came_by self.old.journal) event.id)
            × (length (came_by self.old.journal) ≡ MOST_PLAIN_EVENTS)) }

        // A new event comes, and everything enabled is delivered.
        ensures new { OnOk result ((¬ HasEvent (came_by self.old.journal) event.id)
            × (length (came_by self.old.journal) < MOST_PLAIN_EVENTS)) }
        ensures delivers { OnOk result (SettlesTo self.old.types
            (self.old.journal ++ Came 0 event ∷ []) self.new.journal) }

        ensures types { self.new.types ≡ self.old.types }
        ensures err { OnErr result (self.new ≡ self.old) }
    {
        if let Some(known) = self.journal.event(event.id) {
            return Err(refusal_of_known(known, &event));
        }
        if self.journal.accepted() == MOST_PLAIN_EVENTS {
            return Err(Refusal::Full);
        }
        match self.journal.push_came(event) {
            Ok(()) => {
                settle(&self.types, &mut self.journal);
                Ok(())
            }
            Err(_) => Err(Refusal::Oom),
        }
    }

    /// The delivered event with this id, or none where none is delivered.
    pub fn event(&self, id: EventId) -> Option<&Event>
        ensures some { IfSome result (λ e. Contains (delivered_by self.now.journal) e.now
            × (e.now.id ≡ id)) }
        ensures none { IfNone result (¬ HasEvent (delivered_by self.now.journal) id) }
    {
        match self.journal.event(id) {
            Some(event) => {
                if id.number <= self.journal.delivered_on(id.trace) {
                    Some(event)
                } else {
                    None
                }
            }
            None => None,
        }
    }

    /// Whether the event a happened before the event b, or the first of the two that isn't
    /// delivered. It goes back through the journal once.
    pub fn before(&self, a: EventId, b: EventId) -> Answer<bool>
        ensures { IsBeforeAnswer self.now.types (delivered_by self.now.journal) a b result }
    {
        let Some(first) = self.event(a) else {
            return Answer::NotYet(a);
        };
        let Some(second) = self.event(b) else {
            return Answer::NotYet(b);
        };
        if a == b || pairs(&self.types, first, second) {
            return Answer::Known(false);
        }
        Answer::Known(a.number <= self.number_of(b, a.trace))
    }

    /// How many events of a trace reach the delivered event with this id.
    fn number_of(&self, id: EventId, trace: u32) -> u32
        requires delivered { HasEvent (delivered_by self.now.journal) id }
        requires trace { trace < self.now.types.traces }
        ensures clock { HasClock self.now.types (delivered_by self.now.journal) id trace result }
        ensures reach { (e x : Event) → Contains (delivered_by self.now.journal) e → e.id ≡ id
            → Contains (delivered_by self.now.journal) x → x.id.trace ≡ trace
            → (x.id.number ≤ result)
            ↔ (Reaches self.now.types (delivered_by self.now.journal) x e) }
    {
        let mut clock = [0; MOST_TRACES as usize];
        write_clock(&self.journal, id, &mut clock);
        clock[trace as usize]
    }
}

impl Causal for Plain {
    ghost use Rattle.std.specs.Prelude.{◌≡◌};
    ghost use Rattle.causal_base.specs.Journal.{IsLegal};

    ghost types = { λ p. p.types };

    ghost stands_for = { λ p journal. (journal ≡ p.journal) × IsLegal p.types journal };

    ghost legal = { λ p journal stands. stands.1 };

    ghost bound = { λ _. 0 };

    fn traces(&self) -> u32 {
        self.types.traces()
    }

    fn bound(&self) -> u64 {
        0
    }

    fn count(&self, trace: u32) -> u32 {
        self.journal.delivered_on(trace)
    }

    fn event(&self, id: EventId) -> Option<&Event> {
        Plain::event(self, id)
    }

    fn component<L: Ledger>(&self, id: EventId, trace: u32, _steps: &mut Steps<L>) -> Option<u32> {
        match Plain::event(self, id) {
            Some(_) => Some(self.number_of(id, trace)),
            None => None,
        }
    }

    fn clock<L: Ledger>(&self, id: EventId, into: &mut [u32], _steps: &mut Steps<L>) -> bool {
        match Plain::event(self, id) {
            Some(_) => {
                write_clock(&self.journal, id, into);
                true
            }
            None => false,
        }
    }
}

/// Why an event is refused where an event of its id was accepted.
fn refusal_of_known(known: &Event, offered: &Event) -> Refusal
    ensures { ((result ≡ Refusal.Repeat) × (known.now ≡ offered.now))
        ⊎ ((result ≡ Refusal.Clash) × (known.now ≢ offered.now)) }
{
    if known == offered {
        Refusal::Repeat
    } else {
        Refusal::Clash
    }
}

/// Delivers what is enabled, one Next after another, until there is none.
fn settle(types: &Types, journal: &mut IndexedJournal)
    requires { IsOpenJournal types.now journal.old }
    ensures settles { SettlesTo types.now journal.old journal.new }
    ensures kept { IsOpenJournal types.now journal.new }
{
    while let Some(block) = next(types, journal) {
        match block {
            Block::One(id) => journal.push_gone(id),
            Block::Two(first, second) => journal.push_pair(first, second),
        }
    }
}

/// Next, or none where nothing is enabled.
fn next(types: &Types, journal: &IndexedJournal) -> Option<Block>
    requires { IsOpenJournal types.now journal.now }
    ensures some { IfSome result (λ block. IsNext types.now (reverse journal.now) block) }
    ensures none { IfNone result (HasNoNext types.now (reverse journal.now)) }
{
    for trace in 0..types.traces() {
        if let Some(block) = enabled_on(types, journal, trace) {
            return Some(block);
        }
    }
    None
}
