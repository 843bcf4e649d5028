ghost use Rattle.std.specs.Prelude.{◌≡◌, ◌+◌, ◌<◌, ◌≤◌, ℕ, List, length, Contains, IfSome, IfNone};
ghost use Rattle.std.specs.Bool.{OnTrue, OnFalse};
ghost use Rattle.causal_base.specs.declared.entry.Entry.{Entry};
ghost use Rattle.causal_base.specs.Clocks.{HasClock, HasClocks};
ghost use Rattle.causal_base.specs.History.{count_on};
ghost use Rattle.causal_base.specs.Journal.{IsLegal, delivered_by};
ghost use Rattle.causal_base.specs.Past.{HasEvent};
ghost use Rattle.causal_base.specs.TypeTables.{IsTypeTable};
ghost use Rattle.causal_base.specs.Types.{TypeTable};

use crate::event::Event;
use crate::event_id::EventId;
use crate::steps::Steps;
use std::sync::ledger::Ledger;

/// Delivered events, of which it is known what could have influenced what. A value stands for legal
/// journals, whose delivered events are its own; what a clause says of a journal holds for each of
/// them. A trace that is handed in is below [`Causal::traces`]. No call takes memory.
pub trait Causal {
    /// The types of its events, and how many traces there are.
    ghost types: { Self → TypeTable };

    /// The journals that it stands for.
    ghost stands_for: { Self → List Entry → Type 0 };

    /// They are legal.
    ghost legal: { (it : Self) (journal : List Entry) → stands_for it journal
        → IsLegal (types it) journal };

    /// How many steps an answer takes at most.
    ghost bound: { Self → ℕ };

    /// How many traces there are.
    fn traces(&self) -> u32
        ensures number { result ≡ (types self.now).traces }
        ensures table { IsTypeTable (types self.now) }
        // What is said of the journals that it stands for is said of one at least.
        ensures stands { (journal : List Entry) × stands_for self.now journal };

    /// How many steps a component or a clock takes at most.
    fn bound(&self) -> u64
        ensures { result ≡ bound self.now };

    /// How many events of a trace are delivered.
    fn count(&self, trace: u32) -> u32
        requires { trace < (types self.now).traces }
        ensures { (journal : List Entry) → stands_for self.now journal
            → result ≡ count_on trace (delivered_by journal) };

    /// The delivered event with this id, or none where none is delivered.
    fn event(&self, id: EventId) -> Option<&Event>
        ensures some { IfSome result (λ e. (journal : List Entry) → stands_for self.now journal
            → Contains (delivered_by journal) e.now × (e.now.id ≡ id)) }
        ensures none { IfNone result ((journal : List Entry) → stands_for self.now journal
            → ¬ HasEvent (delivered_by journal) id) };

    /// How many events of a trace reach the event with this id, or none where it isn't delivered.
    fn component<L: Ledger>(&self, id: EventId, trace: u32, steps: &mut Steps<L>) -> Option<u32>
        requires { trace < (types self.now).traces }
        ensures some { IfSome result (λ n. (journal : List Entry) → stands_for self.now journal
            → HasClock (types self.now) (delivered_by journal) id trace n) }
        ensures none { IfNone result ((journal : List Entry) → stands_for self.now journal
            → ¬ HasEvent (delivered_by journal) id) }
        ensures steps { steps.new ≤ steps.old + bound self.now };

    /// Writes the whole clock of the event with this id, a number for each trace, and answers
    /// whether it is delivered. Where it isn't, nothing is written.
    fn clock<L: Ledger>(&self, id: EventId, into: &mut [u32], steps: &mut Steps<L>) -> bool
        requires { length into.old ≡ (types self.now).traces }
        ensures delivered { OnTrue result ((journal : List Entry) → stands_for self.now journal
            → HasClocks (types self.now) (delivered_by journal) id into.new) }
        ensures absent { OnFalse result ((journal : List Entry) → stands_for self.now journal
            → ¬ HasEvent (delivered_by journal) id) }
        ensures unwritten { OnFalse result (into.new ≡ into.old) }
        ensures steps { steps.new ≤ steps.old + bound self.now };
}
