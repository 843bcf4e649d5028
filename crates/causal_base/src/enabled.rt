ghost use Rattle.std.specs.Prelude.{◌≡◌, ℕ, ◌<◌, ◌↔◌, List, length, reverse, Contains, Some, IsTrue, IfSome, IfNone};
ghost use Rattle.causal_base.specs.declared.block.Block.{Block};
ghost use Rattle.causal_base.specs.declared.event.Event.{Event};
ghost use Rattle.causal_base.specs.Event.{Fits, Pairs};
ghost use Rattle.causal_base.specs.History.{all_events, IsNextOfTrace, IsReady};
ghost use Rattle.causal_base.specs.Past.{HasTrace, IsEnabledAmong, IsHistoryOf};
ghost use Rattle.causal_base.specs.TypeTables.{IsTypeTable};

use crate::accepted::Accepted;
use crate::block::Block;
use crate::event::Event;
use crate::event_id::EventId;
use crate::fitting::{fits, pairs};
use crate::kind::Kind;
use crate::types::Types;

/// The enabled block that has an event of a trace, if there is one: of the events that came, after
/// what is delivered of them. It costs a few look-ups.
pub fn enabled_on<A: Accepted>(types: &Types, accepted: &A, trace: u32) -> Option<Block>
    requires history { IsHistoryOf types.now (A.came accepted.now) (A.history accepted.now) }
    requires trace { trace < types.now.traces }
    ensures some { IfSome result (λ block. HasTrace block trace
        × IsEnabledAmong types.now (A.came accepted.now) (A.history accepted.now) block) }
    ensures none { IfNone result ((block : Block)
        → IsEnabledAmong types.now (A.came accepted.now) (A.history accepted.now) block
        → HasTrace block trace → ⊥) }
{
    // Reading the number of traces shows that the types are a table.
    let _traces = types.traces();
    let id = EventId {
        trace,
        number: accepted.delivered_on(trace) + 1,
    };
    match accepted.event(id) {
        Some(event) => enabled_with(types, accepted, event),
        None => None,
    }
}

/// The enabled block that has this event, which came and is the next of its trace, if there is one.
fn enabled_with<A: Accepted>(types: &Types, accepted: &A, event: &Event) -> Option<Block>
    requires table { IsTypeTable types.now }
    requires history { IsHistoryOf types.now (A.came accepted.now) (A.history accepted.now) }
    requires came { Contains (A.came accepted.now) event.now }
    requires next { IsNextOfTrace (all_events (A.history accepted.now)) event.now }
    ensures some { IfSome result (λ block. HasTrace block event.now.id.trace
        × IsEnabledAmong types.now (A.came accepted.now) (A.history accepted.now) block) }
    ensures none { IfNone result ((block : Block)
        → IsEnabledAmong types.now (A.came accepted.now) (A.history accepted.now) block
        → HasTrace block event.now.id.trace → ⊥) }
{
    if let Some(partner) = next_partner(types, accepted, event) {
        if event.id.trace < partner.trace {
            return Some(Block::Two(event.id, partner));
        }
        return Some(Block::Two(partner, event.id));
    }
    if is_ready(types, accepted, event) {
        Some(Block::One(event.id))
    } else {
        None
    }
}

/// The id of the event with which an event pairs, where that one came and is the next of its trace.
fn next_partner<A: Accepted>(types: &Types, accepted: &A, event: &Event) -> Option<EventId>
    requires table { IsTypeTable types.now }
    requires history { IsHistoryOf types.now (A.came accepted.now) (A.history accepted.now) }
    requires came { Contains (A.came accepted.now) event.now }
    ensures some { IfSome result (λ id. (p : Event) × (p.id ≡ id)
        × Contains (A.came accepted.now) p × Pairs types.now event.now p
        × IsNextOfTrace (all_events (A.history accepted.now)) p) }
    ensures none { IfNone result ((p : Event) → Contains (A.came accepted.now) p
        → Pairs types.now event.now p
        → IsNextOfTrace (all_events (A.history accepted.now)) p → ⊥) }
{
    let Some(mate) = event.mate else {
        return None;
    };
    // A count is cheaper to read than an event is to find.
    if mate.number != accepted.delivered_on(mate.trace) + 1 {
        return None;
    }
    let Some(partner) = accepted.event(mate) else {
        return None;
    };
    if pairs(types, event, partner) {
        Some(mate)
    } else {
        None
    }
}

/// Whether an event that came waits for no other trace.
fn is_ready<A: Accepted>(types: &Types, accepted: &A, event: &Event) -> bool
    requires table { IsTypeTable types.now }
    requires history { IsHistoryOf types.now (A.came accepted.now) (A.history accepted.now) }
    requires came { Contains (A.came accepted.now) event.now }
    ensures { IsTrue result ↔ IsReady types.now (all_events (A.history accepted.now)) event.now }
{
    match types.kind(event.type_no) {
        Kind::Unary | Kind::Send => true,
        Kind::Sync => false,
        Kind::Receive | Kind::Watch => match event.mate {
            Some(mate) => is_delivered_cause(types, accepted, event, mate),
            None => false,
        },
    }
}

/// Whether an event that came fits the event that it names, and that one is delivered.
fn is_delivered_cause<A: Accepted>(
    types: &Types,
    accepted: &A,
    event: &Event,
    mate: EventId,
) -> bool
    requires table { IsTypeTable types.now }
    requires history { IsHistoryOf types.now (A.came accepted.now) (A.history accepted.now) }
    requires came { Contains (A.came accepted.now) event.now }
    requires mate { event.now.mate ≡ Some mate }
    ensures { IsTrue result ↔ ((cause : Event)
        × Contains (all_events (A.history accepted.now)) cause
        × Fits types.now event.now cause) }
{
    if mate.number > accepted.delivered_on(mate.trace) {
        return false;
    }
    match accepted.event(mate) {
        Some(cause) => fits(types, event, cause),
        None => false,
    }
}
