//! Clocks that are used no more are written on again, so that an event costs no allocation.

ghost use Rattle.std.specs.Prelude.{◌≡◌, ◌⊎◌, ℕ, ◌+◌, ◌<◌, ◌≤◌, List, length, Contains, IfOk, OnOk, Some, vec_len, vec_capacity};
ghost use Rattle.causal_base.specs.declared.event_id.EventId.{EventId};
ghost use Rattle.vector_flight.specs.Held.{AreOf, AreSentOf, HasNoMore};

use crate::clock::Clock;
use crate::sends::Sends;
use causal_base::EventId;
use std::alloc::{AllocError, Global};

/// A clock to write on, of so many traces, and room for what [`put_away`] will put away. It fails
/// where there is no memory.
pub fn prepare(
    alloc: Global,
    sends: &mut Sends,
    spent: &mut Vec<Clock>,
    is_send: bool,
    id: EventId,
    traces: usize,
) -> Result<Clock, AllocError>
    requires sends { AreSentOf traces sends.old }
    requires spent { AreOf traces spent.old.items }
    ensures length { IfOk result (λ clock. length clock ≡ traces) }
    ensures no_more { HasNoMore sends.old sends.new }
    ensures each { AreOf traces spent.new.items }
    ensures room { OnOk result (vec_len spent.new < vec_capacity spent.new) }
{
    // For the clock of a send that is dropped, and for the one that is replaced.
    spent.reserve(2)?;
    make_room(sends, spent, is_send, id)?;
    take_spent(alloc, spent, traces)
}

/// Keeps the clock of a send, written on the one that it replaces. Of other events that one is used
/// no more.
pub fn put_away(
    sends: &mut Sends,
    spent: &mut Vec<Clock>,
    is_send: bool,
    id: EventId,
    clock: &Clock,
    mut replaced: Clock,
)
    requires length { length replaced ≡ length clock.now }
    requires room { vec_len spent.old < vec_capacity spent.old }
    ensures sends { (key : EventId) (other : List ℕ) → Contains sends.new (key, Some other)
        → Contains sends.old (key, Some other) ⊎ ((key ≡ id) × (other ≡ clock.now)) }
    ensures each { AreOf (length clock.now) spent.old.items
        → AreOf (length clock.now) spent.new.items }
{
    if is_send {
        replaced.copy_from(clock);
        sends.keep(id, replaced);
    } else {
        spent.push_reserved(replaced);
    }
}

/// Makes room for the clock of an event, where it is a send. A clock that is dropped for it is used
/// no more.
fn make_room(
    sends: &mut Sends,
    spent: &mut Vec<Clock>,
    is_send: bool,
    id: EventId,
) -> Result<(), AllocError>
    requires { vec_len spent.old < vec_capacity spent.old }
    ensures no_more { HasNoMore sends.old sends.new }
    ensures each { (traces : ℕ) → AreSentOf traces sends.old → AreOf traces spent.old.items
        → AreOf traces spent.new.items }
    ensures one_more { vec_len spent.new ≤ vec_len spent.old + 1 }
    ensures capacity { vec_capacity spent.new ≡ vec_capacity spent.old }
{
    if !is_send {
        return Ok(());
    }
    if let Some(dropped) = sends.reserve(id)? {
        spent.push_reserved(dropped);
    }
    Ok(())
}

/// A clock of so many traces to write on: one that is used no more, or else a new one.
fn take_spent(alloc: Global, spent: &mut Vec<Clock>, traces: usize) -> Result<Clock, AllocError>
    requires { AreOf traces spent.old.items }
    ensures length { IfOk result (λ clock. length clock ≡ traces) }
    ensures each { AreOf traces spent.new.items }
    ensures fewer { vec_len spent.new ≤ vec_len spent.old }
    ensures capacity { vec_capacity spent.new ≡ vec_capacity spent.old }
{
    match spent.pop() {
        Some(clock) => Ok(clock),
        None => Clock::zeros(alloc, traces),
    }
}
