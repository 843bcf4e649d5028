ghost use Rattle.std.specs.Prelude.{◌≡◌, ◌∷◌, [], ◌<◌, ◌≤◌, ◌↔◌, List, length, IsTrue, IfOk, IfSome, OnOk, replicate};
ghost use Rattle.std.specs.Option.{option_copied, option_map};
ghost use Rattle.causal_base.specs.declared.entry.Entry.{Entry};
ghost use Rattle.causal_base.specs.declared.kind.Kind.TheVariants.{Send};
ghost use Rattle.causal_base.specs.Types.{TypeTable};
ghost use Rattle.causal_base.specs.Event.{IsFit, IsOfKind};
ghost use Rattle.causal_base.specs.History.{EventBlock, IsCausal};
ghost use Rattle.causal_base.specs.Journal.{deliveries_by};
ghost use Rattle.vector_flight.specs.Flights.{IsFlightOf, IsAheadOf, IsOfTraces, block_of};
ghost use Rattle.vector_flight.specs.Held.{AreOf, with_newest};

use crate::ahead::Ahead;
use crate::clock::Clock;
use crate::limits::MOST_SENDS;
use crate::rule::write_next;
use crate::sends::Sends;
use crate::spent::{prepare, put_away};
use causal_base::{Causal, Event, EventId, Kind, MOST_TRACES, Types};
use causal_laws::{clock_is_one, clock_of_one, clock_of_pair, clock_stays_among_deliveries};
use std::alloc::{AllocError, Global};
use std::marker::Model;
use std::mem;
use std::num::NonZeroUsize;

/// What is needed of delivered events for the clock of the next one: the newest clock of each trace,
/// and the clocks of at most [`MOST_SENDS`] sends, the most recently used. Contracts see these, and
/// how many deliveries can be kept without memory.
#[derive(Debug, Drop)]
pub struct Flight {
    newest: Vec<Clock>,
    sends: Sends,
    // Clocks that are used no more.
    spent: Vec<Clock>,
}

impl Model for Flight {
    ghost use Rattle.std.specs.Prelude.{◌-◌, vec_len, vec_capacity};
    ghost use Rattle.vector_flight.specs.Flights.{InFlight};
    ghost use Rattle.vector_flight.specs.Held.{AreHeld};

    ghost Value = { InFlight };

    ghost view = { λ f. record {
      newest = f.newest.items;
      sends = f.sends;
      spare = vec_capacity f.spent - vec_len f.spent;
    } };

    ghost invariant = { λ f. AreHeld f.newest.items f.sends f.spent.items };
}

impl Flight {
    /// Of so many traces, with nothing delivered. It fails where there is no memory.
    pub fn new(alloc: Global, traces: u32) -> Result<Flight, AllocError>
        requires { traces ≤ MOST_TRACES }
        ensures traces { IfOk result (λ flight. length flight.newest ≡ traces) }
        ensures stands { IfOk result (λ flight. (types : TypeTable) → types.traces ≡ traces
            → IsFlightOf types [] flight) }
    {
        Ok(Flight {
            newest: no_clocks(alloc, traces)?,
            sends: Sends::new(alloc, NonZeroUsize::new(MOST_SENDS).unwrap())?,
            spent: Vec::new(alloc),
        })
    }

    /// The clock of the events that are delivered next: one event, or two that pair. It takes all
    /// memory that keeping them will need, and fails where there is none. What is in flight stands
    /// for the same deliveries as before, whatever the answer.
    pub fn ahead<C: Causal>(
        &mut self,
        alloc: Global,
        delivered: &C,
        types: &Types,
        first: &Event,
        second: Option<&Event>,
    ) -> Result<Ahead, AllocError>
        requires types { types.now ≡ C.types delivered.now }
        requires traces { length self.old.newest ≡ types.now.traces }
        requires first { IsFit types.now first.now }
        requires second { IfSome second (λ event. IsFit types.now event.now) }

        // The clock is right where what is in flight stands for what is delivered, and the events
        // may be delivered next.
        ensures ahead { let block = block_of first.now (option_copied second.entry) in
            IfOk result (λ ahead. (journal : List Entry) → C.stands_for delivered.now journal
            → IsFlightOf types.now (deliveries_by journal) self.old
            → IsCausal types.now (block ∷ deliveries_by journal)
            → IsAheadOf types.now (deliveries_by journal) block ahead) }
        ensures sent { IfOk result (λ ahead. IsTrue ahead.sent ↔ IsOfKind types.now first.now Send) }

        // It can be kept.
        ensures of_traces { IfOk result (IsOfTraces (length self.new.newest)) }
        ensures spare { OnOk result (1 ≤ self.new.spare) }

        ensures newest { self.new.newest ≡ self.old.newest }
        ensures meaning { (types : TypeTable) (history : List EventBlock)
            → IsFlightOf types history self.old → IsFlightOf types history self.new }
    {
        let is_send = types.kind(first.type_no) == Kind::Send;
        let mut clock = prepare(
            alloc,
            &mut self.sends,
            &mut self.spent,
            is_send,
            first.id,
            self.newest.len(),
        )?;
        write_next(
            &self.newest,
            &mut self.sends,
            delivered,
            first,
            second,
            &mut clock,
        );
        Ok(Ahead {
            first: first.id,
            second: id_of(second),
            sent: is_send,
            clock,
        })
    }

    /// The events are delivered. It takes no memory.
    pub fn keep(&mut self, ahead: Ahead)
        requires spare { 1 ≤ self.old.spare }
        requires of_traces { IsOfTraces (length self.old.newest) ahead }
        ensures traces { length self.new.newest ≡ length self.old.newest }
        ensures stands { (types : TypeTable) (history : List EventBlock) (block : EventBlock)
            → IsFlightOf types history self.old → IsAheadOf types history block ahead
            → IsFlightOf types (block ∷ history) self.new }
    {
        clock_is_one();
        clock_of_one();
        clock_of_pair();
        clock_stays_among_deliveries();
        let Ahead {
            first,
            second,
            sent,
            clock,
        } = ahead;
        let replaced = replace_newest(&mut self.newest, first, second, clock);
        put_away(
            &mut self.sends,
            &mut self.spent,
            sent,
            first,
            &self.newest[first.trace as usize],
            replaced,
        );
    }
}

/// A clock of zeros for each trace.
fn no_clocks(alloc: Global, traces: u32) -> Result<Vec<Clock>, AllocError>
    ensures { IfOk result (λ clocks. clocks.items ≡ replicate traces (replicate traces 0)) }
{
    let mut clocks = Vec::with_capacity(alloc, traces as usize)?;
    for _ in 0..traces {
        clocks.push_reserved(Clock::zeros(alloc, traces as usize)?);
    }
    Ok(clocks)
}

/// The id of an event, where there is one.
fn id_of(event: Option<&Event>) -> Option<EventId>
    ensures { result ≡ option_map (λ e. e.id) (option_copied event.entry) }
{
    match event {
        Some(event) => Some(event.id),
        None => None,
    }
}

/// Makes a clock the newest of one trace or two, and answers one that it replaces.
fn replace_newest(
    newest: &mut [Clock],
    first: EventId,
    second: Option<EventId>,
    clock: Clock,
) -> Clock
    requires first { first.trace < length newest.old }
    requires second { IfSome second (λ id. id.trace < length newest.old) }
    requires newest { AreOf (length clock) newest.old }
    ensures newest { newest.new ≡ with_newest newest.old first second clock }
    ensures length { length result ≡ length clock }
{
    if let Some(second) = second {
        newest[second.trace as usize].copy_from(&clock);
    }
    mem::replace(&mut newest[first.trace as usize], clock)
}
