ghost use Rattle.std.specs.Prelude.{◌≡◌};

use crate::clock::Clock;
use causal_base::EventId;
use std::marker::Model;

/// The clock of the events that are delivered next. Contracts see it beside their ids, and whether
/// it is kept as that of a send.
#[derive(Debug, Drop)]
pub struct Ahead {
    pub(crate) first: EventId,
    pub(crate) second: Option<EventId>,
    pub(crate) sent: bool,
    pub(crate) clock: Clock,
}

impl Model for Ahead {
    ghost use Rattle.vector_flight.specs.Flights.{NextClock};

    ghost Value = { NextClock };

    ghost view = { λ a. record {
      first = a.first;
      second = a.second;
      sent = a.sent;
      clock = a.clock;
    } };
}

impl Ahead {
    /// The numbers of the clock, one for each trace.
    pub fn vector(&self) -> &[u32]
        ensures { result.now ≡ self.now.clock }
    {
        self.clock.numbers()
    }
}
