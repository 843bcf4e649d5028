//! The clock of each event, once, at its delivery.
//!
//! [`Flight`] has what the clock of the next event needs and no more: the newest clock of each
//! trace, and the clocks of the sends that were used last. It stands for some deliveries where
//! `IsFlightOf` of `specs/Flights.antt` says so. A caller asks [`Flight::ahead`] before a delivery,
//! which takes all memory and changes nothing of that, and [`Flight::keep`] after it, which takes
//! none. By `IsAheadOf` the first tells the second what it stands for then.
//!
//! A clock that isn't there, of a send that was dropped or of a watched event, is built again from
//! what is delivered, in one walk. So how many clocks are kept changes no answer.
#![tactic(auto)]

pub use ahead::Ahead;
pub use flight::Flight;
pub use limits::MOST_SENDS;

mod ahead;
mod clock;
mod flight;
mod limits;
mod rule;
mod sends;
mod spent;
