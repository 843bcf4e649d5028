//! The neighbours of an event on a trace, and consistent cuts that move forward and back.
//!
//! An event's clock tells the last event of each trace that reaches it, and the events that it
//! reaches are the last of each trace, so the first of them is found by halves. A cut is a count
//! for each trace. It is consistent where it has every event that reaches one in it; so it has both
//! of two partners, or neither. Cuts after Mattern (1989) and Chandy and Lamport (1985).
#![tactic(auto)]

pub use consistency::is_consistent;
pub use cut::Cut;
pub use law::{cut_stays_consistent, cuts_join_and_meet, ends_are_consistent};
pub use neighbours::{greatest_before, least_after};

mod consistency;
mod cut;
mod law;
mod neighbours;
mod reach;
