//! The journal of what happened: the events that came, each once, and the entries in their order.
//! All else refers to it.
//!
//! An event lies in one shared list, in the order of coming. An entry is a mark of 12 bytes, which
//! says where the event lies. An event takes all the memory that it will need here when it comes,
//! so that its delivery can't be refused. Of each trace the places of its events lie in the order
//! of their numbers, so that a delivered event is found by its id at once; only an event that came
//! before one of its trace with a lower number did is searched for.
#![tactic(auto)]

pub use delivered::Delivered;
pub use journal::Journal;

mod arrivals;
mod delivered;
mod index;
mod journal;
mod kept;
mod mark;
