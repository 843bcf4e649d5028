//! Delivery in causal order: each event is held back until everything that it depends on is
//! delivered, and of all blocks that may go, the one goes that has the lowest trace.
//!
//! A block leads with its lowest trace. [`Delivery`] keeps the set of traces that lead, and for each
//! event that hasn't gone the traces that wait for it, so that it looks only at a trace whose next
//! event has changed, and at those that wait for what just went.
#![tactic(auto)]

pub use delivery::Delivery;

mod delivery;
mod looking;
mod trace_set;
