//! A large list of events from a number: unary events, sends, receives and pairs of a few traces,
//! each behind what it needs. It is what speed and memory are measured on.
//!
//! The draws are those of a congruential generator with the modulus 65,537: they look like chance,
//! and come out the same everywhere.
#![tactic(auto)]

pub use law::workload_goes_whole;
pub use workload::Workload;

mod law;
mod workload;
