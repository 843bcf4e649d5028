//! What is held back of each trace, by number.
#![tactic(auto)]

pub use queues::Queues;

mod queues;
