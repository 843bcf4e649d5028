//! Which traces wait for which events.
#![tactic(auto)]

pub use matcher::Matcher;

mod matcher;
mod waiters;
