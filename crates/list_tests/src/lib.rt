//! Tests of lists that share, of stamps in them, and of what is held and waited for. No clause says
//! what they test: that calls succeed where memory is left, and what was worked out by hand.
#![tactic(auto)]

#[cfg(test)]
mod queues;
#[cfg(test)]
mod shared_lists;
#[cfg(test)]
mod stamps;
#[cfg(test)]
mod waits;
