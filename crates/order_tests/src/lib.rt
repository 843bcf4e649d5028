//! Tests of how events lie to each other, and of cuts, over the plain list. No clause says what they
//! test: rows that were worked out by hand.
#![tactic(auto)]

#[cfg(test)]
mod cuts;
#[cfg(test)]
mod listed;
#[cfg(test)]
mod relations;
