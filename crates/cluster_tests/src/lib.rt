//! Tests of clusters: how they merge, and who their members are. No clause says what they test: that
//! calls succeed where memory is left, and what was worked out by hand.
#![tactic(auto)]

#[cfg(test)]
mod levels;
#[cfg(test)]
mod members;
#[cfg(test)]
mod merges;
