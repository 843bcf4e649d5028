//! Tests of what comes in: lines of events, target files, and histories that lines of events tell.
//! No clause says what they test: that calls succeed where memory is left, and what was worked out
//! by hand.
#![tactic(auto)]

#[cfg(test)]
mod events;
#[cfg(test)]
mod fields;
#[cfg(test)]
mod histories;
#[cfg(test)]
mod lines;
#[cfg(test)]
mod targets;
