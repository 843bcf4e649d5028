//! Tests of what is read from files and written: sources and sinks, texts that leave in pieces, and
//! the text of each answer. No clause says what they test: that calls succeed where memory is left,
//! and what was worked out by hand.
#![tactic(auto)]

#[cfg(test)]
mod answers;
#[cfg(test)]
mod buffers;
#[cfg(test)]
mod sources;
