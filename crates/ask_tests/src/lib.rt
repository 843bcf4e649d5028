//! The text and the status of `ask`, which were worked out by hand, over a file, reads and writes
//! that fail, and want of memory. Nothing here but tests.
#![tactic(auto)]

#[cfg(test)]
mod tests;
