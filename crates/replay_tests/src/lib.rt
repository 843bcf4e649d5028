//! Runs that were worked out by hand: the text and the status of each run of the top call, over
//! files, reads, and writes that fail. Nothing here but tests.
#![tactic(auto)]

#[cfg(test)]
mod rows;
#[cfg(test)]
mod tests;
