//! What the collectors and the clients of a run report, worked out by hand. Nothing here but tests.
#![tactic(auto)]

#[cfg(test)]
mod tests;
