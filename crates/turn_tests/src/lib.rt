//! Tests of the turn that threads share. No clause says what they test: that two who take turns both
//! come through.
#![tactic(auto)]

#[cfg(test)]
mod turns;
