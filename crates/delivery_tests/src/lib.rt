//! Tests of workloads, of journals, of delivery, and of the clocks of what is delivered. No clause
//! says what they test: that calls succeed where memory is left, and what was worked out by hand.
#![tactic(auto)]

#[cfg(test)]
mod clocks;
#[cfg(test)]
mod deliveries;
#[cfg(test)]
mod journals;
#[cfg(test)]
mod workloads;
