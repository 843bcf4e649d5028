//! Tests of what is asked for: the words of the command line, and the commands of scripts. No clause
//! says what they test: that calls succeed where memory is left, and what was worked out by hand.
#![tactic(auto)]

#[cfg(test)]
mod scripts;
#[cfg(test)]
mod words;
