//! A load: a list of events that is made from a number is written as the texts of three collectors,
//! and these are read back and served on one thread. What came of it is counted, as a measure of
//! speed and memory. What the counts mean is told in `specs/Loads.antt`.
#![tactic(auto)]

pub use loaded::Loaded;
pub use loading::load;

mod event_line;
mod limits;
mod loaded;
mod loading;
mod past;
mod source;
mod texts;
