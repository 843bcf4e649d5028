//! Cluster timestamps as they are kept: of each delivered event its level, its members, and the
//! numbers of its clock for them; and for each event the last one before it above a level.
//!
//! A [`NewStamp`] is made of a whole clock. [`Members`] are shared by the stamps that are made while
//! a cluster stays the same. [`Stamps`] has those of all delivered events, by trace and number: it
//! lends each as a [`Stamp`], which has no number for a trace that is no member, and answers by a
//! look-up what the last event of a trace is that has a greater level. Each look-up is a step. The
//! numbers of all stamps lie in blocks, and partners have theirs in common.
#![tactic(auto)]

pub use members::Members;
pub use new_stamp::NewStamp;
pub use stamp::Stamp;
pub use stamps::Stamps;

mod above;
mod members;
mod new_stamp;
mod numbers;
mod stamp;
mod stamps;
