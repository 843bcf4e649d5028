//! What a communication of two traces merges: planned from the clusters as they stand, told before
//! it is done, and then done.
//!
//! [`plan`] takes no memory and changes nothing. So whatever the delivery of an event may be
//! refused for can be asked for between it and [`apply`], which can't be refused. [`Merge::holds`]
//! says meanwhile what the clusters will be.
//!
//! The clusters of two traces merge from the highest level that has a size down, as far as they are
//! one already or may merge. The lowest level that is so reached is also the lowest at which the
//! two share a cluster once it is done: each cluster lies within one of the next level, so where
//! they share one, they share one at each level above. One number, the level of a [`Merge`], thus
//! says both down to where it merges and which level the event has.
//!
//! `IsPlanned` of `specs/Planned.antt` is what [`plan`] gives and the other two calls ask for. It
//! speaks of the levels as a value, so a plan stays one as long as they don't change.
#![tactic(auto)]

pub use applying::apply;
pub use merge::Merge;
pub use planning::plan;

mod applying;
mod merge;
mod planning;
