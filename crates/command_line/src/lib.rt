//! The words of the command line: they are a plan, or none. They are read with no memory, and a
//! plan borrows its names from them.
#![tactic(auto)]

pub use law::words_are_one_plan;
pub use limits::{MOST_AFTER, MOST_NAMES};
pub use names::Names;
pub use plan::{AskPlan, Plan, ReplayPlan, plan_of};

mod files;
mod item;
mod law;
mod limits;
mod names;
mod options;
mod plan;
mod size_list;
mod words;
