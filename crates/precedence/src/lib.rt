//! Which event could have influenced which, told from stamps.
//!
//! [`clock`] and [`component`] find what a stamp has no number for by a walk over entries: of a
//! member, the last event that the stamp's event knows of and that has a greater level. Levels only
//! rise on such a walk, and no level has more members than its size, so it takes no more steps than
//! the bound of the sizes, whatever the number of traces and events. [`before`] and [`relation`]
//! ask anything that has components. [`level`] and [`part`] say what a stamp has. No call takes
//! memory.
#![tactic(auto)]

pub use clocks::{clock, component};
pub use relations::{before, relation};
pub use sizes::stamps_are_small;
pub use stamp::{level, part};

mod clocks;
mod laws;
mod numbers;
mod relations;
mod sizes;
mod stamp;
mod walk;
