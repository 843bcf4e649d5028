//! Lists that are shared cheaply: a shared list stays as it was, whatever is pushed on the other.
#![tactic(auto)]

pub use piece::Piece;
pub use shared_list::SharedList;
pub use trace_lists::{TraceLists, shares};

mod piece;
mod shared_list;
mod spine;
mod trace_lists;
