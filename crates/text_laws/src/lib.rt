//! The law that the text of a run is read in one way.
//!
//! [`run_text_is_read_in_one_way`] is an empty function, whose contract is the law.
#![tactic(auto)]

pub use law::run_text_is_read_in_one_way;

mod law;
