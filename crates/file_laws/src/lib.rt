//! Laws of the files that poet reads: what the bytes of a file say, they say in one way.
//!
//! The definitions of `target_desc` and `client_session` tell what bytes are read as and why they
//! are refused, as relations. The laws here show that these relations are functions: no bytes are
//! both read and refused, and they are read as one value, or refused for one reason.
#![tactic(auto)]

pub use law::{script_is_read_in_one_way, target_is_read_in_one_way};

mod law;
