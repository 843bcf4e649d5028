//! Target files: the traces of a distributed program and its types of events, in TOML.
//!
//! ```toml
//! traces = ["client", "server"]
//! [[event]]
//! name = "call"
//! kind = "send"
//! mate = "called"
//! [[event]]
//! name = "called"
//! kind = "receive"
//! mate = "call"
//! ```
//!
//! There are 1 to 256 traces and 1 to 64 types. A type's kind is `unary`, `send`, `receive`, `sync`
//! or `watch`. A send and a receive type mate with each other, and a sync type with a sync type,
//! perhaps itself; the others have no `mate`.
//!
//! A target file is written by hand, so each mistake has its name and its place, and the first one
//! counts. The mistakes are defined in `specs/` on the document that TOML reads the bytes as.
#![tactic(auto)]

pub use target::Target;
pub use target_error::TargetError;

mod draft;
mod fields;
mod keys;
mod limits;
mod mates;
mod rows;
mod target;
mod target_error;
mod traces;
