//! What a whole run left, as text, and its status.
//!
//! [`put_run`] writes the text line by line through a buffer, so that it leaves in large pieces.
//! The text is told in `specs/Runs.antt`, and the status with it.
#![tactic(auto)]

pub use run::put_run;
pub use status::status_of_run;

mod counts;
mod run;
mod status;
mod text_line;
mod words;
