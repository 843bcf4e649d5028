//! The files of a run. Before it the target and the scripts are read, and the sources of the
//! collectors are opened; after it the sources are given back.
//!
//! Each step is told over the folder alone (`specs/`): what stands in the files, or what went wrong
//! with the first of them that fails. A file that was opened is given back on every way out.
#![tactic(auto)]

pub use fault::{Asker, Fault};
pub use limits::{MOST_CLIENTS, MOST_FILE};
pub use loading::{read_closing, read_scripts, read_target};
pub use sources::{give_back, give_back_all, open_sources};

mod fault;
mod limits;
mod loading;
mod sources;
mod whole;
