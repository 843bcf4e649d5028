//! A whole run: collectors read their sources and feed a desk, clients ask it, and a closing script
//! is asked when all is read.
//!
//! [`serve_in_turn`] does it on one thread: one source after the other, then one client after the
//! other. What a run leaves is a transcript (`specs/Transcripts.antt`), which is told over the
//! journal, the bytes of the sources and the commands of the scripts alone.
//!
//! [`journal_in_turn_is_one`] is a law: the bytes of the sources tell that journal.
#![tactic(auto)]

pub use law::journal_in_turn_is_one;
pub use limits::{MOST_CLASHES_NAMED, MOST_READ};
pub use report::{ClientReport, CollectorReport, Line, Lines, Run, Stop};
pub use serving::serve_in_turn;

mod asking;
mod collecting;
mod law;
mod limits;
mod report;
mod serving;
mod tally;
