//! The top call of poet: it reads the words of the command line, does what they say over a folder
//! of files, and writes the outcome to a sink.
#![tactic(auto)]

pub use law::bytes_end_in_one_way;
pub use top::poet_still;

mod answer;
mod ask;
mod fault;
mod law;
mod limits;
mod replay;
mod taking;
mod top;
