//! Reads events from lines of text, which comes in any pieces: the one spelling of an event, and
//! nothing else, is taken.
#![tactic(auto)]

pub use batch::Batch;
pub use cause::{LineCause, LineError};
pub use event::event_of;
pub use law::{
    closed_batches_come_first, first_fault_is_one, known_fault_stays, open_text_has_no_fault,
    text_is_read_in_one_way,
};
pub use limits::{MOST_IN_BATCH, MOST_INPUT, MOST_LINE};
pub use reader::Reader;

mod batch;
mod cause;
mod event;
mod event_parts;
mod law;
mod limits;
mod reader;
mod split;
