//! What makes the numbers right that a load tells: one thread takes all events of lists that fit
//! the limit, delivers all that can be, and the events before another are counted by its clock.
//! And a text with a line for each event reads as those events. Each function here is empty: its
//! contract is a law.
#![tactic(auto)]

pub use past::past_is_counted_by_clock;
pub use taking::{history_is_delivered, in_turn_takes_all};
pub use text::lines_are_read_back;

mod past;
mod taking;
mod text;
