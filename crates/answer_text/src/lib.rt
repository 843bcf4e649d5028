//! What is printed of replies and of the entries of a journal: one text for each, without the end
//! of its line.
#![tactic(auto)]

pub use answer::put_answer;
pub use entry::put_entry;
pub use event::put_event;
pub use id::put_id;
pub use number::put_number;
pub use reply::Reply;
pub use reply_text::put_reply;

mod answer;
mod counted;
mod cut;
mod entry;
mod event;
mod found;
mod id;
mod number;
mod reply;
mod reply_text;
mod stamp;
