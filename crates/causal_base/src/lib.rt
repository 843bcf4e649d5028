//! Events of a distributed program, what happened before what, and the journal of their delivery.
//!
//! The definitions in `specs/` are what every other crate of poet is proved against;
//! `docs/DEFINITIONS.md` has each of them in plain words. The types here carry the events, and
//! [`Plain`] is the plain list: it delivers and answers by those definitions with no index of
//! causes, as a yardstick for all that is faster.
#![tactic(auto)]

pub use accepted::Accepted;
pub use answer::Answer;
pub use block::Block;
pub use book::Book;
pub use causal::Causal;
pub use enabled::enabled_on;
pub use entry::{Entry, EntryRef};
pub use event::Event;
pub use event_id::EventId;
pub use fields::{IdFault, id_of, is_name, number_of, split_once};
pub use fitting::{fits, pairs};
pub use items::{Counts, Ids, Items, Parts, Tuples};
pub use kind::Kind;
pub use limits::{
    MOST_COLLECTORS, MOST_EVENTS, MOST_NUMBER, MOST_PLAIN_EVENTS, MOST_TEXT, MOST_TRACES,
    MOST_TYPES, NUMBER_BOUND,
};
pub use plain::Plain;
pub use refusal::Refusal;
pub use related::Related;
pub use steps::Steps;
pub use text::Text;
pub use type_row::TypeRow;
pub use types::Types;

mod accepted;
mod answer;
mod block;
mod book;
mod causal;
mod clock;
mod enabled;
mod entry;
mod event;
mod event_id;
mod fields;
mod fitting;
mod indexed_journal;
mod items;
mod kind;
mod limits;
mod plain;
mod refusal;
mod related;
mod steps;
mod text;
mod type_row;
mod types;
