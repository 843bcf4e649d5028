use answer_text::Reply;
use causal_base::{EventId, Ids, Items};
use event_book::Desk;
use raw_reader::LineError;

/// Why a collector brought no more.
#[derive(Clone, Copy, Debug, PartialEq, Eq)]
pub enum Stop {
    /// Its source was read to its end.
    End,
    /// A read of its source failed.
    Read,
    /// A line of its source has a fault, and it is no want of memory.
    Line(LineError),
    /// As many events as there may be were accepted before one with this id, which is new.
    Full(EventId),
    /// Memory ran out.
    Memory,
}

/// What became of a source and its events.
#[derive(Debug, Drop)]
pub struct CollectorReport<S> {
    /// The source, as far as it was read.
    pub source: S,
    /// How many of its events were accepted.
    pub accepted: u32,
    /// How many equal an event that was accepted before.
    pub repeats: u64,
    /// How many differ from the event of their id that was accepted before.
    pub clashes: u64,
    /// The ids of the first of these, at most
    /// [`MOST_CLASHES_NAMED`](crate::MOST_CLASHES_NAMED), in the order in which they were read.
    pub first: Ids,
    /// Why it brought no more.
    pub stop: Stop,
}

/// The reply to one command of a script.
#[derive(Debug, Drop)]
pub struct Line {
    /// How many entries the journal had on which the reply stands.
    pub at: u64,
    /// The command's place in the script, counted from 0.
    pub place: u32,
    /// What was said.
    pub reply: Reply,
}

/// Lines, in the order of their commands.
pub type Lines = Items<Line>;

/// What a client was told.
#[derive(Debug, Drop)]
pub struct ClientReport {
    /// A line for each command; where memory ran out, for the first ones alone.
    pub lines: Lines,
    /// Whether memory ran out.
    pub memory: bool,
}

/// What is left when all sources are read and all scripts are asked.
#[derive(Debug, Drop)]
pub struct Run<S> {
    /// The state of the server, with the journal.
    pub desk: Desk,
    /// What became of each source, in their order.
    pub collectors: Items<CollectorReport<S>>,
    /// What each client was told, in their order.
    pub clients: Items<ClientReport>,
    /// What the closing script was told.
    pub closing: ClientReport,
}
