//! The reply to each command, of a book's journal.

ghost use Rattle.std.specs.Prelude.{◌≡◌, ◌+◌, ◌*◌, ◌<◌, ◌≤◌, List, length, IfOk};
ghost use Rattle.causal_base.specs.declared.entry.Entry.{Entry};
ghost use Rattle.causal_base.specs.Journal.{delivered_by};
ghost use Rattle.causal_base.specs.Past.{HasEvent};
ghost use Rattle.client_session.specs.declared.command.Command.TheVariants.{Before, Relation, Event, Stamp, Count, Await};
ghost use Rattle.client_session.specs.StampParts.{ArePartsBelow};
ghost use Rattle.client_session.specs.Replies.{HasReply, seen_of, word_of};

use answer_text::Reply;
use causal_base::{Answer, Book, EventId, Parts, Related, Steps, Types};
use causal_laws::{delivered_are_counted, delivered_has_own_id, own_history_has_clock};
use std::alloc::{AllocError, Global};
use std::sync::ledger::Ledger;

/// Whether the first event happened before the second.
pub(crate) fn before_reply<B: Book, L: Ledger>(
    book: &B,
    types: &Types,
    a: EventId,
    b: EventId,
    steps: &mut Steps<L>,
) -> Reply
    requires { types.now ≡ B.types book.now }
    ensures reply { (journal : List Entry) → B.stands_for book.now journal
        → HasReply (seen_of (B.types book.now) (B.clustering book.now) (B.collectors book.now)
        journal) (Before a b) result }
    ensures steps { steps.new ≤ steps.old + B.bound book.now }
{
    match precedence::before(book, types, a, b, steps) {
        Answer::Known(true) => Reply::Yes,
        Answer::Known(false) => Reply::No,
        Answer::NotYet(id) => Reply::NotYet(id),
    }
}

/// How the first event lies to the second.
pub(crate) fn relation_reply<B: Book, L: Ledger>(
    book: &B,
    types: &Types,
    a: EventId,
    b: EventId,
    steps: &mut Steps<L>,
) -> Reply
    requires { types.now ≡ B.types book.now }
    ensures reply { (journal : List Entry) → B.stands_for book.now journal
        → HasReply (seen_of (B.types book.now) (B.clustering book.now) (B.collectors book.now)
        journal) (Relation a b) result }
    ensures steps { steps.new ≤ steps.old + 2 * B.bound book.now }
{
    match precedence::relation(book, types, a, b, steps) {
        Answer::Known(related) => word_of(related),
        Answer::NotYet(id) => Reply::NotYet(id),
    }
}

/// The word for how one event lies to another.
fn word_of(related: Related) -> Reply
    ensures { result ≡ word_of related }
{
    match related {
        Related::Before => Reply::Before,
        Related::After => Reply::After,
        Related::Concurrent => Reply::Concurrent,
        Related::Same => Reply::Same,
        Related::Partners => Reply::Partners,
    }
}

/// The event with this id. It fails where there is no memory.
pub(crate) fn event_reply<B: Book>(
    alloc: Global,
    book: &B,
    id: EventId,
) -> Result<Reply, AllocError>
    ensures { IfOk result (λ reply. (journal : List Entry) → B.stands_for book.now journal
        → HasReply (seen_of (B.types book.now) (B.clustering book.now) (B.collectors book.now)
        journal) (Event id) reply) }
{
    match book.event(id) {
        Some(event) => Ok(Reply::Shown(event.copy(alloc)?)),
        None => Ok(Reply::NotYet(id)),
    }
}

/// The stamp of the event with this id. It fails where there is no memory.
pub(crate) fn stamp_reply<B: Book>(
    alloc: Global,
    book: &B,
    id: EventId,
) -> Result<Reply, AllocError>
    ensures { IfOk result (λ reply. (journal : List Entry) → B.stands_for book.now journal
        → HasReply (seen_of (B.types book.now) (B.clustering book.now) (B.collectors book.now)
        journal) (Stamp id) reply) }
{
    delivered_has_own_id();
    own_history_has_clock();
    let Some(level) = book.stamp_level(id) else {
        return Ok(Reply::NotYet(id));
    };
    Ok(Reply::Stamped {
        level,
        parts: stamp_parts(alloc, book, id)?,
    })
}

/// The parts of the stamp of a delivered event. It fails where there is no memory.
fn stamp_parts<B: Book>(alloc: Global, book: &B, id: EventId) -> Result<Parts, AllocError>
    requires { (journal : List Entry) → B.stands_for book.now journal
        → HasEvent (delivered_by journal) id }
    ensures { IfOk result (λ parts. (journal : List Entry) → B.stands_for book.now journal
        → ArePartsBelow (seen_of (B.types book.now) (B.clustering book.now)
        (B.collectors book.now) journal) id (B.types book.now).traces parts) }
{
    let mut parts = Vec::new(alloc);
    for trace in 0..book.traces() {
        if let Some(number) = book.stamp_part(id, trace) {
            parts.push((trace, number))?;
        }
    }
    Ok(Parts::new(parts))
}

/// How many events were accepted, are delivered and are held.
pub(crate) fn count_reply<B: Book>(book: &B) -> Reply
    ensures { (journal : List Entry) → B.stands_for book.now journal
        → HasReply (seen_of (B.types book.now) (B.clustering book.now) (B.collectors book.now)
        journal) Count result }
{
    // That there is a journal shows that no more are delivered than were accepted.
    let _traces = book.traces();
    let accepted = book.accepted();
    let delivered = count_delivered(book);
    Reply::Counted {
        accepted,
        delivered,
        held: accepted - delivered,
    }
}

/// How many events are delivered.
fn count_delivered<B: Book>(book: &B) -> u32
    ensures { (journal : List Entry) → B.stands_for book.now journal
        → result ≡ length (delivered_by journal) }
{
    delivered_are_counted();
    // How many were accepted shows that the sum fits.
    let _accepted = book.accepted();
    let mut delivered = 0;
    for trace in 0..book.traces() {
        delivered += book.count(trace);
    }
    delivered
}

/// Whether the event with this id is delivered, or may still be, or won't.
pub(crate) fn await_reply<B: Book>(book: &B, id: EventId) -> Reply
    ensures { (journal : List Entry) → B.stands_for book.now journal
        → HasReply (seen_of (B.types book.now) (B.clustering book.now) (B.collectors book.now)
        journal) (Await id) result }
{
    if book.event(id).is_some() {
        Reply::Here
    } else if book.all_ended() {
        Reply::Closed
    } else {
        Reply::Later
    }
}
