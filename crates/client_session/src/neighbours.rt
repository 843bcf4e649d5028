//! The replies that tell the nearest events of a trace before and after an event.

ghost use Rattle.std.specs.Prelude.{◌≡◌, ◌+◌, ◌*◌, ◌≤◌, ℕ, List};
ghost use Rattle.causal_base.specs.declared.entry.Entry.{Entry};
ghost use Rattle.client_session.specs.declared.command.Command.TheVariants.{GreatestBefore, LeastAfter};
ghost use Rattle.client_session.specs.Replies.{HasReply, id_or_nothing, seen_of};

use answer_text::Reply;
use causal_base::{Answer, Book, EventId, Steps, Types};
use causal_laws::delivered_is_on_a_trace;
use cut_scroll::{greatest_before, least_after};
use std::sync::ledger::Ledger;

/// The greatest event of a trace that is before the event with this id.
pub(crate) fn greatest_before_reply<B: Book, L: Ledger>(
    book: &B,
    types: &Types,
    id: EventId,
    trace: u32,
    steps: &mut Steps<L>,
) -> Reply
    requires { types.now ≡ B.types book.now }
    ensures reply { (journal : List Entry) → B.stands_for book.now journal
        → HasReply (seen_of (B.types book.now) (B.clustering book.now) (B.collectors book.now)
        journal) (GreatestBefore id trace) result }
    ensures steps { steps.new ≤ steps.old + B.bound book.now }
{
    if trace >= types.traces() {
        return reply_of_no_trace(book, id);
    }
    match greatest_before(book, types, id, trace, steps) {
        Answer::Known(found) => id_or_nothing(found),
        Answer::NotYet(id) => Reply::NotYet(id),
    }
}

/// The least delivered event of a trace that the event with this id is before.
pub(crate) fn least_after_reply<B: Book, L: Ledger>(
    book: &B,
    types: &Types,
    id: EventId,
    trace: u32,
    steps: &mut Steps<L>,
) -> Reply
    requires { types.now ≡ B.types book.now }
    ensures reply { (journal : List Entry) → B.stands_for book.now journal
        → HasReply (seen_of (B.types book.now) (B.clustering book.now) (B.collectors book.now)
        journal) (LeastAfter id trace) result }
    ensures steps { steps.new ≤ steps.old + 20 * B.bound book.now }
{
    if trace >= types.traces() {
        return reply_of_no_trace(book, id);
    }
    match least_after(book, types, id, trace, steps) {
        Answer::Known(found) => id_or_nothing(found),
        Answer::NotYet(id) => Reply::NotYet(id),
    }
}

/// The reply where there is no such trace, and so no event of it.
fn reply_of_no_trace<B: Book>(book: &B, id: EventId) -> Reply
    ensures before { (journal : List Entry) → B.stands_for book.now journal → (trace : ℕ)
        → (B.types book.now).traces ≤ trace
        → HasReply (seen_of (B.types book.now) (B.clustering book.now) (B.collectors book.now)
        journal) (GreatestBefore id trace) result }
    ensures after { (journal : List Entry) → B.stands_for book.now journal → (trace : ℕ)
        → (B.types book.now).traces ≤ trace
        → HasReply (seen_of (B.types book.now) (B.clustering book.now) (B.collectors book.now)
        journal) (LeastAfter id trace) result }
{
    delivered_is_on_a_trace();
    match book.event(id) {
        Some(_) => Reply::Nothing,
        None => Reply::NotYet(id),
    }
}

/// The id of an event that was looked for, if there is one.
fn id_or_nothing(found: Option<EventId>) -> Reply
    ensures { result ≡ id_or_nothing found }
{
    match found {
        Some(id) => Reply::Id(id),
        None => Reply::Nothing,
    }
}
