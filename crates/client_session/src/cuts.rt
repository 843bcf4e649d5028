//! The replies that move the cut of a session and show it. The memory for what is shown is taken
//! before the cut moves, so where there is none the cut is as before.

ghost use Rattle.std.specs.Prelude.{◌≡◌, ◌+◌, ◌*◌, ◌≤◌, List, length, IfOk, OnErr};
ghost use Rattle.causal_base.specs.declared.entry.Entry.{Entry};
ghost use Rattle.causal_base.specs.Journal.{delivered_by};
ghost use Rattle.client_session.specs.declared.command.Command.TheVariants.{CutAll, CutTo, CutBack, CutHas};
ghost use Rattle.client_session.specs.Replies.{IsEmptyCut, IsReply, seen_of};
ghost use Rattle.cut_scroll.specs.Cuts.{IsConsistent};

use answer_text::Reply;
use causal_base::{Answer, Book, Counts, EventId, Steps};
use cut_scroll::{Cut, ends_are_consistent};
use std::alloc::{AllocError, Global};
use std::sync::ledger::Ledger;

/// Makes the cut empty, and shows it.
pub(crate) fn cut_none_reply(alloc: Global, cut: &mut Cut) -> Result<Reply, AllocError>
    ensures empty { IfOk result (λ reply. IsEmptyCut (length cut.old) cut.new) }
    ensures shown { IfOk result (λ reply. reply ≡ Reply.Cut cut.new) }
    ensures unchanged { OnErr result (cut.new ≡ cut.old) }
{
    let room = room_for(alloc, cut)?;
    cut.clear();
    Ok(shown(room, cut))
}

/// Makes the cut all delivered events, and shows it. It is consistent before, and again after.
pub(crate) fn cut_all_reply<B: Book>(
    alloc: Global,
    cut: &mut Cut,
    book: &B,
) -> Result<Reply, AllocError>
    requires { (journal : List Entry) → B.stands_for book.now journal
        → IsConsistent (B.types book.now) (delivered_by journal) cut.old }
    ensures reply { IfOk result (λ reply. (journal : List Entry) → B.stands_for book.now journal
        → IsReply (seen_of (B.types book.now) (B.clustering book.now) (B.collectors book.now)
        journal) cut.old CutAll reply cut.new) }
    ensures consistent { (journal : List Entry) → B.stands_for book.now journal
        → IsConsistent (B.types book.now) (delivered_by journal) cut.new }
    ensures unchanged { OnErr result (cut.new ≡ cut.old) }
{
    ends_are_consistent();
    // That there is a journal shows that the cut has a count for each trace.
    let _traces = book.traces();
    let room = room_for(alloc, cut)?;
    cut.all(book);
    Ok(shown(room, cut))
}

/// Moves the cut forward, to the least consistent one that has all of it and the event with this
/// id, and shows it. It is consistent before, and again after.
pub(crate) fn cut_to_reply<B: Book, L: Ledger>(
    alloc: Global,
    cut: &mut Cut,
    book: &B,
    id: EventId,
    steps: &mut Steps<L>,
) -> Result<Reply, AllocError>
    requires { (journal : List Entry) → B.stands_for book.now journal
        → IsConsistent (B.types book.now) (delivered_by journal) cut.old }
    ensures reply { IfOk result (λ reply. (journal : List Entry) → B.stands_for book.now journal
        → IsReply (seen_of (B.types book.now) (B.clustering book.now) (B.collectors book.now)
        journal) cut.old (CutTo id) reply cut.new) }
    ensures consistent { (journal : List Entry) → B.stands_for book.now journal
        → IsConsistent (B.types book.now) (delivered_by journal) cut.new }
    ensures unchanged { OnErr result (cut.new ≡ cut.old) }
    ensures steps { steps.new ≤ steps.old + B.bound book.now }
{
    // That there is a journal shows that the cut keeps its length.
    let _traces = book.traces();
    let room = room_for(alloc, cut)?;
    match cut.to(book, id, steps) {
        Answer::Known(()) => Ok(shown(room, cut)),
        Answer::NotYet(id) => Ok(Reply::NotYet(id)),
    }
}

/// Moves the cut back, to the greatest consistent one within it that hasn't the event with this id,
/// and shows it. It is consistent before, and again after.
pub(crate) fn cut_back_reply<B: Book, L: Ledger>(
    alloc: Global,
    cut: &mut Cut,
    book: &B,
    id: EventId,
    steps: &mut Steps<L>,
) -> Result<Reply, AllocError>
    requires { (journal : List Entry) → B.stands_for book.now journal
        → IsConsistent (B.types book.now) (delivered_by journal) cut.old }
    ensures reply { IfOk result (λ reply. (journal : List Entry) → B.stands_for book.now journal
        → IsReply (seen_of (B.types book.now) (B.clustering book.now) (B.collectors book.now)
        journal) cut.old (CutBack id) reply cut.new) }
    ensures consistent { (journal : List Entry) → B.stands_for book.now journal
        → IsConsistent (B.types book.now) (delivered_by journal) cut.new }
    ensures unchanged { OnErr result (cut.new ≡ cut.old) }
    ensures steps { steps.new
        ≤ steps.old + 20 * (B.types book.now).traces * B.bound book.now }
{
    // That there is a journal shows that the cut keeps its length.
    let _traces = book.traces();
    let room = room_for(alloc, cut)?;
    match cut.back(book, id, steps) {
        Answer::Known(()) => Ok(shown(room, cut)),
        Answer::NotYet(id) => Ok(Reply::NotYet(id)),
    }
}

/// Whether the cut has the event with this id.
pub(crate) fn cut_has_reply<B: Book>(cut: &Cut, book: &B, id: EventId) -> Reply
    ensures { (journal : List Entry) → B.stands_for book.now journal
        → IsReply (seen_of (B.types book.now) (B.clustering book.now) (B.collectors book.now)
        journal) cut.now (CutHas id) result cut.now }
{
    let Some(_) = book.event(id) else {
        return Reply::NotYet(id);
    };
    if cut.has(id) { Reply::Yes } else { Reply::No }
}

/// Room for the counts of a cut. It fails where there is no memory.
fn room_for(alloc: Global, cut: &Cut) -> Result<Vec<u32>, AllocError>
    ensures { IfOk result (λ room. length room.items ≡ length cut.now) }
{
    vec![in alloc; 0; cut.counts().len()]
}

/// The reply that shows the counts of a cut, in room that there is for them.
fn shown(mut room: Vec<u32>, cut: &Cut) -> Reply
    requires { length room.items ≡ length cut.now }
    ensures { result ≡ Reply.Cut cut.now }
{
    room.copy_from_slice(cut.counts());
    Reply::Cut(Counts::new(room))
}
