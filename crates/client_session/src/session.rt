ghost use Rattle.std.specs.Prelude.{◌≡◌, ◌+◌, ◌*◌, ◌≤◌, List, IfOk, OnErr};
ghost use Rattle.causal_base.specs.declared.entry.Entry.{Entry};
ghost use Rattle.causal_base.specs.Journal.{delivered_by};
ghost use Rattle.client_session.specs.Replies.{IsEmptyCut, IsReply, TakesMemory, most_asked, seen_of};
ghost use Rattle.cut_scroll.specs.Cuts.{IsConsistent};

use crate::command::Command;
use crate::cuts::{cut_all_reply, cut_back_reply, cut_has_reply, cut_none_reply, cut_to_reply};
use crate::neighbours::{greatest_before_reply, least_after_reply};
use crate::replies::{
    await_reply, before_reply, count_reply, event_reply, relation_reply, stamp_reply,
};
use answer_text::Reply;
use causal_base::{Book, Steps, Types};
use cut_scroll::{Cut, ends_are_consistent};
use std::alloc::{AllocError, Global};
use std::marker::Model;
use std::sync::ledger::Ledger;

/// What a client has from one question to the next: a cut. Contracts see its counts.
#[derive(Debug, Drop)]
pub struct Session {
    cut: Cut,
}

impl Model for Session {
    ghost use Rattle.std.specs.Prelude.{ℕ, List};

    ghost Value = { List ℕ };

    ghost view = { λ s. s.cut };
}

impl Session {
    /// The empty cut, over so many traces. It fails where there is no memory.
    pub fn new(alloc: Global, traces: u32) -> Result<Session, AllocError>
        ensures { IfOk result (IsEmptyCut traces) }
    {
        Ok(Session {
            cut: Cut::none(alloc, traces)?,
        })
    }

    /// The reply to a command, of the book's journal; the types are those of the book, and the cut
    /// is consistent for it, as it is again after it. Where a reply takes memory, as those do that
    /// show an event, a stamp or a cut, it fails where there is none; the session is then as
    /// before.
    pub fn ask<B: Book, L: Ledger>(
        &mut self,
        alloc: Global,
        book: &B,
        types: &Types,
        command: &Command,
        steps: &mut Steps<L>,
    ) -> Result<Reply, AllocError>
        requires types { types.now ≡ B.types book.now }
        requires consistent { (journal : List Entry) → B.stands_for book.now journal
            → IsConsistent types.now (delivered_by journal) self.old }
        ensures reply { IfOk result (λ reply. (journal : List Entry)
            → B.stands_for book.now journal
            → IsReply (seen_of types.now (B.clustering book.now) (B.collectors book.now) journal)
            self.old command.now reply self.new) }
        ensures consistent { (journal : List Entry) → B.stands_for book.now journal
            → IsConsistent types.now (delivered_by journal) self.new }
        ensures memory { OnErr result (TakesMemory command.now) }
        ensures unchanged { OnErr result (self.new ≡ self.old) }
        ensures steps { steps.new
            ≤ steps.old + most_asked types.now.traces command.now * B.bound book.now }
    {
        match command {
            Command::Before(a, b) => Ok(before_reply(book, types, *a, *b, steps)),
            Command::Relation(a, b) => Ok(relation_reply(book, types, *a, *b, steps)),
            Command::Event(id) => event_reply(alloc, book, *id),
            Command::Stamp(id) => stamp_reply(alloc, book, *id),
            Command::GreatestBefore(id, trace) => {
                Ok(greatest_before_reply(book, types, *id, *trace, steps))
            }
            Command::LeastAfter(id, trace) => {
                Ok(least_after_reply(book, types, *id, *trace, steps))
            }
            Command::CutNone => {
                ends_are_consistent();
                cut_none_reply(alloc, &mut self.cut)
            }
            Command::CutAll => cut_all_reply(alloc, &mut self.cut, book),
            Command::CutTo(id) => cut_to_reply(alloc, &mut self.cut, book, *id, steps),
            Command::CutBack(id) => cut_back_reply(alloc, &mut self.cut, book, *id, steps),
            Command::CutHas(id) => Ok(cut_has_reply(&self.cut, book, *id)),
            Command::Count => Ok(count_reply(book)),
            Command::Await(id) => Ok(await_reply(book, *id)),
        }
    }
}
