//! One client on one thread: its script is asked once each collector has ended.

ghost use Rattle.std.specs.Prelude.{◌≡◌, ◌≢◌, ◌<◌, ℕ, List, [], length, IfOk, OnOk};
ghost use Rattle.causal_base.specs.Journal.{IsLegal, delivered_by};
ghost use Rattle.client_session.specs.Replies.{HaveAllEnded, IsEmptyCut, IsReply};
ghost use Rattle.cut_scroll.specs.Cuts.{IsConsistent};
ghost use Rattle.poet_serve.specs.Asking.{IsTold};
ghost use Rattle.poet_serve.specs.Chains.{LeadTo};
ghost use Rattle.poet_serve.specs.Transcripts.{seen_by};

use crate::report::{ClientReport, Line, Lines};
use answer_text::Reply;
use causal_base::{Book, Steps, Types};
use client_session::{Command, Script, Session};
use cut_scroll::ends_are_consistent;
use event_book::Desk;
use std::alloc::{AllocError, Global};
use std::marker::Brand;
use std::sync::ledger::{Blank, Ledger};

/// Asks the commands of a script, one after another, of the whole journal of a desk in which each
/// collector has ended. It stops where memory runs out. The types are those of the desk.
pub(crate) fn ask_in_turn(
    alloc: Global,
    desk: &Desk,
    types: &Types,
    script: &Script,
) -> ClientReport
    requires types { types.now ≡ desk.now.setup.types }
    requires ended { HaveAllEnded (seen_by desk.now.setup desk.now.journal) }
    ensures { IsTold (seen_by desk.now.setup desk.now.journal) script.now
        (length desk.now.journal) result.lines result.memory }
{
    let mut lines = Vec::new(alloc);
    let asked = ask_each(alloc, desk, types, script, &mut lines);
    ClientReport {
        lines: Lines::new(lines),
        memory: asked.is_err(),
    }
}

/// Asks the commands of a script, and adds a line for each. It fails where there is no memory for
/// one; then there are those before it.
fn ask_each(
    alloc: Global,
    desk: &Desk,
    types: &Types,
    script: &Script,
    lines: &mut Vec<Line>,
) -> Result<(), AllocError>
    requires types { types.now ≡ desk.now.setup.types }
    requires ended { HaveAllEnded (seen_by desk.now.setup desk.now.journal) }
    requires none { lines.old.items ≡ [] }
    ensures lines { (cut : List ℕ) × (last : List ℕ) × IsEmptyCut types.now.traces cut
        × LeadTo (seen_by desk.now.setup desk.now.journal) script.now 0
        (length desk.now.journal) cut lines.new.items last }
    ensures all { OnOk result (length lines.new.items ≡ length script.now) }
{
    ends_are_consistent();
    // Reading it shows that the journal is legal.
    let _setup = desk.setup();
    let mut session = Session::new(alloc, types.traces())?;
    for place in 0..script.len() {
        let Some(command) = script.command(place) else {
            unreachable!()
        };
        let reply = ask_one::<Brand>(alloc, desk, types, command, &mut session, Blank::new(1))?;
        lines.push(Line {
            at: desk.seen(),
            place,
            reply,
        })?;
    }
    Ok(())
}

/// The reply to a command, of the whole journal of a desk. It isn't `Later`. It fails where there
/// is no memory for it.
fn ask_one<L: Ledger>(
    alloc: Global,
    desk: &Desk,
    types: &Types,
    command: &Command,
    session: &mut Session,
    blank: Blank,
) -> Result<Reply, AllocError>
    requires types { types.now ≡ desk.now.setup.types }
    requires ended { HaveAllEnded (seen_by desk.now.setup desk.now.journal) }
    requires legal { IsLegal desk.now.setup.types desk.now.journal }
    requires name { blank.name ≡ L.name }
    requires parts { blank.parts ≡ L.parts }
    requires some { 0 < blank.parts }
    requires consistent { IsConsistent types.now (delivered_by desk.now.journal) session.old }
    ensures reply { IfOk result (λ reply.
        IsReply (seen_by desk.now.setup desk.now.journal) session.old command.now reply
        session.new) }
    ensures told { IfOk result (λ reply. reply ≢ Reply.Later) }
    ensures consistent { IsConsistent types.now (delivered_by desk.now.journal) session.new }
{
    let mut steps = Steps::<L>::new(blank);
    session.ask(alloc, desk, types, command, &mut steps)
}
