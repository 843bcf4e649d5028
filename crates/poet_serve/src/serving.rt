//! A whole run on one thread.

ghost use Rattle.std.specs.Prelude.{◌≡◌, ◌≤◌, [], length, map, vec_len, vec_capacity, IfOk, IfErr};
ghost use Rattle.std.specs.Bool.{OnTrue, OnFalse};
ghost use Rattle.std.specs.List.{AllByRecursion};
ghost use Rattle.causal_base.specs.Journal.{IsSettled};
ghost use Rattle.client_session.specs.Replies.{HaveAllEnded};
ghost use Rattle.event_book.specs.Feeding.{Delivers};
ghost use Rattle.event_book.specs.Setups.{IsJournalOf};
ghost use Rattle.poet_serve.specs.Asking.{IsTold};
ghost use Rattle.poet_serve.specs.Transcripts.{AreToldFrom, HadMemory, HaveParts, IsMadeInTurn, IsTranscript, collected_by, seen_by};

use crate::asking::ask_in_turn;
use crate::collecting::collect_in_turn;
use crate::report::{ClientReport, CollectorReport, Run};
use causal_base::{Items, Types};
use causal_laws::legal_prefix;
use client_session::Script;
use event_book::Desk;
use poet_io::Source;
use std::alloc::Global;

/// Reads the sources one after the other, each as the collector of its place, feeds what they bring
/// to a desk, and then asks the scripts of the clients and the closing script. The desk is new and
/// has as many collectors as there are sources; the types are its own.
///
/// It fails where there is no memory for the lists of reports, and then it hands the sources back,
/// unread. What happens for want of memory after that is told in the reports.
pub fn serve_in_turn<S: Source>(
    alloc: Global,
    desk: Desk,
    types: &Types,
    sources: Vec<S>,
    scripts: &[Script],
    closing: &Script,
) -> Result<Run<S>, Vec<S>>
    requires new { desk.journal ≡ [] }
    requires types { types.now ≡ desk.setup.types }
    requires collectors { desk.setup.collectors ≡ length sources.items }
    ensures setup { IfOk result (λ run. run.desk.setup ≡ desk.setup) }
    ensures one_each { IfOk result (λ run. length run.collectors ≡ length sources.items) }
    ensures transcript { IfOk result (λ run. IsTranscript desk.setup run.desk.journal
        (collected_by S.state sources.items run.collectors) scripts.now run.clients closing.now
        run.closing) }
    // The clients are asked when all is read.
    ensures clients_whole { IfOk result (λ run. AreToldFrom (seen_by desk.setup run.desk.journal)
        (length run.desk.journal) scripts.now run.clients) }
    // Where no collector stopped for want of memory, one thread took their events in turn.
    ensures in_turn { IfOk result (λ run.
        AllByRecursion HadMemory (collected_by S.state sources.items run.collectors)
        → IsMadeInTurn desk.setup.types (collected_by S.state sources.items run.collectors)
        run.desk.journal) }
    ensures handed_back { IfErr result (λ back. back.items ≡ sources.items) }
{
    legal_prefix();
    let Ok(mut clients) = Vec::with_capacity(alloc, scripts.len()) else {
        return Err(sources);
    };
    let Ok(mut collectors) = Vec::with_capacity(alloc, sources.len()) else {
        return Err(sources);
    };
    let mut desk = desk;
    collect_all(alloc, &mut desk, types, sources, &mut collectors);
    let settled = settle_whole(alloc, &mut desk);
    ask_all(alloc, &desk, types, scripts, &mut clients);
    let closing = ask_last(alloc, &desk, types, closing, settled);
    Ok(Run {
        desk,
        collectors: Items::new(collectors),
        clients: Items::new(clients),
        closing,
    })
}

/// Delivers what is left that may go, and tells whether there was memory for all of it.
fn settle_whole(alloc: Global, desk: &mut Desk) -> bool
    ensures delivers { Delivers desk.old.setup.types desk.old.journal desk.new.journal }
    ensures settled { OnTrue result (IsSettled desk.new.setup.types desk.new.journal) }
    ensures is_journal { IsJournalOf desk.new.setup desk.new.journal }
    ensures setup { desk.new.setup ≡ desk.old.setup }
{
    let settled = desk.settle(alloc).is_ok();
    // Reading it shows that the journal is legal.
    let _setup = desk.setup();
    settled
}

/// Asks the closing script, and tells whether memory ran out, then or when the desk was settled.
fn ask_last(
    alloc: Global,
    desk: &Desk,
    types: &Types,
    closing: &Script,
    settled: bool,
) -> ClientReport
    requires types { types.now ≡ desk.now.setup.types }
    requires ended { HaveAllEnded (seen_by desk.now.setup desk.now.journal) }
    requires settled { OnTrue settled (IsSettled desk.now.setup.types desk.now.journal) }
    ensures told { IsTold (seen_by desk.now.setup desk.now.journal) closing.now
        (length desk.now.journal) result.lines result.memory }
    ensures settled { OnFalse result.memory (IsSettled desk.now.setup.types desk.now.journal) }
{
    let told = ask_in_turn(alloc, desk, types, closing);
    ClientReport {
        lines: told.lines,
        memory: told.memory || !settled,
    }
}

/// Reads the sources one after the other, and adds the report of each.
fn collect_all<S: Source>(
    alloc: Global,
    desk: &mut Desk,
    types: &Types,
    sources: Vec<S>,
    reports: &mut Vec<CollectorReport<S>>,
)
    requires new { desk.old.journal ≡ [] }
    requires types { types.now ≡ desk.old.setup.types }
    requires collectors { desk.old.setup.collectors ≡ length sources.items }
    requires none { reports.old.items ≡ [] }
    requires room { length sources.items ≤ vec_capacity reports.old }
    ensures one_each { length reports.new.items ≡ length sources.items }
    ensures as_many { length (collected_by S.state sources.items reports.new.items)
        ≡ length sources.items }
    ensures parts { HaveParts types.now desk.new.journal 0
        (collected_by S.state sources.items reports.new.items) }
    ensures in_turn { AllByRecursion HadMemory (collected_by S.state sources.items reports.new.items)
        → IsMadeInTurn types.now (collected_by S.state sources.items reports.new.items)
        desk.new.journal × IsSettled types.now desk.new.journal }
    ensures setup { desk.new.setup ≡ desk.old.setup }
{
    legal_prefix();
    // Reading it shows how few collectors there are.
    let _setup = desk.setup();
    let mut collector = 0;
    let mut rest = sources.into_iter();
    while let Some(source) = rest.next() {
        reports.push_reserved(collect_in_turn(alloc, desk, types, collector, source));
        collector += 1;
    }
    // A source can't be let go, so it is shown that none is left.
    rest.destroy_empty();
}

/// Asks the scripts one after the other, and adds what each client was told.
fn ask_all(
    alloc: Global,
    desk: &Desk,
    types: &Types,
    scripts: &[Script],
    reports: &mut Vec<ClientReport>,
)
    requires types { types.now ≡ desk.now.setup.types }
    requires ended { HaveAllEnded (seen_by desk.now.setup desk.now.journal) }
    requires none { reports.old.items ≡ [] }
    requires room { length scripts.now ≤ vec_capacity reports.old }
    ensures { AreToldFrom (seen_by desk.now.setup desk.now.journal) (length desk.now.journal)
        scripts.now reports.new.items }
{
    for script in scripts {
        reports.push_reserved(ask_in_turn(alloc, desk, types, script));
    }
}
