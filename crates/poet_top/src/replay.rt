//! `replay`: the files are read in their order, their events are fed to a desk on one thread, the
//! scripts are asked, and what the run left is printed.

ghost use Rattle.std.specs.Prelude.{◌≡◌, ◌≤◌, List, [], length, map, IfErr, IfOk, IfSome};
ghost use Rattle.std.specs.List.{AllByRecursion};
ghost use Rattle.command_line.specs.Asking.{replay_of};
ghost use Rattle.command_line.specs.declared.limits.TheConstants.{MOST_NAMES};
ghost use Rattle.poet_serve.specs.Transcripts.{AreToldFrom, Collected, HadMemory, IsMadeInTurn, IsTranscript, collected_by, seen_by};
ghost use Rattle.poet_top.specs.Ending.{IsToldOf};
ghost use Rattle.poet_top.specs.Outcome.{Ran, IsTold};
ghost use Rattle.poet_top.specs.Replay.{EndsAtClosing, EndsAtRun, EndsAtScripts, EndsReplay, setup_of};
ghost use Rattle.run_files.specs.Sources.{AreOpenedAt, IsOpenIn, WereGivenBack};
ghost use Rattle.run_text.specs.Runs.{run_told};

use crate::top::{WRITE_FAILED, refuse_run};
use client_session::Script;
use command_line::ReplayPlan;
use event_book::Desk;
use poet_io::{Files, Sink, Source};
use poet_serve::{CollectorReport, Run, serve_in_turn};
use run_files::{
    Fault, give_back, give_back_all, open_sources, read_closing, read_scripts, read_target,
};
use run_text::{put_run, status_of_run};
use std::alloc::Global;
use target_desc::Target;

/// Replays the files of a plan, writes the outcome, and answers the status.
pub fn replay<F: Files, K: Sink>(
    alloc: Global,
    plan: &ReplayPlan<'_>,
    files: &mut F,
    out: &mut K,
) -> u8
    requires some { 1 ≤ length plan.now.events }
    ensures { IsToldOf (EndsReplay (replay_of plan.now) (F.state files.old) (F.state files.new))
        result (K.state out.old) (K.state out.new) }
{
    match read_target(alloc, files, plan.target) {
        Ok(target) => replay_with(alloc, plan, &target, files, out),
        Err(fault) => refuse_run(&fault, out),
    }
}

/// Replays the files of a plan whose target is read.
fn replay_with<F: Files, K: Sink>(
    alloc: Global,
    plan: &ReplayPlan<'_>,
    target: &Target,
    files: &mut F,
    out: &mut K,
) -> u8
    requires some { 1 ≤ length plan.now.events }
    ensures { IsToldOf (EndsAtScripts (replay_of plan.now) target.now (F.state files.old)
        (F.state files.new)) result (K.state out.old) (K.state out.new) }
{
    // Reading it shows how few clients there are.
    let _clients = plan.clients.len();
    match read_scripts(alloc, files, plan.clients.as_slice(), target) {
        Ok(scripts) => replay_asking(alloc, plan, target, &scripts, files, out),
        Err(fault) => refuse_run(&fault, out),
    }
}

/// Replays the files of a plan whose target and scripts of clients are read.
fn replay_asking<F: Files, K: Sink>(
    alloc: Global,
    plan: &ReplayPlan<'_>,
    target: &Target,
    scripts: &[Script],
    files: &mut F,
    out: &mut K,
) -> u8
    requires some { 1 ≤ length plan.now.events }
    ensures { IsToldOf (EndsAtClosing (replay_of plan.now) target.now scripts.now
        (F.state files.old) (F.state files.new)) result (K.state out.old) (K.state out.new) }
{
    match read_closing(alloc, files, plan.closing, target) {
        Ok(closing) => run_and_tell(alloc, plan, target, scripts, &closing, files, out),
        Err(fault) => refuse_run(&fault, out),
    }
}

/// Replays the files of events of a plan whose target and scripts are read.
fn run_and_tell<F: Files, K: Sink>(
    alloc: Global,
    plan: &ReplayPlan<'_>,
    target: &Target,
    scripts: &[Script],
    closing: &Script,
    files: &mut F,
    out: &mut K,
) -> u8
    requires some { 1 ≤ length plan.now.events }
    ensures { IsToldOf (EndsAtRun (replay_of plan.now) target.now scripts.now closing.now
        (F.state files.old) (F.state files.new)) result (K.state out.old) (K.state out.new) }
{
    let sources = match open_sources(alloc, files, plan.events.as_slice()) {
        Ok(sources) => sources,
        Err(fault) => return refuse_run(&fault, out),
    };
    match run_over(alloc, plan, target, sources, scripts, closing) {
        Ok(run) => tell_run(run, scripts, closing, files, out),
        Err(sources) => {
            give_back_all(files, sources);
            refuse_run(&Fault::Memory, out)
        }
    }
}

/// Runs over open sources, one for each collector. For want of memory they come back unread.
fn run_over<S: Source>(
    alloc: Global,
    plan: &ReplayPlan<'_>,
    target: &Target,
    sources: Vec<S>,
    scripts: &[Script],
    closing: &Script,
) -> Result<Run<S>, Vec<S>>
    requires some { 1 ≤ length plan.now.events }
    requires collectors { length sources.items ≡ length plan.now.events }
    ensures setup { IfOk result (λ run. run.desk.setup ≡ setup_of (replay_of plan.now) target.now) }
    ensures one_each { IfOk result (λ run. length run.collectors ≡ length sources.items) }
    ensures transcript { IfOk result (λ run. IsTranscript run.desk.setup run.desk.journal
        (collected_by S.state sources.items run.collectors) scripts.now run.clients closing.now
        run.closing) }
    ensures clients_whole { IfOk result (λ run.
        AreToldFrom (seen_by run.desk.setup run.desk.journal) (length run.desk.journal)
        scripts.now run.clients) }
    ensures in_turn { IfOk result (λ run.
        AllByRecursion HadMemory (collected_by S.state sources.items run.collectors)
        → IsMadeInTurn target.now.types (collected_by S.state sources.items run.collectors)
        run.desk.journal) }
    ensures handed_back { IfErr result (λ back. back.items ≡ sources.items) }
{
    let Some(desk) = desk_for(alloc, plan, target) else {
        return Err(sources);
    };
    serve_in_turn(alloc, desk, target.types(), sources, scripts, closing)
}

/// The desk of a plan, unless memory runs out.
fn desk_for(alloc: Global, plan: &ReplayPlan<'_>, target: &Target) -> Option<Desk>
    requires some { 1 ≤ length plan.now.events }
    ensures setup { IfSome result (λ desk. desk.setup ≡ setup_of (replay_of plan.now) target.now) }
    ensures new { IfSome result (λ desk. desk.journal ≡ []) }
{
    let types = target.types().copy(alloc).ok()?;
    let collectors = plan.events.len() as u32;
    Desk::new(alloc, types, plan.sizes.copy(), collectors, plan.after).ok()
}

/// Writes what a run left, gives its sources back in their order, and answers the status.
fn tell_run<F: Files, K: Sink>(
    run: Run<F::In>,
    scripts: &[Script],
    closing: &Script,
    files: &mut F,
    out: &mut K,
) -> u8
    requires transcript { (collected : List Collected) × IsTranscript run.desk.setup
        run.desk.journal collected scripts.now run.clients closing.now run.closing }
    requires open { AllByRecursion (IsOpenIn (F.state files.old).folder)
        (map (λ report. F.In.state report.source) run.collectors) }
    ensures told { IsTold (Ran (run_told run scripts.now closing.now)) result (K.state out.old)
        (K.state out.new) }
    ensures given_back { WereGivenBack (map (λ report. F.In.state report.source) run.collectors)
        (F.state files.old) (F.state files.new) }
{
    let status = put_text(&run, scripts, closing, out);
    let Run { collectors, .. } = run;
    give_back_read(files, collectors.into_vec());
    status
}

/// Writes the text of a run, and answers the status.
fn put_text<K: Sink, S>(run: &Run<S>, scripts: &[Script], closing: &Script, out: &mut K) -> u8
    requires { (collected : List Collected) × IsTranscript run.now.desk.setup
        run.now.desk.journal collected scripts.now run.now.clients closing.now run.now.closing }
    ensures { IsTold (Ran (run_told run.now scripts.now closing.now)) result (K.state out.old)
        (K.state out.new) }
{
    match put_run(out, run, scripts, closing) {
        Ok(()) => status_of_run(run),
        Err(_) => WRITE_FAILED,
    }
}

/// Gives back the sources of a run, in their order.
fn give_back_read<F: Files>(files: &mut F, reports: Vec<CollectorReport<F::In>>)
    requires { AllByRecursion (IsOpenIn (F.state files.old).folder)
        (map (λ report. F.In.state report.source) reports.items) }
    ensures { WereGivenBack (map (λ report. F.In.state report.source) reports.items)
        (F.state files.old) (F.state files.new) }
{
    let mut rest = reports.into_iter();
    while let Some(report) = rest.next() {
        let CollectorReport { source, .. } = report;
        give_back(files, source);
    }
    // A source can't be let go, so it is shown that none is left.
    rest.destroy_empty();
}
