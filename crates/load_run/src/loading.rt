ghost use Rattle.std.specs.Prelude.{◌≡◌, ◌≤◌, ◌∷◌, [], List, IfOk, length, map};
ghost use Rattle.std.specs.List.{list_any};
ghost use Rattle.causal_base.specs.declared.event.Event.{Event};
ghost use Rattle.causal_base.specs.declared.limits.TheConstants.{MOST_EVENTS};
ghost use Rattle.causal_base.specs.InTurn.{IsInTurn};
ghost use Rattle.load_run.specs.declared.limits.TheConstants.{COLLECTORS};
ghost use Rattle.load_run.specs.LoadTexts.{lines_of, shares};
ghost use Rattle.load_run.specs.Loads.{EndsWith, IsLoadable, IsLoaded, is_memory, load_events, load_setup};

use crate::limits::{COLLECTORS, START, TRACES};
use crate::loaded::Loaded;
use crate::past::events_before;
use crate::source::TextSource;
use crate::texts::sources_of;
use causal_base::{Book, Event, EventId, Types};
use causal_laws::in_turn_is_settled;
use client_session::Script;
use cluster_levels::Sizes;
use event_book::Desk;
use load_laws::{history_is_delivered, in_turn_takes_all, lines_are_read_back};
use poet_serve::{CollectorReport, Stop, serve_in_turn};
use std::alloc::{AllocError, Global};
use workload::{Workload, workload_goes_whole};

/// Makes a list of so many events, writes it as the texts of three collectors, reads these back and
/// serves them on one thread, and tells what came of it. It fails where there is no memory.
pub fn load(alloc: Global, events: u32) -> Result<Loaded, AllocError>
    requires { events ≤ MOST_EVENTS }
    ensures told { IfOk result IsLoaded }
    ensures events { IfOk result (λ told. told.events ≡ events) }
{
    workload_goes_whole();
    let types = Types::builtin(alloc, TRACES)?;
    let (sources, last) = make_sources(alloc, &types, events)?;
    let desk = serve(alloc, &types, sources)?;
    Ok(tell(&desk, events, last))
}

/// The sources of a list of so many events, and the id of its last one.
fn make_sources(
    alloc: Global,
    types: &Types,
    events: u32,
) -> Result<(Vec<TextSource>, Option<EventId>), AllocError>
    requires few { events ≤ MOST_EVENTS }
    requires types { types.now ≡ load_setup.types }
    ensures sources { IfOk result (λ made. made.0.items
        ≡ map (lines_of types.now) (shares (load_events events))) }
    ensures last { IfOk result (λ made. EndsWith (load_events events) made.1) }
{
    workload_goes_whole();
    let list = Workload::make(alloc, events, START, TRACES)?;
    let sources = sources_of(alloc, types, list.as_slice())?;
    Ok((sources, last_id(list.as_slice())))
}

/// The id of the last event, if there is one.
fn last_id(events: &[Event]) -> Option<EventId>
    ensures { EndsWith events.now result }
{
    let last = events.last()?;
    Some(last.id)
}

/// The desk that has served these sources. It fails where there was no memory.
fn serve(alloc: Global, types: &Types, sources: Vec<TextSource>) -> Result<Desk, AllocError>
    requires types { types.now ≡ load_setup.types }
    requires collectors { length sources.items ≡ COLLECTORS }
    ensures setup { IfOk result (λ desk. desk.setup ≡ load_setup) }
    ensures in_turn { IfOk result (λ desk. (events : List Event) → IsLoadable types.now events
        → sources.items ≡ map (lines_of types.now) (shares events)
        → IsInTurn types.now MOST_EVENTS (shares events) desk.journal) }
{
    lines_are_read_back();
    in_turn_takes_all();
    // Reading it shows that the types are a table.
    let _traces = types.traces();
    let desk = Desk::new(alloc, types.copy(alloc)?, level_sizes(), COLLECTORS, 1)?;
    let closing = Script::empty(alloc);
    let Ok(run) = serve_in_turn(alloc, desk, types, sources, &[], &closing) else {
        return Err(AllocError);
    };
    if ran_out(run.collectors.as_slice()) {
        return Err(AllocError);
    }
    Ok(run.desk)
}

/// The sizes of the levels.
fn level_sizes() -> Sizes
    ensures { result ≡ load_setup.sizes }
{
    match Sizes::new(&[8, 32]) {
        Ok(sizes) => sizes,
        Err(_) => unreachable!(),
    }
}

/// Whether a collector stopped for want of memory.
fn ran_out<S>(reports: &[CollectorReport<S>]) -> bool
    ensures { result ≡ list_any (λ report. is_memory report.stop) reports.now }
{
    reports
        .iter()
        .any(|report| matches!(report.stop, Stop::Memory))
}

/// What came of a load of so many events, the last of which has this id.
fn tell(desk: &Desk, events: u32, last: Option<EventId>) -> Loaded
    requires few { events ≤ MOST_EVENTS }
    requires setup { desk.now.setup ≡ load_setup }
    requires in_turn { IsInTurn load_setup.types MOST_EVENTS (shares (load_events events))
        desk.now.journal }
    requires last { EndsWith (load_events events) last }
    ensures told { IsLoaded result }
    ensures events { result.events ≡ events }
{
    workload_goes_whole();
    in_turn_takes_all();
    in_turn_is_settled();
    history_is_delivered();
    let past = match last {
        Some(id) => events_before(desk, id),
        None => 0,
    };
    Loaded {
        events,
        entries: desk.seen(),
        parts: desk.total_parts(),
        full: desk.full_stamps(),
        past,
    }
}
