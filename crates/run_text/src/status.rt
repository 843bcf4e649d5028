ghost use Rattle.std.specs.Prelude.{◌≡◌, ◌||◌, List, nat_lt};
ghost use Rattle.std.specs.List.{list_any};
ghost use Rattle.client_session.specs.declared.command.Command.{Command};
ghost use Rattle.run_text.specs.Runs.{is_full, is_line, is_memory, is_read, lacked_memory, run_told, status_of};

use crate::counts::{count_accepted, count_delivered};
use poet_serve::{ClientReport, CollectorReport, Run, Stop};

/// The status of a run, from what it left; the scripts have no part in it.
pub fn status_of_run<S>(run: &Run<S>) -> u8
    ensures { (scripts : List (List Command)) (last : List Command)
        → result ≡ status_of (run_told run.now scripts last) }
{
    let collectors = run.collectors.as_slice();
    if any_read(collectors) {
        2
    } else if any_line(collectors) {
        6
    } else if any_full(collectors) {
        8
    } else if lacked_memory(run) {
        7
    } else if any_clash(collectors) {
        9
    } else if count_delivered(&run.desk) < count_accepted(&run.desk) {
        10
    } else {
        0
    }
}

/// Whether a failed read stopped a collector.
fn any_read<S>(collectors: &[CollectorReport<S>]) -> bool
    ensures { result ≡ list_any (λ report. is_read report.stop) collectors.now }
{
    collectors
        .iter()
        .any(|report| matches!(report.stop, Stop::Read))
}

/// Whether a fault of a line stopped a collector.
fn any_line<S>(collectors: &[CollectorReport<S>]) -> bool
    ensures { result ≡ list_any (λ report. is_line report.stop) collectors.now }
{
    collectors
        .iter()
        .any(|report| matches!(report.stop, Stop::Line(_)))
}

/// Whether the limit stopped a collector.
fn any_full<S>(collectors: &[CollectorReport<S>]) -> bool
    ensures { result ≡ list_any (λ report. is_full report.stop) collectors.now }
{
    collectors
        .iter()
        .any(|report| matches!(report.stop, Stop::Full(_)))
}

/// Whether want of memory stopped a collector.
fn any_memory<S>(collectors: &[CollectorReport<S>]) -> bool
    ensures { result ≡ list_any (λ report. is_memory report.stop) collectors.now }
{
    collectors
        .iter()
        .any(|report| matches!(report.stop, Stop::Memory))
}

/// Whether events of a collector clashed.
fn any_clash<S>(collectors: &[CollectorReport<S>]) -> bool
    ensures { result ≡ list_any (λ report. nat_lt 0 report.clashes) collectors.now }
{
    collectors.iter().any(|report| report.clashes > 0)
}

/// Whether memory ran out for a client.
fn any_client_memory(clients: &[ClientReport]) -> bool
    ensures { result ≡ list_any (λ client. client.memory) clients.now }
{
    clients.iter().any(|client| client.memory)
}

/// Whether memory ran out, for a collector, a client or the closing script.
fn lacked_memory<S>(run: &Run<S>) -> bool
    ensures { (scripts : List (List Command)) (last : List Command)
        → result ≡ lacked_memory (run_told run.now scripts last) }
{
    any_memory(run.collectors.as_slice())
        || any_client_memory(run.clients.as_slice())
        || run.closing.memory
}
