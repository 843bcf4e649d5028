ghost use Rattle.std.specs.Prelude.{◌≡◌, ◌≤◌, ◌⊎◌, ℕ, List, map, string_bytes};
ghost use Rattle.causal_base.specs.declared.limits.TheConstants.{MOST_EVENTS};
ghost use Rattle.command_line.specs.Asking.{asked_by};
ghost use Rattle.command_line.specs.Plans.{IsPlan};
ghost use Rattle.poet_io.specs.FilesState.{FilesState};
ghost use Rattle.poet_io.specs.Writes.{IsWritten, IsCutShort};
ghost use Rattle.poet_top.specs.Ending.{IsToldOf};
ghost use Rattle.poet_top.specs.Ends.{Ends, EndsAsked, EndsLoad, EndsOver};
ghost use Rattle.poet_top.specs.FaultOutcome.{outcome_of_fault};
ghost use Rattle.poet_top.specs.Outcome.{Answered, NotBegun, IsTold};
ghost use Rattle.run_files.specs.Troubles.{trouble_of};

use crate::answer::AnswerLine;
use crate::ask::ask;
use crate::fault::Fault;
use crate::replay::replay;
use causal_base::Answer;
use command_line::{AskPlan, Plan, plan_of};
use load_run::load;
use poet_io::{Files, Sink};
use std::alloc::Global;
use text_buffer::{Printed, put_whole};

/// The status where the answer was written, or what came of a load.
const ANSWERED: u8 = 0;

/// The status where a write failed.
pub(crate) const WRITE_FAILED: u8 = 3;

/// Does what the words say, which are those after the program's name, over a folder of files, and
/// writes the outcome. It answers the status that the program ends with. Everything is written in
/// pieces of some 8 KiB; the status is 3 where a write failed.
///
/// The words `ask EVENTS A B` ask whether the event A happened before the event B, over the events
/// of the file EVENTS. Status 0 comes with the answer. Any other has one line written that says
/// why: 1 where the words ask for nothing, 2 where the file is absent, doesn't open or can't be
/// read, 6 with the first line that is no event and what is wrong with it, 7 where memory ran out,
/// 8 where its events have more than 10,000 different ids. The file may have up to 1,073,741,824
/// bytes.
///
/// The words `replay [--levels LIST] [--after W] TARGET ITEM ..` feed files of events (`e:NAME`) to
/// the server one after another, over the traces and types of TARGET, ask the scripts of clients
/// (`c:NAME`) and the closing script (`z:NAME`), and have the journal written with what each was
/// told. Before it one line is written with status 1, 2, 4 (the target is refused), 5 (a script is)
/// or 7 where it doesn't come about. After it the status is the first that applies: 2 where a read
/// of a file of events failed, 6 where one of its lines has a fault, 8 where 400,000 events came
/// and there were more, 7 where memory ran out, 9 where two events have one id, 10 where events are
/// held, else 0.
///
/// The words `load N` make a list of N events, up to 400,000, from a number, serve it as the texts
/// of three collectors, and have six lines written: how many events there are, how many entries the
/// journal has, how many numbers the stamps have, how many of them have all traces, how many events
/// are before the last one, and the status, which is 0. It is 7 where memory ran out.
pub fn poet_still<F: Files, K: Sink>(
    alloc: Global,
    words: &[String],
    files: &mut F,
    out: &mut K,
) -> u8
    // The words have an outcome over the folder, and its text was written, or a prefix of it.
    ensures ends { IsToldOf (Ends (map string_bytes words.now) (F.state files.old)
        (F.state files.new)) result (K.state out.old) (K.state out.new) }
{
    match plan_of(words) {
        Some(plan) => carry_out(alloc, plan, files, out),
        None => refuse(&Fault::Words, out),
    }
}

/// Does what words ask for, writes the outcome, and answers the status.
fn carry_out<F: Files, K: Sink>(alloc: Global, plan: Plan<'_>, files: &mut F, out: &mut K) -> u8
    requires { (words : List (List ℕ)) × IsPlan words (asked_by plan) }
    ensures { IsToldOf (EndsAsked (asked_by plan.entry) (F.state files.old) (F.state files.new))
        result (K.state out.old) (K.state out.new) }
{
    match plan {
        Plan::Ask(plan) => ask_and_tell(alloc, &plan, files, out),
        Plan::Replay(plan) => replay(alloc, &plan, files, out),
        Plan::Load(events) => load_and_tell(alloc, events, out),
    }
}

/// Asks a question of a file, writes the outcome, and answers the status.
fn ask_and_tell<F: Files, K: Sink>(
    alloc: Global,
    plan: &AskPlan<'_>,
    files: &mut F,
    out: &mut K,
) -> u8
    ensures { IsToldOf (EndsOver plan.now.name.now plan.now.a plan.now.b (F.state files.old)
        (F.state files.new)) result (K.state out.old) (K.state out.new) }
{
    match ask(alloc, plan, files) {
        Ok(answer) => tell(answer, out),
        Err(fault) => refuse(&fault, out),
    }
}

/// Makes a load of so many events, writes what came of it, and answers the status.
fn load_and_tell<K: Sink>(alloc: Global, events: u32, out: &mut K) -> u8
    requires { events ≤ MOST_EVENTS }
    ensures { (files : FilesState) → IsToldOf (EndsLoad events files files) result
        (K.state out.old) (K.state out.new) }
{
    match load(alloc, events) {
        Ok(loaded) => put_with(&loaded, ANSWERED, out),
        Err(_) => refuse(&Fault::Memory, out),
    }
}

/// Writes the answer, and answers the status.
fn tell<K: Sink>(answer: Answer<bool>, out: &mut K) -> u8
    ensures { IsTold (Answered answer) result (K.state out.old) (K.state out.new) }
{
    put_with(&AnswerLine { answer }, ANSWERED, out)
}

/// Writes why there is no answer, and answers the status.
fn refuse<K: Sink>(fault: &Fault<'_>, out: &mut K) -> u8
    ensures { IsTold (outcome_of_fault fault.now) result (K.state out.old) (K.state out.new) }
{
    put_with(fault, fault.status(), out)
}

/// Writes why a run didn't begin, and answers the status.
pub(crate) fn refuse_run<K: Sink>(fault: &run_files::Fault<'_>, out: &mut K) -> u8
    ensures { IsTold (NotBegun (trouble_of fault.now)) result (K.state out.old)
        (K.state out.new) }
{
    put_with(fault, fault.status(), out)
}

/// Writes a text, and answers its status, or the one for a write that failed.
fn put_with<K: Sink, T: Printed>(one: &T, status: u8, out: &mut K) -> u8
    requires { T.printable one.now }
    ensures { (IsWritten (K.state out.old) (K.state out.new) (T.text one.now)
        × (result ≡ status))
        ⊎ (IsCutShort (K.state out.old) (K.state out.new) (T.text one.now)
        × (result ≡ WRITE_FAILED)) }
{
    match put_whole(out, one) {
        Ok(()) => status,
        Err(_) => WRITE_FAILED,
    }
}
