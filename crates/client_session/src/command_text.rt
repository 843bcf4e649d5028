ghost use Rattle.client_session.specs.Commands.{command_text, with_id, with_ids, with_trace};
ghost use Rattle.poet_io.specs.Writes.{Writes};

use crate::command::Command;
use answer_text::{put_id, put_number};
use causal_base::EventId;
use poet_io::{Failed, Sink, put};

/// Writes a command as a line of a script has it, without the line's end.
pub fn put_command<K: Sink>(out: &mut K, command: &Command) -> Result<(), Failed>
    ensures { Writes (K.state out.old) (K.state out.new) (command_text command.now) result }
{
    match command {
        Command::Before(a, b) => put_with_ids(out, b"before", *a, *b),
        Command::Relation(a, b) => put_with_ids(out, b"relation", *a, *b),
        Command::Event(id) => put_with_id(out, b"event", *id),
        Command::Stamp(id) => put_with_id(out, b"stamp", *id),
        Command::GreatestBefore(id, trace) => put_with_trace(out, b"gp", *id, *trace),
        Command::LeastAfter(id, trace) => put_with_trace(out, b"ls", *id, *trace),
        Command::CutNone => put(out, b"cut none"),
        Command::CutAll => put(out, b"cut all"),
        Command::CutTo(id) => put_with_id(out, b"cut to", *id),
        Command::CutBack(id) => put_with_id(out, b"cut back", *id),
        Command::CutHas(id) => put_with_id(out, b"cut has", *id),
        Command::Count => put(out, b"count"),
        Command::Await(id) => put_with_id(out, b"await", *id),
    }
}

/// Writes a word, and an id behind it.
fn put_with_id<K: Sink>(out: &mut K, word: &[u8], id: EventId) -> Result<(), Failed>
    ensures { Writes (K.state out.old) (K.state out.new) (with_id word.now id) result }
{
    put(out, word)?;
    put(out, b" ")?;
    put_id(out, id)
}

/// Writes a word, and two ids behind it.
fn put_with_ids<K: Sink>(out: &mut K, word: &[u8], a: EventId, b: EventId) -> Result<(), Failed>
    ensures { Writes (K.state out.old) (K.state out.new) (with_ids word.now a b) result }
{
    put_with_id(out, word, a)?;
    put(out, b" ")?;
    put_id(out, b)
}

/// Writes a word, and an id and the number of a trace behind it.
fn put_with_trace<K: Sink>(out: &mut K, word: &[u8], id: EventId, trace: u32) -> Result<(), Failed>
    ensures { Writes (K.state out.old) (K.state out.new) (with_trace word.now id trace) result }
{
    put_with_id(out, word, id)?;
    put(out, b" ")?;
    put_number(out, trace as u64)
}
