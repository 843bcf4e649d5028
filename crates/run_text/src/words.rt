//! Writes the words of a line.

ghost use Rattle.std.specs.Prelude.{◌++◌, codes};
ghost use Rattle.std.specs.List.{flat_map};
ghost use Rattle.answer_text.specs.Texts.{text_of_count, IsPrintable, text_of_reply};
ghost use Rattle.causal_base.specs.Spelling.{id_text};
ghost use Rattle.client_session.specs.Commands.{command_text};
ghost use Rattle.poet_io.specs.Writes.{Writes};
ghost use Rattle.run_text.specs.Lines.{text_of_after, text_of_client, text_of_clash, text_of_collector, text_of_levels, text_of_stop, with_number};

use answer_text::{Reply, put_id, put_number, put_reply};
use causal_base::{EventId, Types};
use client_session::{Command, put_command};
use cluster_levels::Sizes;
use poet_io::{Failed, Sink, put};
use poet_serve::Stop;
use raw_reader::LineError;

/// Writes a word and a number behind it.
pub(crate) fn put_with_number<K: Sink>(out: &mut K, word: &[u8], number: u64) -> Result<(), Failed>
    ensures { Writes (K.state out.old) (K.state out.new) (with_number word.now number) result }
{
    put(out, word)?;
    put_number(out, number)
}

/// Writes the sizes of the levels, and from when on clusters merge.
pub(crate) fn put_levels<K: Sink>(out: &mut K, sizes: &Sizes, after: u32) -> Result<(), Failed>
    ensures { Writes (K.state out.old) (K.state out.new) (text_of_levels sizes.now after) result }
{
    put(out, b"levels")?;
    put_sizes(out, sizes)?;
    put_after(out, after)
}

/// Writes sizes, each behind a space.
fn put_sizes<K: Sink>(out: &mut K, sizes: &Sizes) -> Result<(), Failed>
    ensures { Writes (K.state out.old) (K.state out.new) (flat_map text_of_count sizes.now) result }
{
    for level in 0..sizes.levels() {
        put_with_number(out, b" ", sizes.size(level + 1) as u64)?;
    }
    Ok(())
}

/// Writes from which communication of two clusters on they merge, where it isn't the first.
fn put_after<K: Sink>(out: &mut K, after: u32) -> Result<(), Failed>
    ensures { Writes (K.state out.old) (K.state out.new) (text_of_after after) result }
{
    if after == 1 {
        return Ok(());
    }
    put_with_number(out, b" after ", after as u64)
}

/// Writes the number of a client, and how many lines follow.
pub(crate) fn put_client_head<K: Sink>(out: &mut K, client: u64, count: u64) -> Result<(), Failed>
    ensures { Writes (K.state out.old) (K.state out.new) (text_of_client client count) result }
{
    put_with_number(out, b"client ", client)?;
    put_with_number(out, b" ", count)
}

/// Writes on how many entries of the journal a command was asked, the command, and its reply.
pub(crate) fn put_asked<K: Sink>(
    out: &mut K,
    types: &Types,
    at: u64,
    command: &Command,
    reply: &Reply,
) -> Result<(), Failed>
    requires { IsPrintable types.now reply.now }
    ensures { Writes (K.state out.old) (K.state out.new)
        (with_number (codes "at ") at ++ (codes " " ++ command_text command.now)
        ++ (codes " = " ++ text_of_reply types.now reply.now)) result }
{
    put_with_number(out, b"at ", at)?;
    put(out, b" ")?;
    put_command(out, command)?;
    put(out, b" = ")?;
    put_reply(out, types, reply)
}

/// Writes the number of a collector, what became of its events, and why it brought no more.
pub(crate) fn put_collector_head<K: Sink>(
    out: &mut K,
    collector: u64,
    accepted: u32,
    repeats: u64,
    clashes: u64,
    stop: Stop,
) -> Result<(), Failed>
    ensures { Writes (K.state out.old) (K.state out.new)
        (text_of_collector collector accepted repeats clashes stop) result }
{
    put_with_number(out, b"collector ", collector)?;
    put_with_number(out, b" accepted ", accepted as u64)?;
    put_with_number(out, b" repeats ", repeats)?;
    put_with_number(out, b" clashes ", clashes)?;
    put(out, b" ")?;
    put_stop(out, stop)
}

/// Writes why a collector brought no more.
fn put_stop<K: Sink>(out: &mut K, stop: Stop) -> Result<(), Failed>
    ensures { Writes (K.state out.old) (K.state out.new) (text_of_stop stop) result }
{
    match stop {
        Stop::End => put(out, b"end"),
        Stop::Read => put(out, b"read"),
        Stop::Line(error) => put_line_error(out, error),
        Stop::Full(id) => put_with_id(out, b"full ", id),
        Stop::Memory => put(out, b"memory"),
    }
}

/// Writes a line's number and what is wrong with it.
fn put_line_error<K: Sink>(out: &mut K, error: LineError) -> Result<(), Failed>
    ensures { Writes (K.state out.old) (K.state out.new) (text_of_stop (Stop.Line error)) result }
{
    put_with_number(out, b"line ", error.line)?;
    put(out, b" ")?;
    put(out, error.cause.name().as_bytes())
}

/// Writes the id of an event that clashed.
pub(crate) fn put_clash<K: Sink>(out: &mut K, id: EventId) -> Result<(), Failed>
    ensures { Writes (K.state out.old) (K.state out.new) (text_of_clash id) result }
{
    put_with_id(out, b"clash ", id)
}

/// Writes a word and an id behind it.
fn put_with_id<K: Sink>(out: &mut K, word: &[u8], id: EventId) -> Result<(), Failed>
    ensures { Writes (K.state out.old) (K.state out.new) (word.now ++ id_text id) result }
{
    put(out, word)?;
    put_id(out, id)
}
