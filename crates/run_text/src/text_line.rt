ghost use Rattle.poet_io.specs.Writes.{Writes};

use crate::words::{
    put_asked, put_clash, put_client_head, put_collector_head, put_levels, put_with_number,
};
use answer_text::{Reply, put_entry};
use causal_base::{EntryRef, EventId, Types};
use client_session::Command;
use cluster_levels::Sizes;
use poet_io::{Failed, Sink, put};
use poet_serve::Stop;
use text_buffer::Printed;

/// A line of the text of a run.
#[derive(Clone, Copy)]
pub(crate) enum TextLine<'a> {
    /// How many traces there are.
    Traces(u32),
    /// The sizes of the levels, and from which communication of two clusters on they may merge.
    Levels(&'a Sizes, u32),
    /// How many entries the journal has.
    Journal(u64),
    /// An entry of the journal.
    Entry(&'a Types, EntryRef<'a>),
    /// A client's number, and how many lines it has.
    Client(u64, u64),
    /// A command, with its reply on so many entries of the journal.
    Asked {
        types: &'a Types,
        at: u64,
        command: &'a Command,
        reply: &'a Reply,
    },
    /// How many lines the closing script has.
    Closing(u64),
    /// A collector's number, what became of its events, and why it brought no more.
    Collector {
        collector: u64,
        accepted: u32,
        repeats: u64,
        clashes: u64,
        stop: Stop,
    },
    /// The id of an event that clashed.
    Clash(EventId),
    /// How many events came and aren't delivered.
    Held(u32),
    /// The status of the run.
    Status(u8),
}

impl TextLine<'_> {
    ghost use Rattle.run_text.specs.TextLines.{text_of_text_line, IsPrintableTextLine};

    /// Writes the line without its end.
    fn put_unended<K: Sink>(&self, out: &mut K) -> Result<(), Failed>
        requires { IsPrintableTextLine self.now }
        ensures { Writes (K.state out.old) (K.state out.new) (text_of_text_line self.now) result }
    {
        match self {
            TextLine::Traces(traces) => put_with_number(out, b"traces ", *traces as u64),
            TextLine::Levels(sizes, after) => put_levels(out, sizes, *after),
            TextLine::Journal(entries) => put_with_number(out, b"journal ", *entries),
            TextLine::Entry(types, entry) => put_entry(out, types, *entry),
            TextLine::Client(client, count) => put_client_head(out, *client, *count),
            TextLine::Asked {
                types,
                at,
                command,
                reply,
            } => put_asked(out, types, *at, command, reply),
            TextLine::Closing(count) => put_with_number(out, b"closing ", *count),
            TextLine::Collector {
                collector,
                accepted,
                repeats,
                clashes,
                stop,
            } => put_collector_head(out, *collector, *accepted, *repeats, *clashes, *stop),
            TextLine::Clash(id) => put_clash(out, *id),
            TextLine::Held(held) => put_with_number(out, b"held ", *held as u64),
            TextLine::Status(status) => put_with_number(out, b"status ", *status as u64),
        }
    }
}

impl Printed for TextLine<'_> {
    ghost use Rattle.std.specs.Prelude.{◌++◌, codes};
    ghost use Rattle.run_text.specs.TextLines.{text_of_text_line, IsPrintableTextLine};

    ghost text = { λ line. text_of_text_line line ++ codes "\n" };

    ghost printable = { IsPrintableTextLine };

    fn put<K: Sink>(&self, out: &mut K) -> Result<(), Failed> {
        self.put_unended(out)?;
        put(out, b"\n")
    }
}
