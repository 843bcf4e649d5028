ghost use Rattle.std.specs.Prelude.{◌≡◌, ◌%◌, ◌≤◌, ◌++◌, All, IfOk, OnOk, length, map};
ghost use Rattle.causal_base.specs.Event.{IsFit};
ghost use Rattle.causal_base.specs.declared.limits.TheConstants.{MOST_EVENTS};
ghost use Rattle.load_run.specs.LoadTexts.{lines_of, share, shares};
ghost use Rattle.load_run.specs.declared.limits.TheConstants.{COLLECTORS};

use crate::event_line::EventLine;
use crate::limits::COLLECTORS;
use crate::source::TextSource;
use causal_base::{Event, Types};
use poet_io::{Bytes, Failed, MemSink};
use std::alloc::{AllocError, Global};
use text_buffer::Buffer;

/// How many bytes a line has at most, with room to spare.
const MOST_LINE: usize = 32;

/// The sources of the collectors, with a line for each of these events. It fails where there is no
/// memory.
pub fn sources_of(
    alloc: Global,
    types: &Types,
    events: &[Event],
) -> Result<Vec<TextSource>, AllocError>
    requires few { length events.now ≤ MOST_EVENTS }
    requires fit { All (IsFit types.now) events.now }
    ensures { IfOk result (λ sources. sources.items
        ≡ map (lines_of types.now) (shares events.now)) }
{
    let sizes = sizes_of_shares(events);
    let mut sources = Vec::with_capacity(alloc, COLLECTORS as usize)?;
    for collector in 0..COLLECTORS {
        let room = MOST_LINE * sizes[collector as usize];
        let text = text_of_share(alloc, types, events, collector, room)?;
        sources.push_reserved(TextSource::new(alloc, text));
    }
    Ok(sources)
}

/// How many of the events each collector has.
fn sizes_of_shares(events: &[Event]) -> [usize; COLLECTORS as usize]
    ensures { All (λ size. size ≤ length events.now) result }
{
    let mut sizes = [0; COLLECTORS as usize];
    for event in events {
        sizes[collector_of(event) as usize] += 1;
    }
    sizes
}

/// The text of a collector, with a line for each of its events, in room for so many bytes. It fails
/// where there is no memory, or the room is too small.
fn text_of_share(
    alloc: Global,
    types: &Types,
    events: &[Event],
    collector: u32,
    room: usize,
) -> Result<Bytes, AllocError>
    requires { All (IsFit types.now) events.now }
    ensures { IfOk result (λ text. text ≡ lines_of types.now (share events.now collector)) }
{
    let mut sink = MemSink::new(alloc, Vec::new(alloc), usize::MAX, room)?;
    match put_share(&mut sink, types, events, collector) {
        Ok(()) => Ok(sink.into_bytes()),
        // A sink that is full is one without memory for more.
        Err(_) => Err(AllocError),
    }
}

/// Writes a line for each event of a collector. It fails where the sink has no room left.
fn put_share(
    sink: &mut MemSink,
    types: &Types,
    events: &[Event],
    collector: u32,
) -> Result<(), Failed>
    requires { All (IsFit types.now) events.now }
    ensures { OnOk result (sink.new.taken
        ≡ sink.old.taken ++ lines_of types.now (share events.now collector)) }
{
    let mut buffer = Buffer::new();
    for event in events {
        if collector_of(event) == collector {
            buffer.put(sink, &EventLine { types, event })?;
        }
    }
    buffer.hand_on(sink)
}

/// Which collector has this event.
fn collector_of(event: &Event) -> u32
    ensures { result ≡ event.now.id.trace % COLLECTORS }
{
    event.id.trace % COLLECTORS
}
