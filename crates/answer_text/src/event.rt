ghost use Rattle.causal_base.specs.Event.{IsFit};
ghost use Rattle.causal_base.specs.Spelling.{spelling, mate_text, text_part};
ghost use Rattle.poet_io.specs.Writes.{Writes};

use crate::id::put_id;
use crate::number::put_number;
use causal_base::{Event, EventId, Types};
use poet_io::{Failed, Sink, put};

/// Writes the one spelling of an event, as a line of events has it, without the line's end.
pub fn put_event<K: Sink>(out: &mut K, types: &Types, event: &Event) -> Result<(), Failed>
    requires { IsFit types.now event.now }
    ensures { Writes (K.state out.old) (K.state out.new) (spelling types.now event.now) result }
{
    put_id(out, event.id)?;
    put(out, b" ")?;
    put(out, types.name(event.type_no))?;
    put(out, b" ")?;
    put_mate(out, event.mate)?;
    put(out, b" ")?;
    put_number(out, event.time)?;
    put_text(out, event.text.bytes())
}

/// Writes what an event names.
fn put_mate<K: Sink>(out: &mut K, mate: Option<EventId>) -> Result<(), Failed>
    ensures { Writes (K.state out.old) (K.state out.new) (mate_text mate) result }
{
    match mate {
        Some(id) => put_id(out, id),
        None => put(out, b"-"),
    }
}

/// Writes the text of an event behind a space, and nothing where it is empty.
fn put_text<K: Sink>(out: &mut K, text: &[u8]) -> Result<(), Failed>
    ensures { Writes (K.state out.old) (K.state out.new) (text_part text.now) result }
{
    if text.is_empty() {
        return Ok(());
    }
    put(out, b" ")?;
    put(out, text)
}
