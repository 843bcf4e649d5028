ghost use Rattle.std.specs.Prelude.{◌++◌, codes, decimal};
ghost use Rattle.causal_base.specs.Entry.{entry_of};
ghost use Rattle.causal_base.specs.Event.{IsFit};
ghost use Rattle.causal_base.specs.Spelling.{id_text, spelling};
ghost use Rattle.poet_io.specs.Writes.{Writes};
ghost use Rattle.answer_text.specs.Texts.{text_of_entry, IsPrintableEntry};

use crate::event::put_event;
use crate::id::put_id_after;
use crate::number::put_number_after;
use causal_base::{EntryRef, Event, EventId, Types};
use poet_io::{Failed, Sink, put};

/// Writes an entry of a journal. An event that came is fit for the types.
pub fn put_entry<K: Sink>(out: &mut K, types: &Types, entry: EntryRef<'_>) -> Result<(), Failed>
    requires { IsPrintableEntry types.now (entry_of entry) }
    ensures { Writes (K.state out.old) (K.state out.new)
        (text_of_entry types.now (entry_of entry.entry)) result }
{
    match entry {
        EntryRef::Came(collector, event) => put_came(out, types, collector, event),
        EntryRef::Gone(id) => put_id_after(out, b"gone ", id),
        EntryRef::Pair(first, second) => put_pair(out, first, second),
        EntryRef::Ended(collector) => put_number_after(out, b"ended ", collector as u64),
    }
}

/// Writes that a collector brought an event.
fn put_came<K: Sink>(
    out: &mut K,
    types: &Types,
    collector: u32,
    event: &Event,
) -> Result<(), Failed>
    requires { IsFit types.now event.now }
    ensures { Writes (K.state out.old) (K.state out.new)
        ((codes "came " ++ decimal collector) ++ (codes " " ++ spelling types.now event.now))
        result }
{
    put_number_after(out, b"came ", collector as u64)?;
    put(out, b" ")?;
    put_event(out, types, event)
}

/// Writes that two partners were delivered.
fn put_pair<K: Sink>(out: &mut K, first: EventId, second: EventId) -> Result<(), Failed>
    ensures { Writes (K.state out.old) (K.state out.new)
        ((codes "pair " ++ id_text first) ++ (codes " " ++ id_text second)) result }
{
    put_id_after(out, b"pair ", first)?;
    put_id_after(out, b" ", second)
}
