ghost use Rattle.std.specs.Prelude.{◌++◌};
ghost use Rattle.causal_base.specs.Spelling.{id_text};
ghost use Rattle.poet_io.specs.Writes.{Writes};

use crate::number::{put_number, put_number_after};
use causal_base::EventId;
use poet_io::{Failed, Sink, put};

/// Writes an id: the trace and the number, with a full stop between them.
pub fn put_id<K: Sink>(out: &mut K, id: EventId) -> Result<(), Failed>
    ensures { Writes (K.state out.old) (K.state out.new) (id_text id) result }
{
    put_number(out, id.trace as u64)?;
    put_number_after(out, b".", id.number as u64)
}

/// Writes what stands before an id, and the id.
pub fn put_id_after<K: Sink>(out: &mut K, before: &[u8], id: EventId) -> Result<(), Failed>
    ensures { Writes (K.state out.old) (K.state out.new) (before.now ++ id_text id) result }
{
    put(out, before)?;
    put_id(out, id)
}
