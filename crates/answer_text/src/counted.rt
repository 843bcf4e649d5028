ghost use Rattle.std.specs.Prelude.{◌++◌, codes, decimal};
ghost use Rattle.poet_io.specs.Writes.{Writes};

use crate::number::put_number_after;
use poet_io::{Failed, Sink};

/// Writes how many events were accepted, are delivered and are held.
pub fn put_counted<K: Sink>(
    out: &mut K,
    accepted: u32,
    delivered: u32,
    held: u32,
) -> Result<(), Failed>
    ensures { Writes (K.state out.old) (K.state out.new)
        ((codes "accepted " ++ decimal accepted) ++ (codes " delivered " ++ decimal delivered)
        ++ (codes " held " ++ decimal held)) result }
{
    put_number_after(out, b"accepted ", accepted as u64)?;
    put_number_after(out, b" delivered ", delivered as u64)?;
    put_number_after(out, b" held ", held as u64)
}
