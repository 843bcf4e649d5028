ghost use Rattle.std.specs.Prelude.{◌++◌, codes, decimal};
ghost use Rattle.std.specs.List.{flat_map};
ghost use Rattle.poet_io.specs.Writes.{Writes};
ghost use Rattle.answer_text.specs.Texts.{text_of_part};

use crate::number::put_number_after;
use poet_io::{Failed, Sink};

/// Writes a stamp: its level and its parts.
pub fn put_stamp<K: Sink>(out: &mut K, level: u8, parts: &[(u32, u32)]) -> Result<(), Failed>
    ensures { Writes (K.state out.old) (K.state out.new)
        ((codes "level " ++ decimal level) ++ flat_map text_of_part parts.now) result }
{
    put_number_after(out, b"level ", level as u64)?;
    put_parts(out, parts)
}

/// Writes the parts of a stamp.
fn put_parts<K: Sink>(out: &mut K, parts: &[(u32, u32)]) -> Result<(), Failed>
    ensures { Writes (K.state out.old) (K.state out.new) (flat_map text_of_part parts.now) result }
{
    for part in parts {
        put_part(out, *part)?;
    }
    Ok(())
}

/// Writes a part of a stamp behind a space.
fn put_part<K: Sink>(out: &mut K, part: (u32, u32)) -> Result<(), Failed>
    ensures { Writes (K.state out.old) (K.state out.new) (text_of_part part) result }
{
    put_number_after(out, b" ", part.0 as u64)?;
    put_number_after(out, b"=", part.1 as u64)
}
