ghost use Rattle.std.specs.Prelude.{◌++◌, codes};
ghost use Rattle.std.specs.List.{flat_map};
ghost use Rattle.poet_io.specs.Writes.{Writes};
ghost use Rattle.answer_text.specs.Texts.{text_of_count};

use crate::number::put_number_after;
use poet_io::{Failed, Sink, put};

/// Writes a cut: how many events of each trace are in it.
pub fn put_cut<K: Sink>(out: &mut K, counts: &[u32]) -> Result<(), Failed>
    ensures { Writes (K.state out.old) (K.state out.new)
        (codes "cut" ++ flat_map text_of_count counts.now) result }
{
    put(out, b"cut")?;
    put_counts(out, counts)
}

/// Writes numbers of events, each behind a space.
fn put_counts<K: Sink>(out: &mut K, counts: &[u32]) -> Result<(), Failed>
    ensures { Writes (K.state out.old) (K.state out.new)
        (flat_map text_of_count counts.now) result }
{
    for count in counts {
        put_number_after(out, b" ", *count as u64)?;
    }
    Ok(())
}
