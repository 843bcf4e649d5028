//! Prints the matches of a pattern.

ghost use Rattle.std.specs.Prelude.{◌++◌, codes, decimal, length};
ghost use Rattle.std.specs.List.{flat_map};
ghost use Rattle.causal_base.specs.Spelling.{id_text};
ghost use Rattle.poet_io.specs.Writes.{Writes};
ghost use Rattle.answer_text.specs.Texts.{text_of_more, text_of_tuple};

use crate::id::{put_id, put_id_after};
use crate::number::put_number_after;
use causal_base::{EventId, Ids};
use poet_io::{Failed, Sink, put};

/// Writes how many matches there are, whether there are more, and the matches.
pub fn put_found<K: Sink>(out: &mut K, tuples: &[Ids], more: bool) -> Result<(), Failed>
    ensures { Writes (K.state out.old) (K.state out.new)
        ((codes "found " ++ decimal (length tuples.now)) ++ text_of_more more
        ++ flat_map text_of_tuple tuples.now) result }
{
    put_number_after(out, b"found ", tuples.len() as u64)?;
    put_more(out, more)?;
    put_tuples(out, tuples)
}

/// Writes a word where there are more matches.
fn put_more<K: Sink>(out: &mut K, more: bool) -> Result<(), Failed>
    ensures { Writes (K.state out.old) (K.state out.new) (text_of_more more) result }
{
    if more { put(out, b" more") } else { Ok(()) }
}

/// Writes matches.
fn put_tuples<K: Sink>(out: &mut K, tuples: &[Ids]) -> Result<(), Failed>
    ensures { Writes (K.state out.old) (K.state out.new)
        (flat_map text_of_tuple tuples.now) result }
{
    for tuple in tuples {
        put_tuple(out, tuple.as_slice())?;
    }
    Ok(())
}

/// Writes a match behind a space: its ids, with commas between them.
fn put_tuple<K: Sink>(out: &mut K, ids: &[EventId]) -> Result<(), Failed>
    ensures { Writes (K.state out.old) (K.state out.new) (text_of_tuple ids.now) result }
{
    put(out, b" ")?;
    match ids {
        [] => Ok(()),
        [first, rest @ ..] => {
            put_id(out, *first)?;
            put_next_ids(out, rest)
        }
    }
}

/// Writes ids, each behind a comma.
fn put_next_ids<K: Sink>(out: &mut K, ids: &[EventId]) -> Result<(), Failed>
    ensures { Writes (K.state out.old) (K.state out.new)
        (flat_map (λ id. codes "," ++ id_text id) ids.now) result }
{
    for id in ids {
        put_id_after(out, b",", *id)?;
    }
    Ok(())
}
