ghost use Rattle.load_run.specs.LoadTexts.{with_count};
ghost use Rattle.poet_io.specs.Writes.{Writes};

use answer_text::put_number;
use poet_io::{Failed, Sink, put};
use text_buffer::Printed;

/// What came of a load.
#[derive(Clone, Copy, Debug, PartialEq, Eq)]
pub struct Loaded {
    /// How many events were made.
    pub events: u32,
    /// How many entries the journal has.
    pub entries: u64,
    /// How many numbers the stamps have.
    pub parts: u64,
    /// How many events have the level above those that have a size.
    pub full: u32,
    /// How many events are before the last event that was made.
    pub past: u64,
}

impl Printed for Loaded {
    ghost use Rattle.load_run.specs.LoadTexts.{text_of_load};

    ghost text = { text_of_load };

    ghost printable = { λ told. Unit {0} };

    fn put<K: Sink>(&self, out: &mut K) -> Result<(), Failed> {
        put_count(out, b"load ", self.events as u64)?;
        put_count(out, b"\njournal ", self.entries)?;
        put_count(out, b"\nparts ", self.parts)?;
        put_count(out, b"\nfull ", self.full as u64)?;
        put_count(out, b"\npast ", self.past)?;
        put(out, b"\nstatus 0\n")
    }
}

/// Writes a number behind its word.
fn put_count<K: Sink>(out: &mut K, word: &[u8], number: u64) -> Result<(), Failed>
    ensures { Writes (K.state out.old) (K.state out.new) (with_count word.now number) result }
{
    put(out, word)?;
    put_number(out, number)
}
