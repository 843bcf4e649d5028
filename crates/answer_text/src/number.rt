ghost use Rattle.std.specs.Prelude.{◌++◌, decimal};
ghost use Rattle.poet_io.specs.Writes.{Writes};

use itoa::Buffer;
use poet_io::{Failed, Sink, put};

/// Writes a number in decimal.
pub fn put_number<K: Sink>(out: &mut K, number: u64) -> Result<(), Failed>
    ensures { Writes (K.state out.old) (K.state out.new) (decimal number) result }
{
    let mut buffer = Buffer::new();
    put(out, buffer.format(number).as_bytes())
}

/// Writes what stands before a number, and the number.
pub fn put_number_after<K: Sink>(out: &mut K, before: &[u8], number: u64) -> Result<(), Failed>
    ensures { Writes (K.state out.old) (K.state out.new) (before.now ++ decimal number) result }
{
    put(out, before)?;
    put_number(out, number)
}
