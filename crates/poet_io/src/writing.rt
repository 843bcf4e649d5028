ghost use Rattle.poet_io.specs.Writes.{Writes};

use crate::{Failed, Sink};

/// Writes all the bytes. After an `Err` the sink has taken some prefix of them.
pub fn put<K: Sink>(out: &mut K, bytes: &[u8]) -> Result<(), Failed>
    ensures { Writes (K.state out.old) (K.state out.new) bytes.now result }
{
    let mut written = 0;
    while written < bytes.len() {
        written += out.write(&bytes[written..])?;
    }
    Ok(())
}
