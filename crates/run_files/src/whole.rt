//! Reads a small file whole.

ghost use Rattle.std.specs.Prelude.{◌≡◌, IfOk, IfErr};
ghost use Rattle.run_files.specs.Files.{WasNotRead, WasRead, fault_of_opening, fault_of_reading};

use crate::limits::MOST_FILE;
use poet_io::{Bytes, Files, OpenError, ReadAllError, read_all};
use std::alloc::Global;

/// Why a file wasn't read whole.
#[derive(Clone, Copy, Debug, PartialEq, Eq)]
pub(crate) enum FileFault {
    /// It is absent or didn't open.
    Open,
    /// A read of it failed.
    Read,
    /// It has more than [`MOST_FILE`] bytes.
    TooLong,
    /// Memory ran out.
    Memory,
}

/// The bytes of the file of this name, which are at most [`MOST_FILE`].
pub(crate) fn read_whole<F: Files>(
    alloc: Global,
    files: &mut F,
    name: &str,
) -> Result<Bytes, FileFault>
    ensures ok { IfOk result (λ bytes.
        WasRead name.now (F.state files.old) (F.state files.new) bytes) }
    ensures err { IfErr result (λ fault.
        WasNotRead fault name.now (F.state files.old) (F.state files.new)) }
{
    let mut source = match files.open(alloc, name) {
        Ok(source) => source,
        Err(error) => return Err(fault_of_open(error)),
    };
    let read = read_all(alloc, &mut source, MOST_FILE);
    files.close(source);
    match read {
        Ok(bytes) => Ok(bytes),
        Err(error) => Err(fault_of_read(error)),
    }
}

/// The fault where a file wasn't opened.
fn fault_of_open(error: OpenError) -> FileFault
    ensures { result ≡ fault_of_opening error }
{
    match error {
        OpenError::Absent | OpenError::Failed => FileFault::Open,
        OpenError::Oom => FileFault::Memory,
    }
}

/// The fault where a file wasn't read to its end.
fn fault_of_read(error: ReadAllError) -> FileFault
    ensures { result ≡ fault_of_reading error }
{
    match error {
        ReadAllError::Failed => FileFault::Read,
        ReadAllError::TooLong => FileFault::TooLong,
        ReadAllError::Oom => FileFault::Memory,
    }
}
