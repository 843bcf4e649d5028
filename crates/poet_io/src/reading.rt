ghost use Rattle.std.specs.Prelude.{◌≡◌, ◌<◌, ◌≤◌, [], length, IfOk, IfSome, OnOk, IsErrOf, MatchResult};
ghost use Rattle.poet_io.specs.ReadAllError.{CountsReadAllError};
ghost use Rattle.poet_io.specs.Takes.{LeavesRest};

use crate::{Bytes, Source};
use std::alloc::Global;
use thiserror::Error;

/// Why a source was not read to its end.
#[derive(Clone, Copy, Debug, PartialEq, Eq, Error)]
pub enum ReadAllError {
    /// A read failed, and the source counted it.
    #[error("the source failed")]
    Failed,
    /// More bytes were left than the limit.
    #[error("there is more than may be read")]
    TooLong,
    /// There was no memory for the bytes.
    #[error("out of memory")]
    Oom,
}

// How many bytes one read may give.
const BUFFER: usize = 4096;

/// Reads all that is left of a source, which may be at most `limit` bytes. It takes memory for what
/// there is, and none for the limit.
pub fn read_all<S: Source>(alloc: Global, source: &mut S, limit: u64) -> Result<Bytes, ReadAllError>
    ensures whole { IfOk result (λ bytes. IfSome (S.state source.old).left (λ left. bytes ≡ left)) }
    ensures within { IfOk result (λ bytes. length bytes ≤ limit) }
    ensures at_end { OnOk result (IfSome (S.state source.new).left (λ left. left ≡ [])) }
    ensures too_long { IsErrOf result ReadAllError.TooLong →
        IfSome (S.state source.old).left (λ left. limit < length left) }

    ensures rest { LeavesRest (S.state source.old).left (S.state source.new).left }
    ensures same_name { (S.state source.new).name ≡ (S.state source.old).name }
    ensures faults { MatchResult result
        (λ _. (S.state source.new).faults ≡ (S.state source.old).faults)
        (λ e. CountsReadAllError e (S.state source.old).faults (S.state source.new).faults) }
{
    let mut bytes = Vec::new(alloc);
    let mut buffer = [0u8; BUFFER];
    loop {
        let count = source.read(&mut buffer).map_err(|_| ReadAllError::Failed)?;
        if count == 0 {
            return Ok(Bytes::new(bytes));
        }
        if count as u64 > limit - bytes.len() as u64 {
            return Err(ReadAllError::TooLong);
        }
        bytes
            .extend_from_slice(&buffer[..count])
            .map_err(|_| ReadAllError::Oom)?;
    }
}
