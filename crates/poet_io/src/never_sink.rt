ghost use Rattle.std.specs.Prelude.{◌≡◌, ◌<◌, length, Ok};

use crate::{Failed, Sink};

/// A sink that takes everything, keeps nothing and never fails.
#[derive(Clone, Copy, Debug, PartialEq, Eq)]
pub struct NeverSink;

impl Sink for NeverSink {
    ghost use Rattle.std.specs.Prelude.{None};

    ghost state = { λ _. record { faults = 0; taken = None } };

    /// Takes all of the piece.
    fn write(&mut self, piece: &[u8]) -> Result<usize, Failed>
        requires { 0 < length piece.now }
        ensures { result ≡ Ok (length piece.now) }
    {
        Ok(piece.len())
    }
}
