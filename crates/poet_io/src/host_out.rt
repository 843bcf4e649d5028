ghost use Rattle.std.specs.Prelude.{◌≡◌};

use crate::{Failed, Sink};
use std::marker::Model;

/// The standard output of a runtime, of which nothing is told. A write that takes nothing is one
/// that failed. Seen as how often it has failed.
#[derive(Drop)]
pub struct HostOut<P> {
    printer: P,
    faults: u64,
}

impl<P> Model for HostOut<P> {
    ghost use Rattle.std.specs.Prelude.{ℕ};

    ghost Value = { ℕ };

    ghost view = { λ out. out.faults };
}

impl<P> HostOut<P> {
    /// What the runtime prints to. It has not failed yet.
    pub fn new(printer: P) -> Self
        ensures { result ≡ 0 }
    {
        HostOut { printer, faults: 0 }
    }
}

impl<P: Print> Sink for HostOut<P> {
    ghost use Rattle.std.specs.Prelude.{None};

    ghost state = { λ out. record { faults = out; taken = None } };

    fn write(&mut self, piece: &[u8]) -> Result<usize, Failed> {
        match self.printer.write_some(piece) {
            Ok(count) if count > 0 => Ok(count),
            _ => {
                self.faults = self.faults.saturating_add(1);
                Err(Failed)
            }
        }
    }
}
