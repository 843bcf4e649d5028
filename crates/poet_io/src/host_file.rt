ghost use Rattle.std.specs.Prelude.{◌≡◌, ◌<◌, ◌↔◌, IsTrue};

use crate::{Failed, Source};
use std::io::Read;
use std::marker::Model;

/// A file of the system, of whose bytes and name nothing is told. Seen as how often it has failed.
#[derive(Drop)]
pub struct HostFile<F> {
    file: F,
    faults: u64,
}

impl<F> Model for HostFile<F> {
    ghost use Rattle.std.specs.Prelude.{ℕ};

    ghost Value = { ℕ };

    ghost view = { λ file. file.faults };
}

impl<F> HostFile<F> {
    pub(crate) fn new(file: F) -> Self
        ensures { result ≡ 0 }
    {
        HostFile { file, faults: 0 }
    }

    pub(crate) fn has_failed(&self) -> bool
        ensures { IsTrue result ↔ (0 < self.now) }
    {
        self.faults > 0
    }
}

impl<F: Read> Source for HostFile<F> {
    ghost use Rattle.std.specs.Prelude.{None};

    ghost state = { λ file. record { faults = file; left = None; name = None } };

    fn read(&mut self, buf: &mut [u8]) -> Result<usize, Failed> {
        match self.file.read(buf) {
            Ok(count) => Ok(count),
            Err(_) => {
                self.faults = self.faults.saturating_add(1);
                Err(Failed)
            }
        }
    }
}
