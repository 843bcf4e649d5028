ghost use Rattle.std.specs.Prelude.{◌≡◌};

use crate::{Files, HostFile, OpenError};
use std::alloc::Global;
use std::fs::File;
use std::marker::Model;

/// The file system, of whose files nothing is told. A file that is absent is one that failed to
/// open. Seen as how often it has failed.
#[derive(Drop)]
pub struct HostFolder<R> {
    runtime: R,
    faults: u64,
}

impl<R> Model for HostFolder<R> {
    ghost use Rattle.std.specs.Prelude.{ℕ};

    ghost Value = { ℕ };

    ghost view = { λ folder. folder.faults };
}

impl<R> HostFolder<R> {
    /// The folder that the runtime resolves names against. It has not failed yet.
    pub fn new(runtime: R) -> Self
        ensures { result ≡ 0 }
    {
        HostFolder { runtime, faults: 0 }
    }
}

impl<R: std::rt::Files> Files for HostFolder<R>
where
    R::File: Send,
{
    ghost use Rattle.std.specs.Prelude.{None};

    type In = HostFile<R::File>;

    ghost state = { λ folder. record { faults = folder; folder = None; uses = None } };

    ghost tells_both = { λ _. ((λ told. told), (λ told. told)) };

    fn open(&mut self, _alloc: Global, name: &str) -> Result<HostFile<R::File>, OpenError> {
        match File::open(&self.runtime, name) {
            Ok(file) => Ok(HostFile::new(file)),
            Err(_) => {
                self.faults = self.faults.saturating_add(1);
                Err(OpenError::Failed)
            }
        }
    }

    fn close(&mut self, source: HostFile<R::File>) {
        if source.has_failed() {
            self.faults = self.faults.saturating_add(1);
        }
    }
}
