ghost use Rattle.std.specs.Prelude.{◌≡◌};

use poet_io::{Bytes, Failed, MemSource, Source};
use std::alloc::Global;
use std::marker::Model;

/// A source in memory whose reads never fail. Contracts see it as the bytes that are left.
#[derive(Debug, Drop)]
pub struct TextSource {
    source: MemSource,
}

impl Model for TextSource {
    ghost use Rattle.std.specs.Prelude.{◌≡◌, ℕ, List, []};

    ghost Value = { List ℕ };

    ghost view = { λ text. text.source.left };

    ghost invariant = { λ text. text.source.fail_at ≡ [] };
}

impl TextSource {
    /// A source of these bytes.
    pub fn new(alloc: Global, bytes: Bytes) -> TextSource
        ensures { result ≡ bytes }
    {
        TextSource {
            source: MemSource::new(bytes, Vec::new(alloc)),
        }
    }
}

impl Source for TextSource {
    ghost use Rattle.load_run.specs.LoadTexts.{never_failing};

    ghost state = { never_failing };

    fn read(&mut self, buf: &mut [u8]) -> Result<usize, Failed> {
        match self.source.read(buf) {
            Ok(count) => Ok(count),
            Err(_) => unreachable!(),
        }
    }
}
