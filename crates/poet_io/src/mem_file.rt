ghost use Rattle.std.specs.Prelude.{◌≡◌, ◌<◌, ◌∷◌, ◌↔◌, nat_lt, min, length, take, drop, Contains, IsErr, IfOk, OnErr};
ghost use Rattle.poet_io.specs.Counter.{counted};
ghost use Rattle.poet_io.specs.Faults.{IsRaised};
ghost use Rattle.poet_io.specs.declared.uses.Use.TheVariants.{Closed};

use crate::uses::{Room, Uses};
use crate::{Bytes, Failed, MemSource, Source, Use};
use std::marker::Model;

/// An open file of a [`MemFolder`](crate::MemFolder), with the room for what the folder notes when
/// it is given back.
#[derive(Debug, Drop)]
pub struct MemFile {
    name: Bytes,
    source: MemSource,
    room: Room,
}

impl Model for MemFile {
    ghost use Rattle.poet_io.specs.MemFile.{MemFileState};

    ghost Value = { MemFileState };

    ghost view = { λ file. record { name = file.name; source = file.source } };
}

impl MemFile {
    ghost use Rattle.poet_io.specs.MemFile.{MemFileState};

    pub(crate) fn new(name: Bytes, source: MemSource, room: Room) -> Self
        ensures { result ≡ record { name = name; source = source } }
    {
        MemFile { name, source, room }
    }

    // How often a read of it has failed.
    pub(crate) fn faults(&self) -> u64
        ensures { result ≡ self.now.source.faults }
    {
        self.source.faults()
    }

    // Notes what became of it, in its own room.
    pub(crate) fn close_into(self, uses: &mut Uses)
        ensures { uses.new ≡ Closed self.name self.source.left (nat_lt 0 self.source.faults)
            ∷ uses.old }
    {
        let failed = self.source.faults() > 0;
        uses.add(
            Use::Closed(self.name, self.source.into_left(), failed),
            self.room,
        );
    }
}

impl Source for MemFile {
    ghost use Rattle.std.specs.Prelude.{Some};

    ghost state = { λ file. record {
      faults = file.source.faults;
      left = Some file.source.left;
      name = Some file.name;
    } };

    /// Gives as many bytes as fit, unless the call's number is among those that fail.
    fn read(&mut self, buf: &mut [u8]) -> Result<usize, Failed>
        requires { 0 < length buf.old }

        ensures fails { IsErr result ↔
            Contains self.old.source.fail_at (counted self.old.source.reads) }
        ensures count { IfOk result (λ n. n ≡ min (length buf.old) (length self.old.source.left)) }
        ensures prefix { IfOk result (λ n. take n buf.new ≡ take n self.old.source.left) }
        ensures ok { IfOk result (λ n. self.new ≡ record self.old {
          source = record self.old.source {
            left = drop n self.old.source.left;
            reads = counted self.old.source.reads;
          };
        }) }
        ensures err { OnErr result (self.new ≡ record self.old {
          source = record self.old.source {
            reads = counted self.old.source.reads;
            faults = counted self.old.source.faults;
          };
        }) }
        ensures fault { OnErr result (IsRaised self.old.source.faults self.new.source.faults) }
    {
        self.source.read(buf)
    }
}
