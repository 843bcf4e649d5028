ghost use Rattle.std.specs.Prelude.{◌≡◌, ◌<◌, ◌↔◌, min, length, take, drop, Contains, IsErr, IfOk, OnErr};
ghost use Rattle.poet_io.specs.Counter.{counted};
ghost use Rattle.poet_io.specs.Faults.{IsRaised};
ghost use Rattle.poet_io.specs.MemSource.{unread};

use crate::{Bytes, Failed, Source};
use std::marker::Model;

/// A source in memory, whose reads fail where they are told to.
#[derive(Debug, Drop)]
pub struct MemSource {
    bytes: Bytes,
    at: usize,
    fail_at: Vec<u64>,
    reads: u64,
    faults: u64,
}

impl Model for MemSource {
    ghost use Rattle.std.specs.Prelude.{◌≤◌, length, drop};
    ghost use Rattle.poet_io.specs.MemSource.{MemSourceState};

    ghost Value = { MemSourceState };

    ghost view = { λ source. record {
      left = drop source.at source.bytes;
      fail_at = source.fail_at.items;
      reads = source.reads;
      faults = source.faults;
    } };

    ghost invariant = { λ source. source.at ≤ length source.bytes };
}

impl MemSource {
    /// A source of these bytes. The reads with these numbers fail, the first being number 1.
    pub fn new(bytes: Bytes, fail_at: Vec<u64>) -> Self
        ensures { result ≡ unread bytes fail_at.items }
    {
        MemSource {
            bytes,
            at: 0,
            fail_at,
            reads: 0,
            faults: 0,
        }
    }

    // How many reads have failed.
    pub(crate) fn faults(&self) -> u64
        ensures { result ≡ self.now.faults }
    {
        self.faults
    }

    // The bytes that are left, in the memory that they have.
    pub(crate) fn into_left(self) -> Bytes
        ensures { result ≡ self.left }
    {
        let mut bytes = self.bytes.into_vec();
        bytes.drain(..self.at);
        Bytes::new(bytes)
    }
}

// Copies as many bytes as fit into a prefix of a buffer, and answers how many.
fn fill_prefix(buf: &mut [u8], bytes: &[u8]) -> usize
    ensures count { result ≡ min (length buf.old) (length bytes.now) }
    ensures prefix { take result buf.new ≡ take result bytes.now }
{
    let count = buf.len().min(bytes.len());
    buf[..count].copy_from_slice(&bytes[..count]);
    count
}

impl Source for MemSource {
    ghost use Rattle.std.specs.Prelude.{Some, None};

    ghost state = { λ source. record {
      faults = source.faults;
      left = Some source.left;
      name = None;
    } };

    /// Gives as many bytes as fit, unless the call's number is among those that fail.
    fn read(&mut self, buf: &mut [u8]) -> Result<usize, Failed>
        requires { 0 < length buf.old }

        ensures fails { IsErr result ↔ Contains self.old.fail_at (counted self.old.reads) }
        ensures count { IfOk result (λ n. n ≡ min (length buf.old) (length self.old.left)) }
        ensures prefix { IfOk result (λ n. take n buf.new ≡ take n self.old.left) }
        ensures ok { IfOk result (λ n. self.new ≡ record self.old {
          left = drop n self.old.left;
          reads = counted self.old.reads;
        }) }
        ensures err { OnErr result (self.new ≡ record self.old {
          reads = counted self.old.reads;
          faults = counted self.old.faults;
        }) }
        ensures fault { OnErr result (IsRaised self.old.faults self.new.faults) }
    {
        self.reads = self.reads.saturating_add(1);
        if self.fail_at.contains(&self.reads) {
            self.faults = self.faults.saturating_add(1);
            return Err(Failed);
        }
        let count = fill_prefix(buf, &self.bytes.as_slice()[self.at..]);
        self.at += count;
        Ok(count)
    }
}
