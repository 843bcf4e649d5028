ghost use Rattle.std.specs.Prelude.{◌≡◌, ◌<◌, ◌≤◌, ◌-◌, ◌++◌, ◌↔◌, ◌⊎◌, min, length, take, Contains, IsErr, IfOk, OnErr};
ghost use Rattle.poet_io.specs.Counter.{counted};
ghost use Rattle.poet_io.specs.Faults.{IsRaised};
ghost use Rattle.poet_io.specs.MemSink.{unwritten};

use crate::{Bytes, Failed, Sink};
use std::alloc::{AllocError, Global};
use std::marker::Model;

/// A sink in memory, whose writes take a few bytes at a time and fail where they are told to.
#[derive(Debug, Drop)]
pub struct MemSink {
    bytes: Vec<u8>,
    fail_at: Vec<u64>,
    most: usize,
    room: usize,
    writes: u64,
    faults: u64,
}

impl Model for MemSink {
    ghost use Rattle.std.specs.Prelude.{◌<◌, ◌≤◌, vec_len, vec_capacity};
    ghost use Rattle.poet_io.specs.MemSink.{MemSinkState};

    ghost Value = { MemSinkState };

    ghost view = { λ sink. record {
      taken = sink.bytes.items;
      fail_at = sink.fail_at.items;
      most = sink.most;
      room = sink.room;
      writes = sink.writes;
      faults = sink.faults;
    } };

    ghost invariant = { λ sink.
        (0 < sink.most)
        × (vec_len sink.bytes ≤ sink.room)
        × (sink.room ≤ vec_capacity sink.bytes) };
}

impl MemSink {
    /// A sink with room for `room` bytes, which takes at most `most` in a write. The writes with
    /// the numbers `fail_at` fail, the first being number 1.
    pub fn new(
        alloc: Global,
        fail_at: Vec<u64>,
        most: usize,
        room: usize,
    ) -> Result<Self, AllocError>
        requires { 0 < most }
        ensures { IfOk result (λ sink. sink ≡ unwritten fail_at.items most room) }
    {
        Ok(MemSink {
            bytes: Vec::with_capacity(alloc, room)?,
            fail_at,
            most,
            room,
            writes: 0,
            faults: 0,
        })
    }

    /// What it has taken so far.
    pub fn bytes(&self) -> &[u8]
        ensures { result.now ≡ self.now.taken }
    {
        self.bytes.as_slice()
    }

    /// What it has taken, with the memory for it.
    pub fn into_bytes(self) -> Bytes
        ensures { result ≡ self.taken }
    {
        Bytes::new(self.bytes)
    }
}

impl Sink for MemSink {
    ghost use Rattle.std.specs.Prelude.{Some};

    ghost state = { λ sink. record { faults = sink.faults; taken = Some sink.taken } };

    /// Takes what it may and has room for, unless the call's number is among those that fail or it
    /// is full.
    fn write(&mut self, piece: &[u8]) -> Result<usize, Failed>
        requires { 0 < length piece.now }

        ensures fails { IsErr result ↔
            (Contains self.old.fail_at (counted self.old.writes)
            ⊎ (self.old.room ≤ length self.old.taken)) }
        ensures some { IfOk result (λ n. 0 < n) }
        ensures count { IfOk result (λ n.
            n ≡ min (min (length piece.now) self.old.most)
            (self.old.room - length self.old.taken)) }
        ensures ok { IfOk result (λ n. self.new ≡ record self.old {
          taken = self.old.taken ++ take n piece.now;
          writes = counted self.old.writes;
        }) }
        ensures err { OnErr result (self.new ≡ record self.old {
          writes = counted self.old.writes;
          faults = counted self.old.faults;
        }) }
        ensures fault { OnErr result (IsRaised self.old.faults self.new.faults) }
    {
        self.writes = self.writes.saturating_add(1);
        let left = self.room - self.bytes.len();
        if left == 0 || self.fail_at.contains(&self.writes) {
            self.faults = self.faults.saturating_add(1);
            return Err(Failed);
        }
        let count = piece.len().min(self.most).min(left);
        self.bytes.extend_from_slice(&piece[..count]).unwrap();
        Ok(count)
    }
}
