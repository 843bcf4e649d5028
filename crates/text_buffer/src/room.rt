ghost use Rattle.std.specs.Prelude.{◌≡◌, ◌≤◌, ◌++◌, [], length, take};
ghost use Rattle.std.specs.Bool.{OnTrue, OnFalse};

use crate::limits::ROOM;
use crate::printed::Printed;
use poet_io::{Failed, Sink};
use std::marker::Model;

/// A sink of fixed size, which fails once it is full. Seen as the bytes that it has taken.
#[derive(Drop)]
pub struct Room {
    bytes: [u8; ROOM],
    taken: usize,
}

impl Model for Room {
    ghost use Rattle.std.specs.Prelude.{◌≤◌, List, ℕ, length, take};

    ghost Value = { List ℕ };

    ghost view = { λ room. take room.taken room.bytes };

    ghost invariant = { λ room. room.taken ≤ length room.bytes };
}

impl Room {
    /// A sink that has taken nothing yet.
    pub fn new() -> Room
        ensures { result ≡ [] }
    {
        Room {
            bytes: [0; ROOM],
            taken: 0,
        }
    }

    /// How many bytes it has taken.
    pub fn len(&self) -> usize
        ensures { result ≡ length self.now }
    {
        self.taken
    }

    /// What it has taken.
    pub fn as_slice(&self) -> &[u8]
        ensures { result.now ≡ self.now }
    {
        &self.bytes[..self.taken]
    }

    /// Forgets all but the first bytes.
    pub fn cut(&mut self, kept: usize)
        requires { kept ≤ length self.old }
        ensures { self.new ≡ take kept self.old }
    {
        self.taken = kept;
    }

    /// Takes one text, or nothing where it doesn't fit. It answers whether the text fits.
    pub fn gather<T: Printed>(&mut self, one: &T) -> bool
        requires { T.printable one.now }
        ensures all { OnTrue result (self.new ≡ self.old ++ T.text one.now) }
        ensures same { OnFalse result (self.new ≡ self.old) }
    {
        let before = self.taken;
        let fits = one.put(self).is_ok();
        if !fits {
            self.cut(before);
        }
        fits
    }
}

impl Sink for Room {
    ghost use Rattle.std.specs.Prelude.{◌-◌, ◌^◌, Some};

    // Nobody asks how often it was full. So the count of its faults stands at the last value from
    // the start, and takes no field.
    ghost state = { λ room. record { faults = 2 ^ 64 - 1; taken = Some room } };

    /// Takes what fits, and fails where nothing does.
    fn write(&mut self, piece: &[u8]) -> Result<usize, Failed> {
        let count = piece.len().min(ROOM - self.taken);
        if count == 0 {
            return Err(Failed);
        }
        self.bytes[self.taken..self.taken + count].copy_from_slice(&piece[..count]);
        self.taken += count;
        Ok(count)
    }
}
