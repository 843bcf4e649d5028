ghost use Rattle.std.specs.Prelude.{◌≡◌, [], OnOk};
ghost use Rattle.poet_io.specs.Writes.{Writes};
ghost use Rattle.text_buffer.specs.Gathering.{Gathers};

use crate::limits::FULL_BUFFER;
use crate::printed::Printed;
use crate::room::Room;
use poet_io::{Failed, Sink, put};
use std::marker::Model;

/// Text that is gathered for a sink, so that it leaves in large pieces. It takes no memory.
/// Contracts see the bytes that are gathered.
#[derive(Drop)]
pub struct Buffer {
    room: Room,
}

impl Model for Buffer {
    ghost use Rattle.std.specs.Prelude.{List, ℕ};

    ghost Value = { List ℕ };

    ghost view = { λ buffer. buffer.room };
}

impl Buffer {
    /// A buffer in which nothing is gathered.
    pub fn new() -> Buffer
        ensures { result ≡ [] }
    {
        Buffer { room: Room::new() }
    }

    /// Gathers one text behind what is gathered, and hands on what is there once it is 8 KiB. A
    /// text that doesn't fit behind the rest goes behind what is handed on first, and one that is
    /// longer than the buffer goes to the sink directly. After an `Err` the sink has taken some
    /// prefix of all that came.
    pub fn put<K: Sink, T: Printed>(&mut self, out: &mut K, one: &T) -> Result<(), Failed>
        requires { T.printable one.now }
        ensures { Gathers (K.state out.old) self.old (K.state out.new) self.new (T.text one.now)
            result }
    {
        if self.room.gather(one) {
            return self.hand_on_if_full(out);
        }
        self.hand_on(out)?;
        if self.room.gather(one) {
            return self.hand_on_if_full(out);
        }
        one.put(out)
    }

    /// Hands on what is gathered if that is 8 KiB.
    fn hand_on_if_full<K: Sink>(&mut self, out: &mut K) -> Result<(), Failed>
        ensures { Gathers (K.state out.old) self.old (K.state out.new) self.new [] result }
    {
        if self.room.len() < FULL_BUFFER {
            return Ok(());
        }
        self.hand_on(out)
    }

    /// Hands on what is gathered. After an `Err` the sink has taken some prefix of it.
    pub fn hand_on<K: Sink>(&mut self, out: &mut K) -> Result<(), Failed>
        ensures empty { OnOk result (self.new ≡ []) }
        ensures writes { Writes (K.state out.old) (K.state out.new) self.old result }
    {
        put(out, self.room.as_slice())?;
        self.room.cut(0);
        Ok(())
    }
}

/// Writes one text, in as few pieces as fit. It takes no memory. After an `Err` the sink has taken
/// some prefix of it.
pub fn put_whole<K: Sink, T: Printed>(out: &mut K, one: &T) -> Result<(), Failed>
    requires { T.printable one.now }
    ensures { Writes (K.state out.old) (K.state out.new) (T.text one.now) result }
{
    let mut room = Room::new();
    if room.gather(one) {
        put(out, room.as_slice())
    } else {
        one.put(out)
    }
}
