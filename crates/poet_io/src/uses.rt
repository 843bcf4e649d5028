ghost use Rattle.std.specs.Prelude.{◌≡◌, List, [], ◌∷◌, IfSome, IfNone};
ghost use Rattle.poet_io.specs.declared.uses.Use.{Use};

use crate::Bytes;
use std::alloc::{AllocError, Global};
use std::marker::Model;
use std::mem;

/// What became of one file of a folder.
#[derive(Debug, Drop)]
pub enum Use {
    /// The file of this name failed to open.
    Refused(Bytes),
    /// The file was given back: its name, the bytes that were left of it, and whether a read of it
    /// had failed.
    Closed(Bytes, Bytes, bool),
}

// The newest of them, and behind it the older ones.
#[derive(Debug, Drop)]
enum Chain {
    End,
    More(Use, Box<Chain>),
}

/// Room for one more.
#[derive(Debug, Drop)]
pub struct Room {
    link: Box<Chain>,
}

impl Room {
    pub fn new(alloc: Global) -> Result<Room, AllocError> {
        Ok(Room {
            link: Box::new(alloc, Chain::End)?,
        })
    }
}

/// What became of the files of a folder, the newest first.
#[derive(Debug, Drop)]
pub struct Uses {
    chain: Chain,
}

impl Model for Uses {
    ghost use Rattle.std.specs.Prelude.{List};
    ghost use Rattle.poet_io.specs.declared.uses.Use.{Use};
    ghost use Rattle.poet_io.specs.Chains.{items_of};

    ghost Value = { List Use };

    ghost view = { λ uses. items_of uses.chain };
}

impl Uses {
    /// No file was used yet.
    pub fn new() -> Uses
        ensures { result ≡ [] }
    {
        Uses { chain: Chain::End }
    }

    /// Adds the newest, in this room. It takes no memory.
    pub fn add(&mut self, newest: Use, room: Room)
        ensures { self.new ≡ newest ∷ self.old }
    {
        let mut older = room.link;
        *older = mem::replace(&mut self.chain, Chain::End);
        self.chain = Chain::More(newest, older);
    }

    /// The newest, if there is one.
    pub fn newest(&self) -> Option<&Use>
        ensures some { IfSome result (λ newest. (older : List Use)
            × (self.now ≡ newest.now ∷ older)) }
        ensures none { IfNone result (self.now ≡ []) }
    {
        match &self.chain {
            Chain::End => None,
            Chain::More(newest, _) => Some(newest),
        }
    }
}
