ghost use Rattle.std.specs.Prelude.{◌≡◌, ◌+◌, ◌<◌, ◌≤◌, [], ◌∷◌, ◌++◌, ◌↔◌, length, IfOk, OnOk, OnErr, IsNone, slice_get, vec_len, vec_capacity, take, drop};
ghost use Rattle.std.specs.Option.{option_copied};

use crate::piece::{Piece, copies};
use crate::spine::{BLOCK_ITEMS, Spine, nth};
use std::alloc::{AllocError, Global};
use std::marker::Model;
use std::mem;

/// How many items the open block has room for.
const OPEN_ITEMS: usize = BLOCK_ITEMS + 1;

/// A list that grows at its end and is shared cheaply. Full blocks of 64 items are held in common,
/// and a list has an open block of its own. Contracts see its items, and how many more it has room
/// for.
#[derive(Debug, Drop)]
pub struct SharedList<T> {
    spine: Spine<T>,
    tail: Vec<T>,
}

impl<T> Model for SharedList<T> {
    ghost use Rattle.std.specs.Prelude.{◌++◌, ◌-◌, ◌≤◌, vec_len, vec_capacity, take, drop};
    ghost use Rattle.shared_list.specs.Shared.{Shared};

    ghost Value = { Shared T };

    ghost view = { λ l. record {
      items = l.spine ++ l.tail.items;
      spare = vec_capacity l.tail - vec_len l.tail;
    } };

    ghost invariant = { λ l. vec_capacity l.tail ≤ 65 };
}

impl<T> SharedList<T> {
    /// The empty list, with no room. It takes no memory.
    pub fn new(alloc: Global) -> SharedList<T>
        ensures items { result.items ≡ [] }
        ensures spare { result.spare ≡ 0 }
    {
        SharedList {
            spine: Spine::new(alloc),
            tail: Vec::new(alloc),
        }
    }

    /// Adds an item at the end. It takes no memory.
    pub fn push(&mut self, item: T)
        requires { 1 ≤ self.old.spare }
        ensures items { self.new.items ≡ self.old.items ++ item ∷ [] }
        ensures spare { self.new.spare + 1 ≡ self.old.spare }
    {
        self.tail.push_reserved(item);
    }

    /// The item at a place, counted from 0, if there is one.
    pub fn get(&self, at: u64) -> Option<&T>
        ensures item { option_copied result ≡ slice_get self.now.items at }
        ensures none { IsNone result ↔ (length self.now.items ≤ at) }
    {
        let at = at as usize;
        let sealed = self.spine.len();
        if at < sealed {
            self.spine.get(at)
        } else {
            nth(&self.tail, at - sealed)
        }
    }

    /// How many items there are.
    pub fn len(&self) -> u64
        ensures { result ≡ length self.now.items }
    {
        (self.spine.len() + self.tail.len()) as u64
    }
}

impl<T: Drop> SharedList<T> {
    /// Makes room for at least two more items. It fails where there is no memory.
    pub fn reserve(&mut self) -> Result<(), AllocError>
        ensures items { self.new.items ≡ self.old.items }
        ensures room { OnOk result (2 ≤ self.new.spare) }
        ensures err { OnErr result (self.new ≡ self.old) }

        // Room never gets less, and is that of one block at most.
        ensures kept { self.old.spare ≤ self.new.spare }
        ensures most { self.new.spare ≤ 65 }
    {
        let held = self.tail.len();
        if held < BLOCK_ITEMS {
            self.tail.reserve_exact(OPEN_ITEMS - held)
        } else {
            seal(&mut self.spine, &mut self.tail)
        }
    }
}

impl<T: Piece> SharedList<T> {
    /// A list of equal items, with no room. Later pushes on either don't change the other. It holds
    /// the full blocks in common and copies the open one, and fails where there is no memory.
    pub fn share(&self, alloc: Global) -> Result<SharedList<T>, AllocError>
        ensures items { IfOk result (λ shared. shared.items ≡ self.now.items) }
        ensures spare { IfOk result (λ shared. shared.spare ≡ 0) }
    {
        Ok(SharedList {
            spine: self.spine.share(alloc)?,
            tail: copies(alloc, &self.tail)?,
        })
    }
}

/// Gives the first 64 items of an open block to the spine, and opens a block with the others.
/// Where it is refused, nothing changes.
fn seal<T: Drop>(spine: &mut Spine<T>, tail: &mut Vec<T>) -> Result<(), AllocError>
    requires full { 64 ≤ vec_len tail.old }
    requires fits { vec_capacity tail.old ≤ 65 }
    ensures items { spine.new ++ tail.new.items ≡ spine.old ++ tail.old.items }
    ensures room { OnOk result (vec_len tail.new + 64 ≤ vec_capacity tail.new) }
    ensures fits { vec_capacity tail.new ≤ 65 }
    ensures spine { OnErr result (spine.new ≡ spine.old) }
    ensures tail { OnErr result (tail.new.items ≡ tail.old.items) }
    ensures same_room { OnErr result (vec_capacity tail.new ≡ vec_capacity tail.old) }
{
    let mut next = Vec::with_capacity(*tail.allocator(), OPEN_ITEMS)?;
    move_end(tail, BLOCK_ITEMS, &mut next);
    let block = mem::replace(tail, next);
    match spine.push(block) {
        Ok(()) => Ok(()),
        Err(failed) => {
            let mut next = mem::replace(tail, failed.value);
            move_end(&mut next, 0, tail);
            Err(AllocError)
        }
    }
}

/// Moves the item past the first `kept`, if there is one, to the end of a vector with room for it.
fn move_end<T>(from: &mut Vec<T>, kept: usize, to: &mut Vec<T>)
    requires one { vec_len from.old ≤ kept + 1 }
    requires room { vec_len from.old + vec_len to.old ≤ kept + vec_capacity to.old }
    ensures from { from.new.items ≡ take kept from.old.items }
    ensures to { to.new.items ≡ to.old.items ++ drop kept from.old.items }
    ensures from_room { vec_capacity from.new ≡ vec_capacity from.old }
    ensures to_room { vec_capacity to.new ≡ vec_capacity to.old }
{
    if from.len() > kept
        && let Some(item) = from.pop()
    {
        to.push_reserved(item);
    }
}
