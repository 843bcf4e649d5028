ghost use Rattle.std.specs.Prelude.{◌≡◌, ℕ, ◌+◌, ◌<◌, ◌≤◌, [], ◌∷◌, ◌++◌, length, map, IfOk, OnOk, slice_get, slice_index, replicate};
ghost use Rattle.std.specs.Option.{option_copied};
ghost use Rattle.shared_list.specs.Traces.{list_of, with_item};
ghost use Rattle.shared_list.specs.Shared.{unspared, no_items};

use crate::piece::Piece;
use crate::shared_list::SharedList;
use crate::spine::nth;
use std::alloc::{AllocError, Global};
use std::marker::Model;

/// How many items there may be where room is made for more, so that each place has 32 bits.
const MOST_ITEMS: u64 = u32::MAX as u64 - 65;

/// A list for each trace, shared cheaply. The items of all traces are kept in one list, in the
/// order of adding, so a share copies one open block of them, however many traces there are.
/// Contracts see the lists, and how many more items of each trace there is room for.
#[derive(Debug, Drop)]
pub struct TraceLists<T> {
    items: SharedList<T>,
    places: Vec<SharedList<u32>>,
}

impl<T> Model for TraceLists<T> {
    ghost use Rattle.std.specs.Prelude.{List, length};
    ghost use Rattle.shared_list.specs.Traces.{Traces, lists_of, spares_of, ArePlaces};

    ghost Value = { Traces T };

    ghost view = { λ t. record {
      lists = lists_of t.items.items t.places.items;
      spare = spares_of t.items.spare t.places.items;
    } };

    ghost invariant = { λ t. ArePlaces t.items t.places.items };
}

impl<T> TraceLists<T> {
    /// So many empty lists, with no room. It fails where there is no memory.
    pub fn new(alloc: Global, traces: u32) -> Result<TraceLists<T>, AllocError>
        ensures lists { IfOk result (λ made. made.lists ≡ replicate traces []) }
        ensures spare { IfOk result (λ made. made.spare ≡ replicate traces 0) }
    {
        let places = empty_lists(alloc, traces)?;
        Ok(TraceLists {
            items: SharedList::new(alloc),
            places,
        })
    }

    /// Adds an item at the end of a trace's list. It takes no memory.
    pub fn push(&mut self, trace: u32, item: T)
        requires { 1 ≤ slice_index self.old.spare trace }
        ensures lists { self.new.lists ≡ with_item self.old.lists trace item }
        ensures spare { (k : ℕ) → slice_index self.old.spare k ≤ slice_index self.new.spare k + 1 }
    {
        let place = self.items.len() as u32;
        self.items.push(item);
        self.places[trace as usize].push(place);
    }

    /// The item at a place of a trace's list, counted from 0, if there is one.
    pub fn get(&self, trace: u32, at: u32) -> Option<&T>
        ensures { option_copied result ≡ slice_get (list_of self.now.lists trace) at }
    {
        let place = nth(&self.places, trace as usize)?.get(u64::from(at))?;
        self.items.get(u64::from(*place))
    }

    /// How many items a trace's list has.
    pub fn len(&self, trace: u32) -> u32
        ensures { result ≡ length (list_of self.now.lists trace) }
    {
        match nth(&self.places, trace as usize) {
            Some(places) => places.len() as u32,
            None => 0,
        }
    }

    /// How many traces there are.
    pub fn traces(&self) -> u32
        ensures lists { result ≡ length self.now.lists }
        ensures spare { result ≡ length self.now.spare }
    {
        self.places.len() as u32
    }
}

impl<T: Drop> TraceLists<T> {
    /// Makes room for at least two more items of a trace. It fails where there is no memory, and
    /// where all traces have more than 2^32 - 66 items, since a place among them has 32 bits.
    pub fn reserve(&mut self, trace: u32) -> Result<(), AllocError>
        requires { trace < length self.old.lists }
        ensures lists { self.new.lists ≡ self.old.lists }
        ensures room { OnOk result (2 ≤ slice_index self.new.spare trace) }

        // The room of no trace gets less, whatever the answer.
        ensures kept { (k : ℕ) → slice_index self.old.spare k ≤ slice_index self.new.spare k }
    {
        if self.items.len() > MOST_ITEMS {
            return Err(AllocError);
        }
        self.items.reserve()?;
        self.places[trace as usize].reserve()
    }
}

impl<T: Piece> TraceLists<T> {
    /// Equal lists, with no room. Later pushes on either don't change the other. It fails where
    /// there is no memory.
    pub fn share(&self, alloc: Global) -> Result<TraceLists<T>, AllocError>
        ensures lists { IfOk result (λ shared. shared.lists ≡ self.now.lists) }
        ensures spare { IfOk result (λ shared. shared.spare ≡ replicate (length self.now.lists) 0) }
    {
        Ok(TraceLists {
            items: self.items.share(alloc)?,
            places: shares(alloc, &self.places)?,
        })
    }
}

/// So many empty lists.
fn empty_lists(alloc: Global, count: u32) -> Result<Vec<SharedList<u32>>, AllocError>
    ensures { IfOk result (λ lists. lists.items ≡ replicate count no_items) }
{
    let mut lists = Vec::with_capacity(alloc, count as usize)?;
    for _ in 0..count {
        lists.push_reserved(SharedList::new(alloc));
    }
    Ok(lists)
}

/// A share of each list. It fails where there is no memory.
pub fn shares(alloc: Global, lists: &[SharedList<u32>]) -> Result<Vec<SharedList<u32>>, AllocError>
    ensures { IfOk result (λ shared. shared.items ≡ map unspared lists.now) }
{
    let mut shared = Vec::with_capacity(alloc, lists.len())?;
    for list in lists {
        shared.push_reserved(list.share(alloc)?);
    }
    Ok(shared)
}
