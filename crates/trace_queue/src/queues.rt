ghost use Rattle.std.specs.Prelude.{◌≡◌, ℕ, ◌+◌, ◌<◌, false, length, map, None, Some, IfOk, OnOk, OnErr};
ghost use Rattle.std.specs.BTreeMap.{btree_map_len, get, is_at};
ghost use Rattle.std.specs.Ordering.{nat_cmp};
ghost use Rattle.std.specs.Option.{option_copied, option_to_list};
ghost use Rattle.causal_base.specs.declared.event_id.EventId.{EventId};
ghost use Rattle.causal_base.specs.declared.limits.TheConstants.{MOST_EVENTS};
ghost use Rattle.trace_queue.specs.Held.{count_held, held_at, HoldsNothing, KeepsOthers};

use causal_base::EventId;
use std::alloc::{AllocError, Global};
use std::collections::BTreeMap;
use std::marker::Model;

/// Values that are held until their turn on their trace comes. What a call costs grows with the
/// logarithm of how many its trace holds. Contracts see a map from ids to values.
#[derive(Debug, Drop)]
pub struct Queues<T> {
    queues: Vec<BTreeMap<u32, T>>,
    held: u32,
}

impl<T> Model for Queues<T> {
    ghost use Rattle.std.specs.Prelude.{◌≡◌, map};
    ghost use Rattle.trace_queue.specs.Held.{HeldValues, count_held};

    ghost Value = { HeldValues T };

    ghost view = { λ q. map (λ queue. queue.entries) q.queues.items };

    ghost invariant = { λ q. q.held ≡ count_held (map (λ queue. queue.entries) q.queues.items) };
}

impl<T> Queues<T> {
    /// Nothing is held, of so many traces. It fails where there is no memory.
    pub fn new(alloc: Global, traces: u32) -> Result<Queues<T>, AllocError>
        ensures { IfOk result (λ queues. HoldsNothing queues traces) }
    {
        Ok(Queues {
            queues: no_values(alloc, traces)?,
            held: 0,
        })
    }

    /// How many values are held.
    pub fn held(&self) -> u32
        ensures { result ≡ count_held self.now }
    {
        self.held
    }

    /// The value that is held under an id, if there is one.
    pub fn next(&self, id: EventId) -> Option<&T>
        ensures { option_copied result ≡ held_at self.now id }
    {
        self.queues.get(id.trace as usize)?.get(&id.number)
    }
}

impl<T: Drop> Queues<T> {
    /// Holds a value under an id of one of the traces, under which none is held. It fails where
    /// there is no memory: the value is dropped then, and all is as before.
    pub fn hold(&mut self, id: EventId, value: T) -> Result<(), AllocError>
        requires trace { id.trace < length self.old }
        requires absent { held_at self.old id ≡ None }
        requires few { count_held self.old < MOST_EVENTS }
        ensures ok { OnOk result (held_at self.new id ≡ Some value) }
        ensures others { OnOk result (KeepsOthers self.old self.new id) }
        ensures more { OnOk result (count_held self.new ≡ count_held self.old + 1) }
        ensures traces { OnOk result (length self.new ≡ length self.old) }
        ensures err { OnErr result (self.new ≡ self.old) }
    {
        insert_new(&mut self.queues[id.trace as usize], id.number, value)?;
        self.held += 1;
        Ok(())
    }

    /// Takes out the value that is held under an id of one of the traces, if there is one. It takes
    /// no memory.
    pub fn take(&mut self, id: EventId) -> Option<T>
        requires { id.trace < length self.old }
        ensures value { result ≡ held_at self.old id }
        ensures gone { held_at self.new id ≡ None }
        ensures others { KeepsOthers self.old self.new id }
        ensures fewer { count_held self.new + length (option_to_list result) ≡ count_held self.old }
        ensures traces { length self.new ≡ length self.old }
    {
        let value = self.queues[id.trace as usize].remove(&id.number);
        self.held -= number_of(&value);
        value
    }
}

/// So many queues that hold nothing.
fn no_values<T>(alloc: Global, traces: u32) -> Result<Vec<BTreeMap<u32, T>>, AllocError>
    ensures { IfOk result (λ queues. HoldsNothing (map (λ queue. queue.entries) queues.items)
        traces) }
{
    let mut queues = Vec::with_capacity(alloc, traces as usize)?;
    for _ in 0..traces {
        queues.push_reserved(BTreeMap::new(alloc));
    }
    Ok(queues)
}

/// Inserts a value under a number that has none. Where there is no memory, nothing changes.
fn insert_new<T: Drop>(
    queue: &mut BTreeMap<u32, T>,
    number: u32,
    value: T,
) -> Result<(), AllocError>
    requires { get nat_cmp queue.old number ≡ None }
    ensures ok { OnOk result (get nat_cmp queue.new number ≡ Some value) }
    ensures others { OnOk result ((other : ℕ) → is_at (nat_cmp number) other ≡ false
        → get nat_cmp queue.new other ≡ get nat_cmp queue.old other) }
    ensures more { OnOk result (btree_map_len queue.new ≡ btree_map_len queue.old + 1) }
    ensures err { OnErr result (queue.new.entries ≡ queue.old.entries) }
{
    queue.insert(number, value)?;
    Ok(())
}

/// One where there is a value, and else none.
fn number_of<T>(value: &Option<T>) -> u32
    ensures { result ≡ length (option_to_list value.now) }
{
    match value {
        Some(_) => 1,
        None => 0,
    }
}
