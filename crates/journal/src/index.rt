ghost use Rattle.std.specs.Prelude.{◌≡◌, ◌≢◌, if◌then◌else◌, ◌+◌, ◌<◌, ◌≤◌, length, slice_index, None, Some, IfOk, IfSome, IsSome, OnOk, OnErr};
ghost use Rattle.std.specs.Bool.{OnTrue};
ghost use Rattle.causal_base.specs.declared.event_id.EventId.{EventId};
ghost use Rattle.causal_base.specs.declared.limits.TheConstants.{MOST_EVENTS, MOST_TRACES};
ghost use Rattle.trace_queue.specs.Held.{count_held};
ghost use Rattle.journal.specs.Places.{HasSamePlaces, place_in_order, place_of};

use causal_base::{EventId, MOST_TRACES};
use shared_list::{SharedList, shares};
use std::alloc::{AllocError, Global};
use std::marker::Model;
use trace_queue::Queues;

/// Where the events that came lie, by their ids. Contracts see the places of each trace in the
/// order of their numbers, and those that wait for one before them.
#[derive(Debug, Drop)]
pub(crate) struct Index {
    in_order: Vec<SharedList<u32>>,
    early: Queues<u32>,
}

impl Model for Index {
    ghost use Rattle.std.specs.Prelude.{◌≡◌, length};
    ghost use Rattle.causal_base.specs.declared.limits.TheConstants.{MOST_TRACES};
    ghost use Rattle.journal.specs.Places.{PlaceIndex};

    ghost Value = { PlaceIndex };

    ghost view = { λ i. record { in_order = i.in_order.items; early = i.early } };

    ghost invariant = { λ i. length i.early ≡ MOST_TRACES };
}

impl Index {
    /// No places. It fails where there is no memory.
    pub(crate) fn new(alloc: Global) -> Result<Index, AllocError>
        ensures none { IfOk result (λ index. (id : EventId) → place_of index id ≡ None) }
        ensures held { IfOk result (λ index. count_held index.early ≡ 0) }
    {
        Ok(Index {
            in_order: Vec::new(alloc),
            early: Queues::new(alloc, MOST_TRACES)?,
        })
    }

    /// The place of the event with this id, if it came.
    pub(crate) fn place(&self, id: EventId) -> Option<u32>
        ensures { result ≡ place_of self.now id }
    {
        match place_of_order(&self.in_order, id) {
            Some(place) => Some(place),
            None => self.early.next(id).copied(),
        }
    }

    /// Adds the place of the event with this id. It fails where there is no memory, and then no id
    /// has another place.
    pub(crate) fn insert(&mut self, id: EventId, place: u32) -> Result<(), AllocError>
        requires absent { place_of self.old id ≡ None }
        requires trace { id.trace < MOST_TRACES }
        requires few { count_held self.old.early < MOST_EVENTS }
        ensures ok { OnOk result (place_of self.new id ≡ Some place) }
        ensures others { (other : EventId) → other ≢ id
            → place_of self.new other ≡ place_of self.old other }
        ensures err { OnErr result (place_of self.new id ≡ None) }
        ensures held { count_held self.new.early ≤ count_held self.old.early + 1 }
        ensures no_more { OnErr result (count_held self.new.early ≤ count_held self.old.early) }
    {
        grow(&mut self.in_order, id.trace)?;
        let places = &mut self.in_order[id.trace as usize];
        if id.number == 0 || u64::from(id.number - 1) != places.len() {
            return self.early.hold(id, place);
        }
        places.reserve()?;
        places.push(place);
        catch_up(&mut self.in_order, &mut self.early, id.trace);
        Ok(())
    }

    /// Moves the places that wait for none before them any more into the order, as far as there is
    /// memory.
    pub(crate) fn catch_up_all(&mut self)
        ensures same { HasSamePlaces self.old self.new }
        ensures held { count_held self.new.early ≤ count_held self.old.early }
    {
        catch_up_each(&mut self.in_order, &mut self.early);
    }

    /// Whether of each trace so many places are in order.
    pub(crate) fn reaches(&self, counts: &[u32; MOST_TRACES as usize]) -> bool
        ensures { OnTrue result ((id : EventId) → id.trace < MOST_TRACES → 1 ≤ id.number
            → id.number ≤ slice_index counts.now id.trace
            → IsSome (place_in_order self.now.in_order id)) }
    {
        for trace in 0..MOST_TRACES as usize {
            if count_in_order(&self.in_order, trace) < u64::from(counts[trace]) {
                return false;
            }
        }
        true
    }

    /// The places that are in order, shared.
    pub(crate) fn share_in_order(&self, alloc: Global) -> Result<Vec<SharedList<u32>>, AllocError>
        ensures { IfOk result (λ shared. (id : EventId)
            → place_in_order shared.items id ≡ place_in_order self.now.in_order id) }
    {
        shares(alloc, &self.in_order)
    }
}

/// Makes a list for a trace, and for each below it, where there is none.
fn grow(in_order: &mut Vec<SharedList<u32>>, trace: u32) -> Result<(), AllocError>
    ensures ok { OnOk result (trace < length in_order.new.items) }
    ensures same { (id : EventId)
        → place_in_order in_order.new.items id ≡ place_in_order in_order.old.items id }
{
    while in_order.len() <= trace as usize {
        in_order.push(SharedList::new(*in_order.allocator()))?;
    }
    Ok(())
}

/// Moves the places of a trace that wait for none before them any more into the order, as far as
/// there is memory.
fn catch_up(in_order: &mut Vec<SharedList<u32>>, early: &mut Queues<u32>, trace: u32)
    requires queue { trace < length early.old }
    ensures same { HasSamePlaces (record { in_order = in_order.old.items; early = early.old })
        (record { in_order = in_order.new.items; early = early.new }) }
    ensures held { count_held early.new ≤ count_held early.old }
    ensures queues { length early.new ≡ length early.old }
{
    while early.held() > 0 && move_next(in_order, early, trace) {}
}

/// Does so for each trace.
fn catch_up_each(in_order: &mut Vec<SharedList<u32>>, early: &mut Queues<u32>)
    requires { length early.old ≡ MOST_TRACES }
    ensures same { HasSamePlaces (record { in_order = in_order.old.items; early = early.old })
        (record { in_order = in_order.new.items; early = early.new }) }
    ensures held { count_held early.new ≤ count_held early.old }
    ensures queues { length early.new ≡ length early.old }
{
    for trace in 0..MOST_TRACES {
        catch_up(in_order, early, trace);
    }
}

/// How many places of a trace are in order.
fn count_in_order(in_order: &[SharedList<u32>], trace: usize) -> u64
    ensures { (id : EventId) → id.trace ≡ trace → 1 ≤ id.number → id.number ≤ result
        → IsSome (place_in_order in_order.now id) }
{
    match in_order.get(trace) {
        Some(places) => places.len(),
        None => 0,
    }
}

/// The place of the event with this id among those that are in order, if it is.
pub(crate) fn place_of_order(in_order: &[SharedList<u32>], id: EventId) -> Option<u32>
    ensures { result ≡ place_in_order in_order.now id }
{
    if id.number == 0 {
        return None;
    }
    let places = in_order.get(id.trace as usize)?;
    places.get(u64::from(id.number - 1)).copied()
}

/// Moves the next place of a trace into the order, and says whether it did: there may be none, or
/// no memory.
fn move_next(in_order: &mut Vec<SharedList<u32>>, early: &mut Queues<u32>, trace: u32) -> bool
    requires queue { trace < length early.old }
    ensures same { HasSamePlaces (record { in_order = in_order.old.items; early = early.old })
        (record { in_order = in_order.new.items; early = early.new }) }
    ensures held { count_held early.new + (if result then 1 else 0) ≡ count_held early.old }
    ensures queues { length early.new ≡ length early.old }
{
    if in_order.len() <= trace as usize {
        return false;
    }
    let places = &mut in_order[trace as usize];
    let Some(id) = id_after(trace, places.len()) else {
        return false;
    };
    if early.next(id).is_none() || places.reserve().is_err() {
        return false;
    }
    match early.take(id) {
        Some(place) => {
            places.push(place);
            true
        }
        None => false,
    }
}

/// The id of the event of a trace that has so many before it, if there may be one.
fn id_after(trace: u32, before: u64) -> Option<EventId>
    ensures { IfSome result (λ id. (id.trace ≡ trace) × (id.number ≡ before + 1)) }
{
    let number = u32::try_from(before).ok()?.checked_add(1)?;
    Some(EventId { trace, number })
}
