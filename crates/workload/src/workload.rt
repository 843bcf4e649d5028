ghost use Rattle.std.specs.Prelude.{◌≡◌, ◌+◌, ◌<◌, ◌≤◌, [], ◌∷◌, ◌++◌, length, IfOk, OnOk};
ghost use Rattle.causal_base.specs.declared.limits.TheConstants.{MOST_EVENTS, MOST_TRACES};
ghost use Rattle.workload.specs.Kept.{AreKept};
ghost use Rattle.workload.specs.Workload.{drawn, last_send, next_event, next_id, paired, received, step, workload};

use causal_base::{Event, EventId, Text};
use std::alloc::{AllocError, Global};

/// The type of a unary event.
const UNARY: u8 = 0;

/// The type of a send.
const SEND: u8 = 1;

/// The type of a receive.
const RECEIVE: u8 = 2;

/// The type of both events of a pair.
const SYNC: u8 = 3;

/// A list of events while it is made, and what is kept of each trace beside it, so that no step has
/// to search the list.
#[derive(Drop)]
pub struct Workload {
    alloc: Global,
    events: Vec<Event>,
    // For each trace, how many events it has, and its last send.
    counts: Vec<u32>,
    last_sends: Vec<Option<EventId>>,
    ghost kept: { AreKept events.items counts.items last_sends.items },
}

impl Workload {
    /// The list of `n` events over so many traces that is made from the number `start`: at most
    /// [`MOST_EVENTS`](causal_base::MOST_EVENTS) events, over 1 to
    /// [`MOST_TRACES`](causal_base::MOST_TRACES) traces, from a number up to 65,536. An event's time
    /// is its place, and its text is empty; the types are the built-in ones. It fails where there is
    /// no memory.
    pub fn make(alloc: Global, n: u32, start: u32, traces: u32) -> Result<Vec<Event>, AllocError>
        requires events { n ≤ MOST_EVENTS }
        requires start { start ≤ 65536 }
        requires some { 1 ≤ traces }
        requires traces { traces ≤ MOST_TRACES }
        ensures { IfOk result (λ events. events.items ≡ workload n start traces) }
    {
        let mut workload = Workload::new(alloc, n, traces)?;
        let mut x = start;
        let mut left = n;
        while left > 0 {
            let first = draw(x);
            let second = draw(first);
            let third = draw(second);
            workload.add_step(left, first % traces, second % 4, third % traces)?;
            left = n - workload.events.len() as u32;
            x = third;
        }
        Ok(workload.events)
    }

    /// No events, with memory for so many.
    fn new(alloc: Global, n: u32, traces: u32) -> Result<Workload, AllocError>
        ensures events { IfOk result (λ workload. workload.events.items ≡ []) }
        ensures traces { IfOk result (λ workload. length workload.counts.items ≡ traces) }
    {
        Ok(Workload {
            alloc,
            events: Vec::with_capacity(alloc, n as usize)?,
            counts: vec![in alloc; 0; traces as usize]?,
            last_sends: vec![in alloc; None; traces as usize]?,
        })
    }

    /// Adds what a step adds, where so many are still to be made. It fails where there is no
    /// memory.
    fn add_step(&mut self, left: u32, p: u32, choice: u32, q: u32) -> Result<(), AllocError>
        requires some { 1 ≤ left }
        requires few { length self.old.events.items + left ≤ MOST_EVENTS }
        requires p { p < length self.old.counts.items }
        requires q { q < length self.old.counts.items }
        ensures events { OnOk result (self.new.events.items
            ≡ self.old.events.items ++ step self.old.events.items left p choice q) }
        ensures traces { length self.new.counts.items ≡ length self.old.counts.items }
    {
        match choice {
            1 => self.add(p, SEND, None),
            2 => self.add_received(p, q),
            3 if p != q && left > 1 => self.add_pair(p, q),
            _ => self.add(p, UNARY, None),
        }
    }

    /// Adds a receive of the last send of a trace, and a unary event where there is none.
    fn add_received(&mut self, trace: u32, from: u32) -> Result<(), AllocError>
        requires few { length self.old.events.items < MOST_EVENTS }
        requires trace { trace < length self.old.counts.items }
        requires from { from < length self.old.counts.items }
        ensures events { OnOk result (self.new.events.items ≡ self.old.events.items
            ++ received self.old.events.items trace (last_send self.old.events.items from)) }
        ensures traces { length self.new.counts.items ≡ length self.old.counts.items }
    {
        match self.last_sends[from as usize] {
            Some(send) => self.add(trace, RECEIVE, Some(send)),
            None => self.add(trace, UNARY, None),
        }
    }

    /// Adds a pair, of which each names the other.
    fn add_pair(&mut self, first: u32, second: u32) -> Result<(), AllocError>
        requires few { length self.old.events.items + 2 ≤ MOST_EVENTS }
        requires first { first < length self.old.counts.items }
        requires second { second < length self.old.counts.items }
        ensures events { OnOk result (self.new.events.items
            ≡ self.old.events.items ++ paired self.old.events.items first second) }
        ensures traces { length self.new.counts.items ≡ length self.old.counts.items }
    {
        let id = self.next_id(first);
        let mate = self.next_id(second);
        self.add(first, SYNC, Some(mate))?;
        self.add(second, SYNC, Some(id))
    }

    /// Adds one event of a trace.
    fn add(&mut self, trace: u32, type_no: u8, mate: Option<EventId>) -> Result<(), AllocError>
        requires few { length self.old.events.items < MOST_EVENTS }
        requires trace { trace < length self.old.counts.items }
        ensures events { OnOk result (self.new.events.items ≡ self.old.events.items
            ++ next_event self.old.events.items trace type_no mate ∷ []) }
        ensures traces { length self.new.counts.items ≡ length self.old.counts.items }
    {
        let id = self.next_id(trace);
        self.events.push(Event {
            id,
            type_no,
            mate,
            time: self.events.len() as u64,
            text: Text::new(self.alloc, b"")?,
        })?;
        self.counts[trace as usize] = id.number;
        if type_no == SEND {
            self.last_sends[trace as usize] = Some(id);
        }
        Ok(())
    }

    /// The next id of a trace.
    fn next_id(&self, trace: u32) -> EventId
        requires few { length self.now.events.items < MOST_EVENTS }
        requires trace { trace < length self.now.counts.items }
        ensures { result ≡ next_id self.now.events.items trace }
    {
        EventId {
            trace,
            number: self.counts[trace as usize] + 1,
        }
    }
}

/// The draw after this one.
fn draw(x: u32) -> u32
    requires { x ≤ 65536 }
    ensures drawn { result ≡ drawn x }
    ensures small { result ≤ 65536 }
{
    (75 * x + 74) % 65_537
}
