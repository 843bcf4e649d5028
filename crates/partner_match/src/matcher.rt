ghost use Rattle.std.specs.Prelude.{◌≡◌, ◌≢◌, ◌≤◌, [], length, OnOk, OnErr};
ghost use Rattle.causal_base.specs.declared.event_id.EventId.{EventId};
ghost use Rattle.partner_match.specs.Waiting.{waiting_for, waiting_under, WaitsToo};

use crate::waiters::Waiters;
use causal_base::EventId;
use std::alloc::{AllocError, Global};
use std::marker::Model;

/// For events that haven't gone yet, the traces that may go on once they have. What a call costs
/// grows with the logarithm of how many events of the same trace are waited for. Contracts see ids,
/// each with its traces.
#[derive(Debug, Drop)]
pub struct Matcher {
    // One for each trace, up to the highest that was ever waited for.
    waiting: Vec<Waiters>,
    alloc: Global,
}

impl Model for Matcher {
    ghost use Rattle.partner_match.specs.Waiting.{Waits};

    ghost Value = { Waits };

    ghost view = { λ m. m.waiting.items };
}

impl Matcher {
    /// No trace waits for an event. It takes no memory.
    pub fn new(alloc: Global) -> Matcher
        ensures { result ≡ [] }
    {
        Matcher {
            waiting: Vec::new(alloc),
            alloc,
        }
    }

    /// A trace waits for the event with this id. It fails where there is no memory, and then
    /// nothing changes.
    pub fn wait(&mut self, on: EventId, trace: u32) -> Result<(), AllocError>
        ensures ok { OnOk result (WaitsToo self.old self.new on trace) }
        ensures err { OnErr result (self.new ≡ self.old) }
    {
        if (on.trace as usize) < self.waiting.len() {
            return self.waiting[on.trace as usize].wait(self.alloc, on.number, trace);
        }
        let mut waiters = Waiters::new(self.alloc);
        waiters.wait(self.alloc, on.number, trace)?;
        put_behind(&mut self.waiting, self.alloc, on.trace, waiters)
    }

    /// The traces that wait for the event with this id.
    pub fn woken(&self, on: EventId) -> &[u32]
        ensures { result.now ≡ waiting_for self.now on }
    {
        match self.waiting.get(on.trace as usize) {
            Some(waiters) => waiters.woken(on.number),
            None => &[],
        }
    }

    /// No trace waits for the event with this id any more. It takes no memory.
    pub fn forget(&mut self, on: EventId)
        ensures gone { waiting_for self.new on ≡ [] }
        ensures others { (other : EventId) → other ≢ on
            → waiting_for self.new other ≡ waiting_for self.old other }
    {
        if (on.trace as usize) < self.waiting.len() {
            self.waiting[on.trace as usize].forget(on.number);
        }
    }
}

/// Puts those that wait for events of a trace behind the others, and for each trace between them
/// none. It fails where there is no memory, and then nothing changes.
fn put_behind(
    waiting: &mut Vec<Waiters>,
    alloc: Global,
    trace: u32,
    waiters: Waiters,
) -> Result<(), AllocError>
    requires { length waiting.old.items ≤ trace }
    ensures here { OnOk result ((id : EventId) → id.trace ≡ trace
        → waiting_for waiting.new.items id ≡ waiting_under waiters id.number) }
    ensures elsewhere { OnOk result ((id : EventId) → id.trace ≢ trace
        → waiting_for waiting.new.items id ≡ waiting_for waiting.old.items id) }
    ensures err { OnErr result (waiting.new.items ≡ waiting.old.items) }
{
    waiting.reserve(trace as usize + 1 - waiting.len())?;
    for _ in waiting.len()..trace as usize {
        waiting.push_reserved(Waiters::new(alloc));
    }
    waiting.push_reserved(waiters);
    Ok(())
}
