ghost use Rattle.std.specs.Prelude.{◌≡◌, ◌≢◌, ◌⊎◌, ◌↔◌, ℕ, [], ◌∷◌, Contains, OnOk, OnErr};
ghost use Rattle.partner_match.specs.Waiting.{waiting_under};

use smallvec::SmallVec;
use std::alloc::{AllocError, Global};
use std::collections::BTreeMap;
use std::marker::Model;
use std::slice;

/// How many traces wait for an event at most, so that no list of its own is needed.
const FEW_TRACES: usize = 4;

/// For the events of one trace, by their numbers, the traces that wait for them. Contracts see
/// numbers, each with its traces.
#[derive(Debug, Drop)]
pub(crate) struct Waiters {
    // Most events are waited for by one trace alone. A map of lists would have four times the
    // memory to be looked through.
    alone: BTreeMap<u32, u32>,
    several: BTreeMap<u32, SmallVec<u32, FEW_TRACES>>,
}

impl Model for Waiters {
    ghost use Rattle.std.specs.Prelude.{List, ℕ, [], ◌∷◌, ◌++◌, map};

    ghost Value = { List (ℕ × List ℕ) };

    ghost view = { λ w. map (λ entry. (entry.0, entry.1 ∷ [])) w.alone.entries
        ++ map (λ entry. (entry.0, entry.1.items)) w.several.entries };
}

impl Waiters {
    /// No trace waits for an event. It takes no memory.
    pub(crate) fn new(alloc: Global) -> Waiters
        ensures { result ≡ [] }
    {
        Waiters {
            alone: BTreeMap::new(alloc),
            several: BTreeMap::new(alloc),
        }
    }

    /// A trace waits for the event with this number. It fails where there is no memory, and then
    /// nothing changes.
    pub(crate) fn wait(&mut self, alloc: Global, number: u32, trace: u32) -> Result<(), AllocError>
        ensures here { OnOk result ((other : ℕ) → Contains (waiting_under self.new number) other
            ↔ (Contains (waiting_under self.old number) other ⊎ (other ≡ trace))) }
        ensures elsewhere { OnOk result ((other : ℕ) → other ≢ number
            → waiting_under self.new other ≡ waiting_under self.old other) }
        ensures err { OnErr result (self.new ≡ self.old) }
    {
        if let Some(first) = self.alone.get(&number).copied() {
            return self.wait_beside(alloc, number, first, trace);
        }
        match self.several.get_mut(&number) {
            Some(traces) => add(traces, trace),
            None => {
                self.alone.insert(number, trace)?;
                Ok(())
            }
        }
    }

    /// A trace waits for the event with this number beside the one that waited alone. It fails
    /// where there is no memory, and then nothing changes.
    fn wait_beside(
        &mut self,
        alloc: Global,
        number: u32,
        first: u32,
        trace: u32,
    ) -> Result<(), AllocError>
        requires { waiting_under self.old number ≡ first ∷ [] }
        ensures here { OnOk result ((other : ℕ) → Contains (waiting_under self.new number) other
            ↔ (Contains (waiting_under self.old number) other ⊎ (other ≡ trace))) }
        ensures elsewhere { OnOk result ((other : ℕ) → other ≢ number
            → waiting_under self.new other ≡ waiting_under self.old other) }
        ensures err { OnErr result (self.new ≡ self.old) }
    {
        if first == trace {
            return Ok(());
        }
        let mut traces = SmallVec::from_slice(alloc, &[first])?;
        add(&mut traces, trace)?;
        self.several.insert(number, traces)?;
        self.alone.remove(&number);
        Ok(())
    }

    /// The traces that wait for the event with this number.
    pub(crate) fn woken(&self, number: u32) -> &[u32]
        ensures { result.now ≡ waiting_under self.now number }
    {
        if let Some(trace) = self.alone.get(&number) {
            return slice::from_ref(trace);
        }
        match self.several.get(&number) {
            Some(traces) => traces.as_slice(),
            None => &[],
        }
    }

    /// No trace waits for the event with this number any more. It takes no memory.
    pub(crate) fn forget(&mut self, number: u32)
        ensures gone { waiting_under self.new number ≡ [] }
        ensures others { (other : ℕ) → other ≢ number
            → waiting_under self.new other ≡ waiting_under self.old other }
    {
        self.alone.remove(&number);
        self.several.remove(&number);
    }
}

/// Adds a trace to those that wait, where it isn't one of them. They are kept in rising order, so
/// that many events of a trace that wait for one are looked for by halves and kept as one.
fn add(traces: &mut SmallVec<u32, FEW_TRACES>, trace: u32) -> Result<(), AllocError>
    ensures ok { OnOk result ((other : ℕ) → Contains traces.new.items other
        ↔ (Contains traces.old.items other ⊎ (other ≡ trace))) }
    ensures err { OnErr result (traces.new ≡ traces.old) }
{
    if let Err(at) = traces.as_slice().binary_search(&trace) {
        traces.insert(at, trace)?;
    }
    Ok(())
}
