ghost use Rattle.std.specs.Prelude.{◌≡◌, ◌≤◌, length, IfOk};
ghost use Rattle.std.specs.List.Sorted.{IsStrictlyIncreasing};
ghost use Rattle.causal_base.specs.declared.limits.TheConstants.{MOST_TRACES};

use std::alloc::{AllocError, Global};
use std::marker::Model;
use std::sync::ArcSlice;

/// The traces of a cluster, in rising order. The stamps that are made while the cluster stays the
/// same hold one list of them in common. Contracts see the list.
#[derive(Debug, Drop)]
pub struct Members {
    traces: ArcSlice<u32>,
}

impl Model for Members {
    ghost use Rattle.std.specs.Prelude.{ℕ, List, ◌≤◌, length};
    ghost use Rattle.std.specs.List.Sorted.{IsStrictlyIncreasing};
    ghost use Rattle.std.specs.Arc.{arc_slice_items};
    ghost use Rattle.causal_base.specs.declared.limits.TheConstants.{MOST_TRACES};

    ghost Value = { List ℕ };

    ghost view = { λ m. arc_slice_items m.traces };

    ghost invariant = { λ m. IsStrictlyIncreasing (arc_slice_items m.traces)
        × (length (arc_slice_items m.traces) ≤ MOST_TRACES) };
}

impl Members {
    /// These traces, which rise. It fails where there is no memory.
    pub fn new(alloc: Global, traces: &[u32]) -> Result<Members, AllocError>
        requires rise { IsStrictlyIncreasing traces.now }
        requires few { length traces.now ≤ MOST_TRACES }
        ensures { IfOk result (λ members. members ≡ traces.now) }
    {
        Ok(Members {
            traces: ArcSlice::from_slice(alloc, traces)?,
        })
    }

    /// The same list, held in common. It takes no memory, and fails where the list is held too
    /// often to count.
    pub fn share(&self) -> Result<Members, AllocError>
        ensures { IfOk result (λ members. members ≡ self.now) }
    {
        Ok(Members {
            traces: self.traces.clone()?,
        })
    }

    /// The traces.
    pub fn traces(&self) -> &[u32]
        ensures value { result.now ≡ self.now }
        ensures rise { IsStrictlyIncreasing self.now }
        ensures few { length self.now ≤ MOST_TRACES }
    {
        self.traces.as_slice()
    }
}
