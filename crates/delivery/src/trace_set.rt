ghost use Rattle.std.specs.Prelude.{◌≡◌, ◌≢◌, ◌<◌, ◌≤◌, ◌⊎◌, ◌↔◌, ℕ, IfSome, IfNone};
ghost use Rattle.causal_base.specs.declared.limits.TheConstants.{MOST_TRACES};
ghost use Rattle.delivery.specs.TraceSets.{IsIn};

use causal_base::MOST_TRACES;
use std::marker::Model;

/// How many traces a word tells of.
const WORD: u32 = 64;

/// How many words tell of all traces.
const WORDS: usize = (MOST_TRACES / WORD) as usize;

/// A set of traces. Each call costs a constant, and none takes memory. Contracts see its words.
#[derive(Debug, Drop)]
pub(crate) struct TraceSet {
    words: [u64; WORDS],
}

impl Model for TraceSet {
    ghost use Rattle.std.specs.Prelude.{ℕ, List};

    ghost Value = { List ℕ };

    ghost view = { λ s. s.words };
}

impl TraceSet {
    /// The empty set.
    pub(crate) fn new() -> TraceSet
        ensures { (trace : ℕ) → trace < MOST_TRACES → IsIn result trace → ⊥ }
    {
        TraceSet { words: [0; WORDS] }
    }

    /// Adds a trace.
    pub(crate) fn insert(&mut self, trace: u32)
        requires { trace < MOST_TRACES }
        ensures { (other : ℕ) → other < MOST_TRACES
            → IsIn self.new other ↔ (IsIn self.old other ⊎ (other ≡ trace)) }
    {
        self.words[(trace / WORD) as usize] |= 1 << (trace % WORD);
    }

    /// Takes out a trace.
    pub(crate) fn remove(&mut self, trace: u32)
        requires { trace < MOST_TRACES }
        ensures { (other : ℕ) → other < MOST_TRACES
            → IsIn self.new other ↔ (IsIn self.old other × (other ≢ trace)) }
    {
        self.words[(trace / WORD) as usize] &= !(1 << (trace % WORD));
    }

    /// The lowest trace of the set, if it has one.
    pub(crate) fn lowest(&self) -> Option<u32>
        ensures some { IfSome result (λ trace. (trace < MOST_TRACES) × IsIn self.now trace
            × ((other : ℕ) → other < MOST_TRACES → IsIn self.now other → trace ≤ other)) }
        ensures none { IfNone result ((trace : ℕ) → trace < MOST_TRACES
            → IsIn self.now trace → ⊥) }
    {
        for at in 0..WORDS {
            let word = self.words[at];
            if word != 0 {
                return Some(at as u32 * WORD + word.trailing_zeros());
            }
        }
        None
    }
}
