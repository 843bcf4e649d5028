ghost use Rattle.std.specs.Prelude.{◌≡◌, ◌≢◌, ◌≤◌, ◌↔◌, ℕ, List, All, AllPairs, Contains, length};
ghost use Rattle.causal_base.specs.declared.event.Event.{Event};
ghost use Rattle.causal_base.specs.declared.limits.TheConstants.{MOST_EVENTS, MOST_TRACES};
ghost use Rattle.causal_base.specs.Event.{IsFit};
ghost use Rattle.causal_base.specs.History.{EventBlock, IsCausal, all_events};
ghost use Rattle.causal_base.specs.Spelling.{spelling};
ghost use Rattle.causal_base.specs.Types.{builtin_types};
ghost use Rattle.workload.specs.Workload.{workload};

/// The list has as many events as it should, they are fit and have ids of their own, each is spelled
/// with at most 31 bytes, and all of them can be delivered in causal order.
pub fn workload_goes_whole()
    ensures length { (n start traces : ℕ) → length (workload n start traces) ≡ n }
    ensures own_ids { (n start traces : ℕ) → AllPairs (λ a b. a.id ≢ b.id) (workload n start traces) }
    ensures fit { (n start traces : ℕ) → n ≤ MOST_EVENTS → 1 ≤ traces
        → All (IsFit (builtin_types traces)) (workload n start traces) }
    ensures short { (n start traces : ℕ) → n ≤ MOST_EVENTS → 1 ≤ traces → traces ≤ MOST_TRACES
        → All (λ e. length (spelling (builtin_types traces) e) ≤ 31) (workload n start traces) }
    ensures causal { (n start traces : ℕ) → 1 ≤ traces → (history : List EventBlock)
        × IsCausal (builtin_types traces) history
        × ((e : Event) → Contains (all_events history) e ↔ Contains (workload n start traces) e) }
{}
