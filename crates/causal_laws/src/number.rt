ghost use Rattle.std.specs.Prelude.{◌≡◌, ◌<◌, ◌≤◌, ◌↔◌, ℕ, List, length, Contains};
ghost use Rattle.std.specs.List.{sum_by};
ghost use Rattle.causal_base.specs.declared.entry.Entry.{Entry};
ghost use Rattle.causal_base.specs.declared.event.Event.{Event};
ghost use Rattle.causal_base.specs.Types.{TypeTable};
ghost use Rattle.causal_base.specs.Clusters.{numbers_below};
ghost use Rattle.causal_base.specs.History.{count_on};
ghost use Rattle.causal_base.specs.Journal.{IsLegal, delivered_by};

/// The delivered events of a trace are numbered from 1 to their count.
pub fn delivered_are_numbered()
    ensures { (types : TypeTable) (journal : List Entry) → IsLegal types journal
        → (trace number : ℕ)
        → ((1 ≤ number) × (number ≤ count_on trace (delivered_by journal)))
        ↔ ((e : Event) × Contains (delivered_by journal) e
        × (e.id.trace ≡ trace) × (e.id.number ≡ number)) }
{}

/// No two delivered events have one id.
pub fn delivered_has_own_id()
    ensures { (types : TypeTable) (journal : List Entry) → IsLegal types journal
        → (a b : Event) → Contains (delivered_by journal) a → Contains (delivered_by journal) b
        → a.id ≡ b.id → a ≡ b }
{}

/// The trace of a delivered event is one of the traces.
pub fn delivered_is_on_a_trace()
    ensures { (types : TypeTable) (journal : List Entry) → IsLegal types journal
        → (e : Event) → Contains (delivered_by journal) e → e.id.trace < types.traces }
{}

/// The numbers of delivered events on the first of the traces add up to no more than all that are
/// delivered, and those on all traces to as many.
pub fn delivered_are_counted()
    ensures first { (types : TypeTable) (journal : List Entry) → IsLegal types journal
        → (traces : ℕ) → sum_by (λ trace. count_on trace (delivered_by journal))
        (numbers_below traces) ≤ length (delivered_by journal) }
    ensures all { (types : TypeTable) (journal : List Entry) → IsLegal types journal
        → sum_by (λ trace. count_on trace (delivered_by journal)) (numbers_below types.traces)
        ≡ length (delivered_by journal) }
{}
