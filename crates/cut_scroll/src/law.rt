ghost use Rattle.std.specs.Prelude.{◌≡◌, ◌<◌, ◌++◌, All, List, ℕ, length, slice_index};
ghost use Rattle.causal_base.specs.declared.entry.Entry.{Entry};
ghost use Rattle.causal_base.specs.declared.event.Event.{Event};
ghost use Rattle.causal_base.specs.History.{count_on};
ghost use Rattle.causal_base.specs.Journal.{IsLegal, delivered_by};
ghost use Rattle.causal_base.specs.Types.{TypeTable};
ghost use Rattle.cut_scroll.specs.Cuts.{IsConsistent, joined, met};

/// The join and the meet of two consistent cuts are consistent.
pub fn cuts_join_and_meet()
    ensures join { (types : TypeTable) (events : List Event) (cut other : List ℕ)
        → IsConsistent types events cut → IsConsistent types events other
        → IsConsistent types events (joined cut other) }
    ensures meet { (types : TypeTable) (events : List Event) (cut other : List ℕ)
        → IsConsistent types events cut → IsConsistent types events other
        → IsConsistent types events (met cut other) }
{}

/// A cut that is consistent for a journal stays so, however the journal goes on.
pub fn cut_stays_consistent()
    ensures { (types : TypeTable) (journal more : List Entry) → IsLegal types (journal ++ more)
        → (cut : List ℕ) → IsConsistent types (delivered_by journal) cut
        → IsConsistent types (delivered_by (journal ++ more)) cut }
{}

/// The empty cut is consistent, and so is that of all delivered events.
pub fn ends_are_consistent()
    ensures empty { (types : TypeTable) (journal : List Entry) → IsLegal types journal
        → (cut : List ℕ) → length cut ≡ types.traces → All (λ count. count ≡ 0) cut
        → IsConsistent types (delivered_by journal) cut }
    ensures whole { (types : TypeTable) (journal : List Entry) → IsLegal types journal
        → (cut : List ℕ) → length cut ≡ types.traces
        → ((trace : ℕ) → trace < types.traces
        → slice_index cut trace ≡ count_on trace (delivered_by journal))
        → IsConsistent types (delivered_by journal) cut }
{}
