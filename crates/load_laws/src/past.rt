ghost use Rattle.std.specs.Prelude.{◌≡◌, ◌+◌, ℕ, List, Contains, length, sum};
ghost use Rattle.causal_base.specs.declared.entry.Entry.{Entry};
ghost use Rattle.causal_base.specs.declared.event.Event.{Event};
ghost use Rattle.causal_base.specs.declared.kind.Kind.TheVariants.{Sync};
ghost use Rattle.causal_base.specs.Clocks.{HasClocks, HasCount};
ghost use Rattle.causal_base.specs.Event.{IsOfKind};
ghost use Rattle.causal_base.specs.Journal.{IsLegal, delivered_by};
ghost use Rattle.causal_base.specs.Types.{TypeTable};
ghost use Rattle.causal_base.specs.Walks.{IsBefore};

/// The numbers of an event's whole clock add up to how many events are before it, and itself, and
/// its partner where it has one.
pub fn past_is_counted_by_clock()
    ensures alone { (types : TypeTable) (journal : List Entry) → IsLegal types journal
        → (e : Event) → Contains (delivered_by journal) e → (IsOfKind types e Sync → ⊥)
        → (clock : List ℕ) → length clock ≡ types.traces
        → HasClocks types (delivered_by journal) e.id clock
        → (n : ℕ) × (sum clock ≡ n + 1)
        × HasCount (λ x. IsBefore types (delivered_by journal) x e) (delivered_by journal) n }
    ensures paired { (types : TypeTable) (journal : List Entry) → IsLegal types journal
        → (e : Event) → Contains (delivered_by journal) e → IsOfKind types e Sync
        → (clock : List ℕ) → length clock ≡ types.traces
        → HasClocks types (delivered_by journal) e.id clock
        → (n : ℕ) × (sum clock ≡ n + 2)
        × HasCount (λ x. IsBefore types (delivered_by journal) x e) (delivered_by journal) n }
{}
