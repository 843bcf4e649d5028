ghost use Rattle.std.specs.Prelude.{◌++◌, ◌↔◌, ℕ, List, Contains};
ghost use Rattle.causal_base.specs.declared.event.Event.{Event};
ghost use Rattle.causal_base.specs.Types.{TypeTable};
ghost use Rattle.causal_base.specs.Clocks.{IsClock};
ghost use Rattle.causal_base.specs.History.{EventBlock, all_events, IsCausal};

/// No later delivery changes the clock of an event: what is said of a journal that goes on holds of
/// any deliveries that are causal.
pub fn clock_stays_among_deliveries()
    ensures { (types : TypeTable) (newer past : List EventBlock) → IsCausal types (newer ++ past)
        → (e : Event) → Contains (all_events past) e
        → (trace n : ℕ)
        → (IsClock types (all_events past) e trace n)
        ↔ (IsClock types (all_events (newer ++ past)) e trace n) }
{}
