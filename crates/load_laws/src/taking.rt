ghost use Rattle.std.specs.Prelude.{◌≡◌, ◌≢◌, ◌≤◌, ◌↔◌, ℕ, List, AllPairs, Contains, flat_map, length, reverse};
ghost use Rattle.causal_base.specs.declared.entry.Entry.{Entry};
ghost use Rattle.causal_base.specs.declared.event.Event.{Event};
ghost use Rattle.causal_base.specs.History.{EventBlock, IsCausal, all_events};
ghost use Rattle.causal_base.specs.InTurn.{IsInTurn};
ghost use Rattle.causal_base.specs.Journal.{IsLegal, IsSettled, came_by, delivered_by};
ghost use Rattle.causal_base.specs.Types.{TypeTable};

/// The journal that one thread makes of lists of events, in turn, has no more events than the lists,
/// and all of them in their order, where they have ids of their own and are no more than the limit.
pub fn in_turn_takes_all()
    ensures no_more { (types : TypeTable) (limit : ℕ) (lists : List (List Event))
        (journal : List Entry) → IsInTurn types limit lists journal
        → length (came_by journal) ≤ length (flat_map (λ events. events) lists) }
    ensures all { (types : TypeTable) (limit : ℕ) (lists : List (List Event))
        (journal : List Entry) → IsInTurn types limit lists journal
        → AllPairs (λ a b. a.id ≢ b.id) (flat_map (λ events. events) lists)
        → length (flat_map (λ events. events) lists) ≤ limit
        → came_by journal ≡ reverse (flat_map (λ events. events) lists) }
{}

/// Where causal deliveries of all events that came exist, a settled journal has delivered them all.
pub fn history_is_delivered()
    ensures { (types : TypeTable) (journal : List Entry) → IsLegal types journal
        → IsSettled types journal → (history : List EventBlock) → IsCausal types history
        → ((e : Event) → Contains (all_events history) e ↔ Contains (came_by journal) e)
        → (e : Event) → Contains (delivered_by journal) e ↔ Contains (came_by journal) e }
{}
