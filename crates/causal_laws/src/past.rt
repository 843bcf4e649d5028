ghost use Rattle.std.specs.Prelude.{◌++◌, ◌↔◌, List, Contains};
ghost use Rattle.causal_base.specs.declared.entry.Entry.{Entry};
ghost use Rattle.causal_base.specs.declared.event.Event.{Event};
ghost use Rattle.causal_base.specs.Types.{TypeTable};
ghost use Rattle.causal_base.specs.Walks.{Walk, Reaches};
ghost use Rattle.causal_base.specs.Journal.{IsLegal, delivered_by};

/// A walk that ends at an event delivered earlier uses only what was delivered by then.
pub fn walk_stays_in_past()
    ensures { (types : TypeTable) (journal more : List Entry) → IsLegal types (journal ++ more)
        → (e : Event) → Contains (delivered_by journal) e
        → (a : Event) (through : List Event)
        → Walk types (delivered_by (journal ++ more)) a through e
        → Contains (delivered_by journal) a × Walk types (delivered_by journal) a through e }
{}

/// What reaches a delivered event is settled when it is delivered: no later delivery changes it.
pub fn past_stays()
    ensures { (types : TypeTable) (journal more : List Entry) → IsLegal types (journal ++ more)
        → (e : Event) → Contains (delivered_by journal) e
        → (a : Event)
        → (Reaches types (delivered_by (journal ++ more)) a e)
        ↔ (Reaches types (delivered_by journal) a e) }
{}
