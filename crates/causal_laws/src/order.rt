ghost use Rattle.std.specs.Prelude.{◌≡◌, List, Contains};
ghost use Rattle.causal_base.specs.declared.entry.Entry.{Entry};
ghost use Rattle.causal_base.specs.declared.event.Event.{Event};
ghost use Rattle.causal_base.specs.declared.related.Related.{Related};
ghost use Rattle.causal_base.specs.Types.{TypeTable};
ghost use Rattle.causal_base.specs.Walks.{IsBefore, AreRelated};
ghost use Rattle.causal_base.specs.Journal.{IsLegal, delivered_by};

/// Happened-before is a strict order: no event is before itself, and what is before an event is
/// before all that this one is before.
pub fn before_is_strict()
    ensures not_itself { (types : TypeTable) (journal : List Entry) → IsLegal types journal
        → (e : Event) → IsBefore types (delivered_by journal) e e → ⊥ }
    ensures goes_on { (types : TypeTable) (journal : List Entry) → IsLegal types journal
        → (a b c : Event) → Contains (delivered_by journal) c
        → IsBefore types (delivered_by journal) a b → IsBefore types (delivered_by journal) b c
        → IsBefore types (delivered_by journal) a c }
{}

/// Two delivered events are related in exactly one way.
pub fn relation_is_one()
    ensures one { (types : TypeTable) (journal : List Entry) → IsLegal types journal
        → (a b : Event) → Contains (delivered_by journal) a → Contains (delivered_by journal) b
        → (related : Related) × AreRelated types (delivered_by journal) a b related }
    ensures only { (types : TypeTable) (journal : List Entry) → IsLegal types journal
        → (a b : Event) → Contains (delivered_by journal) a → Contains (delivered_by journal) b
        → (related other : Related) → AreRelated types (delivered_by journal) a b related
        → AreRelated types (delivered_by journal) a b other → related ≡ other }
{}
