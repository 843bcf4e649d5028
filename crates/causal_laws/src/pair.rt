ghost use Rattle.std.specs.Prelude.{◌≡◌, ◌⊎◌, ◌<◌, ◌↔◌, List, Contains};
ghost use Rattle.causal_base.specs.declared.entry.Entry.{Entry};
ghost use Rattle.causal_base.specs.declared.entry.Entry.TheVariants.{Gone, Pair};
ghost use Rattle.causal_base.specs.declared.event.Event.{Event};
ghost use Rattle.causal_base.specs.declared.event_id.EventId.{EventId};
ghost use Rattle.causal_base.specs.declared.kind.Kind.TheVariants.{Sync};
ghost use Rattle.causal_base.specs.Types.{TypeTable};
ghost use Rattle.causal_base.specs.Event.{IsOfKind, Pairs};
ghost use Rattle.causal_base.specs.Walks.{Reaches, IsBefore};
ghost use Rattle.causal_base.specs.Journal.{IsLegal, delivered_by};

/// Partners reach each other.
pub fn partners_reach_each_other()
    ensures { (types : TypeTable) (journal : List Entry)
        → (a b : Event) → Contains (delivered_by journal) a → Contains (delivered_by journal) b
        → Pairs types a b
        → Reaches types (delivered_by journal) a b × Reaches types (delivered_by journal) b a }
{}

/// Partners have the same past: what reaches one reaches the other, and what is before one is
/// before the other.
pub fn partners_share_past()
    ensures reach { (types : TypeTable) (journal : List Entry)
        → (a b : Event) → Contains (delivered_by journal) a → Contains (delivered_by journal) b
        → Pairs types a b
        → (x : Event) → (Reaches types (delivered_by journal) x a)
        ↔ (Reaches types (delivered_by journal) x b) }
    ensures before { (types : TypeTable) (journal : List Entry) → IsLegal types journal
        → (a b : Event) → Contains (delivered_by journal) a → Contains (delivered_by journal) b
        → Pairs types a b
        → (x : Event) → (IsBefore types (delivered_by journal) x a)
        ↔ (IsBefore types (delivered_by journal) x b) }
{}

/// Partners have the same future: one reaches what the other reaches, and is before what the other
/// is before.
pub fn partners_share_future()
    ensures reach { (types : TypeTable) (journal : List Entry)
        → (a b : Event) → Contains (delivered_by journal) a → Contains (delivered_by journal) b
        → Pairs types a b
        → (x : Event) → (Reaches types (delivered_by journal) a x)
        ↔ (Reaches types (delivered_by journal) b x) }
    ensures before { (types : TypeTable) (journal : List Entry) → IsLegal types journal
        → (a b : Event) → Contains (delivered_by journal) a → Contains (delivered_by journal) b
        → Pairs types a b
        → (x : Event) → (IsBefore types (delivered_by journal) a x)
        ↔ (IsBefore types (delivered_by journal) b x) }
{}

/// A pair entry of a legal journal is of two partners, the lower trace first.
pub fn pair_is_of_partners()
    ensures { (types : TypeTable) (journal : List Entry) → IsLegal types journal
        → (first second : EventId) → Contains journal (Pair first second)
        → (a : Event) × (b : Event) × (a.id ≡ first) × (b.id ≡ second)
        × Contains (delivered_by journal) a × Contains (delivered_by journal) b × Pairs types a b
        × (first.trace < second.trace) }
{}

/// A delivered sync event stands in one block with a partner, the lower trace first.
pub fn sync_stands_in_a_pair()
    ensures { (types : TypeTable) (journal : List Entry) → IsLegal types journal
        → (e : Event) → Contains (delivered_by journal) e → IsOfKind types e Sync
        → (partner : Event) × Contains (delivered_by journal) partner × Pairs types e partner
        × (((e.id.trace < partner.id.trace) × Contains journal (Pair e.id partner.id))
        ⊎ ((partner.id.trace < e.id.trace) × Contains journal (Pair partner.id e.id))) }
{}

/// No sync event is delivered alone.
pub fn sync_never_goes_alone()
    ensures { (types : TypeTable) (journal : List Entry) → IsLegal types journal
        → (e : Event) → Contains (delivered_by journal) e → IsOfKind types e Sync
        → Contains journal (Gone e.id) → ⊥ }
{}
