ghost use Rattle.std.specs.Prelude.{◌≡◌, ◌<◌, ◌≤◌, ◌+◌, ◌*◌, ◌↔◌, ◌∷◌, ◌++◌, ℕ, suc, true, false, List, length, drop, Contains, Some, slice_get};
ghost use Rattle.causal_base.specs.declared.entry.Entry.{Entry};
ghost use Rattle.causal_base.specs.declared.event.Event.{Event};
ghost use Rattle.causal_base.specs.Types.{TypeTable};
ghost use Rattle.causal_base.specs.Walks.{Walk, Reaches};
ghost use Rattle.causal_base.specs.Clocks.{IsClock};
ghost use Rattle.causal_base.specs.Clusters.{Clustering, bound_of};
ghost use Rattle.causal_base.specs.Journal.{IsLegal, delivered_by, deliveries_by};
ghost use Rattle.causal_base.specs.Stamps.{level_of, is_member, IsLastAbove, IsGreatestOfEntries};

/// A walk to an event from a trace that is none of its members enters them at an event of a greater
/// level: somewhere on the walk an event of no member comes right before one of a member, and the
/// level of that one is greater.
pub fn walk_enters_above()
    ensures { (types : TypeTable) (clustering : Clustering) (journal : List Entry)
        → IsLegal types journal
        → (e : Event) → Contains (delivered_by journal) e
        → (a : Event) (through : List Event) → Walk types (delivered_by journal) a through e
        → is_member clustering (deliveries_by journal) e.id a.id.trace ≡ false
        → (earlier : List Event) × (from : Event) × (at : Event) × (later : List Event)
        × (a ∷ through ≡ earlier ++ from ∷ at ∷ later)
        × (is_member clustering (deliveries_by journal) e.id from.id.trace ≡ false)
        × (is_member clustering (deliveries_by journal) e.id at.id.trace ≡ true)
        × (level_of clustering (deliveries_by journal) e.id < level_of clustering
        (deliveries_by journal) at.id) }
{}

/// The entry law: for a trace that is none of its members, the clock of an event is the greatest of
/// the clocks of its entries, and 0 where it has none.
pub fn clock_is_greatest_of_entries()
    ensures { (types : TypeTable) (clustering : Clustering) (journal : List Entry)
        → IsLegal types journal
        → (e : Event) → Contains (delivered_by journal) e
        → (trace : ℕ) → is_member clustering (deliveries_by journal) e.id trace ≡ false
        → (n : ℕ)
        → (IsClock types (delivered_by journal) e trace n)
        ↔ (IsGreatestOfEntries types clustering (deliveries_by journal) e trace n) }
{}

/// What is last above a level within the clock of an event reaches it, and there is one such event
/// of a trace at most.
pub fn entry_is_found()
    ensures reaches { (types : TypeTable) (clustering : Clustering) (journal : List Entry)
        → IsLegal types journal → (e : Event) → Contains (delivered_by journal) e
        → (trace level n : ℕ) → IsClock types (delivered_by journal) e trace n
        → (r : Event) → IsLastAbove clustering (deliveries_by journal) trace level n r
        → Reaches types (delivered_by journal) r e }
    ensures one { (types : TypeTable) (clustering : Clustering) (journal : List Entry)
        → IsLegal types journal → (trace level n : ℕ) (r other : Event)
        → IsLastAbove clustering (deliveries_by journal) trace level n r
        → IsLastAbove clustering (deliveries_by journal) trace level n other → r ≡ other }
{}

/// The bound on look-ups from a level on is one more than as many bounds from the next level on as
/// the level's size.
pub fn bound_by_level()
    ensures sizes { (sizes : List ℕ) (level size : ℕ) → slice_get sizes level ≡ Some size
        → bound_of (drop level sizes) ≡ 1 + size * bound_of (drop (suc level) sizes) }
    ensures top { (sizes : List ℕ) (level : ℕ) → length sizes ≤ level
        → bound_of (drop level sizes) ≡ 1 }
{}
