ghost use Rattle.std.specs.Prelude.{◌≡◌, ◌++◌, ◌+◌, ◌<◌, ◌≤◌, ◌↔◌, ℕ, true, List, length, Contains};
ghost use Rattle.causal_base.specs.declared.entry.Entry.{Entry};
ghost use Rattle.causal_base.specs.declared.event.Event.{Event};
ghost use Rattle.causal_base.specs.Types.{TypeTable};
ghost use Rattle.causal_base.specs.Clocks.{IsClock};
ghost use Rattle.causal_base.specs.Clusters.{Clustering, levels_of, size_at};
ghost use Rattle.causal_base.specs.History.{all_events};
ghost use Rattle.causal_base.specs.Journal.{IsLegal, delivered_by, deliveries_by};
ghost use Rattle.causal_base.specs.Stamps.{ClusterTimestamp, IsStamp, history_of, is_member, level_of, members_of};

/// An event has one stamp.
pub fn stamp_is_one()
    ensures { (types : TypeTable) (clustering : Clustering) (journal : List Entry)
        → (e : Event) (stamp other : ClusterTimestamp)
        → IsStamp types clustering (deliveries_by journal) e stamp
        → IsStamp types clustering (deliveries_by journal) e other
        → stamp ≡ other }
{}

/// The stamp of a delivered event is settled when it is delivered: no later delivery changes it.
pub fn stamp_stays()
    ensures { (types : TypeTable) (clustering : Clustering) (journal more : List Entry)
        → IsLegal types (journal ++ more)
        → (e : Event) → Contains (delivered_by journal) e
        → (stamp : ClusterTimestamp)
        → (IsStamp types clustering (deliveries_by journal) e stamp)
        ↔ (IsStamp types clustering (deliveries_by (journal ++ more)) e stamp) }
{}

/// The clock of a delivered event over what was delivered up to it is its clock over all that was.
pub fn own_history_has_clock()
    ensures { (types : TypeTable) (journal : List Entry) → IsLegal types journal
        → (e : Event) → Contains (delivered_by journal) e
        → (trace n : ℕ)
        → (IsClock types (all_events (history_of e.id (deliveries_by journal))) e trace n)
        ↔ (IsClock types (delivered_by journal) e trace n) }
{}

/// The level of an event is one of those that have a size, or the one above them.
pub fn level_is_in_range()
    ensures least { (clustering : Clustering) (journal : List Entry) (e : Event)
        → 1 ≤ level_of clustering (deliveries_by journal) e.id }
    ensures most { (clustering : Clustering) (journal : List Entry) (e : Event)
        → level_of clustering (deliveries_by journal) e.id ≤ levels_of clustering + 1 }
{}

/// The trace of an event is a member of it.
pub fn own_trace_is_member()
    ensures { (clustering : Clustering) (journal : List Entry) (e : Event)
        → is_member clustering (deliveries_by journal) e.id e.id.trace ≡ true }
{}

/// An event of a level that has a size of at least 1 has no more members than that size, and one of
/// the level above them has all traces.
pub fn members_are_few()
    ensures few { (clustering : Clustering) (journal : List Entry) (e : Event)
        → level_of clustering (deliveries_by journal) e.id ≤ levels_of clustering
        → 1 ≤ size_at clustering (level_of clustering (deliveries_by journal) e.id)
        → length (members_of clustering (deliveries_by journal) e.id)
        ≤ size_at clustering (level_of clustering (deliveries_by journal) e.id) }
    ensures all { (clustering : Clustering) (journal : List Entry) (e : Event)
        → levels_of clustering < level_of clustering (deliveries_by journal) e.id
        → length (members_of clustering (deliveries_by journal) e.id) ≡ clustering.traces }
{}
