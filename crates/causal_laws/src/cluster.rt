ghost use Rattle.std.specs.Prelude.{◌≡◌, ◌++◌, ◌+◌, ◌≤◌, ◌<◌, ℕ, true, List, Contains};
ghost use Rattle.causal_base.specs.declared.entry.Entry.{Entry};
ghost use Rattle.causal_base.specs.declared.event.Event.{Event};
ghost use Rattle.causal_base.specs.Types.{TypeTable};
ghost use Rattle.causal_base.specs.Clusters.{Clustering, partition, partition_after, levels_of};
ghost use Rattle.causal_base.specs.Journal.{IsLegal, delivered_by, deliveries_by};
ghost use Rattle.causal_base.specs.Stamps.{history_of};

/// To share a cluster of a level is an equivalence, so its clusters part the traces.
pub fn clusters_part_traces()
    ensures { (clustering : Clustering) (so_far : List (ℕ × ℕ)) (level x y z : ℕ)
        → (partition clustering so_far level x x ≡ true)
        × (partition clustering so_far level x y ≡ true
        → partition clustering so_far level y x ≡ true)
        × (partition clustering so_far level x y ≡ true
        → partition clustering so_far level y z ≡ true
        → partition clustering so_far level x z ≡ true) }
{}

/// Clusters only grow: traces that share one share it after any more communications.
pub fn clusters_grow()
    ensures { (clustering : Clustering) (newer so_far : List (ℕ × ℕ)) (level x y : ℕ)
        → partition clustering so_far level x y ≡ true
        → partition clustering (newer ++ so_far) level x y ≡ true }
{}

/// Each cluster of a level lies within one cluster of the next level.
pub fn clusters_nest()
    ensures { (clustering : Clustering) (so_far : List (ℕ × ℕ)) (level x y : ℕ)
        → partition clustering so_far level x y ≡ true
        → partition clustering so_far (level + 1) x y ≡ true }
{}

/// Above the levels that have a size, one cluster has all traces.
pub fn top_has_all()
    ensures { (clustering : Clustering) (so_far : List (ℕ × ℕ)) (level x y : ℕ)
        → levels_of clustering < level
        → partition clustering so_far level x y ≡ true }
{}

/// What a trace shares a cluster with right after one of its events, it shares it with after each
/// later one.
pub fn cluster_stays()
    ensures { (types : TypeTable) (clustering : Clustering) (journal : List Entry)
        → IsLegal types journal
        → (e later : Event) → Contains (delivered_by journal) e
        → Contains (delivered_by journal) later
        → e.id.trace ≡ later.id.trace → e.id.number ≤ later.id.number
        → (level x : ℕ)
        → partition_after clustering (history_of e.id (deliveries_by journal)) level e.id.trace x
        ≡ true
        → partition_after clustering (history_of later.id (deliveries_by journal)) level e.id.trace
        x ≡ true }
{}
