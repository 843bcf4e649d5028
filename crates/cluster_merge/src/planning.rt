ghost use Rattle.std.specs.Prelude.{◌≡◌, ℕ, ◌<◌, ◌≤◌, ◌∷◌, List, length, ◌||◌};
ghost use Rattle.causal_base.specs.Clusters.{may_merge, partition};
ghost use Rattle.cluster_levels.specs.Levels.{StandsAfter, clustering_of};
ghost use Rattle.cluster_merge.specs.Planned.{IsPlanned};

use crate::merge::Merge;
use causal_laws::{clusters_nest, clusters_part_traces};
use cluster_levels::Levels;

/// What a communication of two traces merges that comes next. The two may be one. It takes no
/// memory.
pub fn plan(levels: &Levels, p: u32, q: u32) -> Merge
    requires p { p < levels.now.traces }
    requires q { q < levels.now.traces }
    ensures traces { (result.p ≡ p) × (result.q ≡ q) }
    ensures planned { IsPlanned levels.now result }
{
    clusters_part_traces();
    clusters_nest();
    let mut level = levels.sizes().levels() + 1;
    while level > 1 && agrees(levels, level - 1, p, q) {
        level -= 1;
    }
    Merge { p, q, level }
}

/// Whether two traces share a cluster of a level, or theirs may merge there with a communication of
/// the two that comes next.
fn agrees(levels: &Levels, level: u8, p: u32, q: u32) -> bool
    requires low { 1 ≤ level }
    requires high { level ≤ length levels.now.sizes }
    requires p { p < levels.now.traces }
    requires q { q < levels.now.traces }
    ensures { (so_far : List (ℕ × ℕ)) → StandsAfter levels.now so_far
        → result ≡ (partition (clustering_of levels.now) so_far level p q
        || may_merge (clustering_of levels.now) (partition (clustering_of levels.now) so_far)
        ((p, q) ∷ so_far) level p q) }
{
    levels.same(level, p, q) || levels.may_merge(level, p, q)
}
