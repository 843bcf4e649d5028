ghost use Rattle.std.specs.Prelude.{◌≡◌, ℕ, ◌∷◌, List};
ghost use Rattle.cluster_levels.specs.Levels.{StandsAfter, clustering_of};
ghost use Rattle.cluster_merge.specs.Planned.{IsPlanned};

use crate::merge::Merge;
use causal_laws::{clusters_part_traces, top_has_all};
use cluster_levels::Levels;

/// Notes the communication that the merge was planned for, and merges. It takes no memory.
pub fn apply(levels: &mut Levels, merge: Merge)
    requires stands { (so_far : List (ℕ × ℕ)) × StandsAfter levels.old so_far }
    requires planned { IsPlanned levels.old merge }
    ensures made_with { clustering_of levels.new ≡ clustering_of levels.old }
    ensures stands { (so_far : List (ℕ × ℕ)) → StandsAfter levels.old so_far
        → StandsAfter levels.new ((merge.p, merge.q) ∷ so_far) }
{
    clusters_part_traces();
    top_has_all();
    levels.note(merge.p, merge.q);
    let mut level = levels.sizes().levels();
    while level >= merge.level {
        if !levels.same(level, merge.p, merge.q) {
            levels.merge(level, merge.p, merge.q);
        }
        level -= 1;
    }
}
