ghost use Rattle.std.specs.Prelude.{◌≡◌, ℕ, ◌<◌, ◌≤◌, ◌∷◌, List};
ghost use Rattle.causal_base.specs.Clusters.{partition};
ghost use Rattle.cluster_levels.specs.Levels.{StandsAfter, clustering_of};

use causal_laws::clusters_part_traces;
use cluster_levels::Levels;

/// What a communication of two traces merges.
#[derive(Clone, Copy, Debug, PartialEq, Eq)]
pub struct Merge {
    /// The trace of the event that is delivered.
    pub p: u32,
    /// The trace that it communicates with.
    pub q: u32,
    /// The lowest level at which the two share a cluster once it is done, which is the level of the
    /// event. It is one above those that have a size where they share none of them.
    pub level: u8,
}

impl Merge {
    ghost use Rattle.cluster_merge.specs.Planned.{IsPlanned};

    /// Whether a trace stands in the cluster of `p`, at a level from 1 up, once this is applied to
    /// the levels that it was planned on.
    pub fn holds(&self, levels: &Levels, level: u8, trace: u32) -> bool
        requires planned { IsPlanned levels.now self.now }
        requires level { 1 ≤ level }
        requires trace { trace < levels.now.traces }
        ensures { (so_far : List (ℕ × ℕ)) → StandsAfter levels.now so_far
            → result ≡ partition (clustering_of levels.now) ((self.now.p, self.now.q) ∷ so_far)
            level self.now.p trace }
    {
        clusters_part_traces();
        levels.same(level, self.p, trace)
            || (level >= self.level && levels.same(level, self.q, trace))
    }
}
