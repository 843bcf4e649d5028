//! The level of the events that are delivered next, and the members of their cluster.

ghost use Rattle.std.specs.Prelude.{◌≡◌, ◌+◌, ◌<◌, ◌≤◌, ℕ, List, length, IfOk, IfSome};
ghost use Rattle.std.specs.Option.{option_map};
ghost use Rattle.causal_base.specs.Clusters.{partition};
ghost use Rattle.causal_base.specs.Stamps.{joined_level};
ghost use Rattle.cluster_levels.specs.Levels.{StandsAfter, clustering_of};
ghost use Rattle.cluster_members.specs.Kept.{AreKept, cluster_of};
ghost use Rattle.cluster_merge.specs.Planned.{IsPlanned};
ghost use Rattle.event_book.specs.Stamping.{traces_of, with_merge};

use causal_base::EventId;
use cluster_levels::Levels;
use cluster_members::ClusterMembers;
use cluster_merge::{Merge, apply, plan};
use projected_stamp::Members;
use std::alloc::{AllocError, Global};

/// A level, and the traces of a cluster at that level.
#[derive(Debug, Drop)]
pub(crate) struct Cluster {
    pub(crate) level: u8,
    pub(crate) members: Members,
}

/// What the communication of an event of this trace merges, which names the other, if any.
pub(crate) fn plan_with(levels: &Levels, trace: u32, mate: Option<EventId>) -> Option<Merge>
    requires trace { trace < levels.now.traces }
    requires mate { IfSome mate (λ id. id.trace < levels.now.traces) }
    ensures joins { option_map (λ id. (trace, id.trace)) mate ≡ option_map traces_of result }
    ensures planned { IfSome result (IsPlanned levels.now) }
{
    match mate {
        Some(mate) => Some(plan(levels, trace, mate.trace)),
        None => None,
    }
}

/// The level of an event of this trace that merges this, if anything, and the traces of its cluster
/// as the merge will leave it; where it is a partner, those of the other, too. It fails where there
/// is no memory.
pub(crate) fn cluster_after(
    alloc: Global,
    levels: &Levels,
    members: &ClusterMembers,
    trace: u32,
    merge: Option<Merge>,
) -> Result<Cluster, AllocError>
    requires trace { trace < levels.now.traces }
    requires first { IfSome merge (λ m. m.p ≡ trace) }
    requires planned { IfSome merge (IsPlanned levels.now) }
    requires kept { (so_far : List (ℕ × ℕ)) × StandsAfter levels.now so_far
        × AreKept (clustering_of levels.now) so_far members.now }
    ensures low { IfOk result (λ cluster. 1 ≤ cluster.level) }
    ensures high { IfOk result (λ cluster. cluster.level ≤ length levels.now.sizes + 1) }
    ensures level { IfOk result (λ cluster. (so_far : List (ℕ × ℕ))
        → StandsAfter levels.now so_far
        → cluster.level ≡ joined_level (clustering_of levels.now)
        (partition (clustering_of levels.now) (with_merge merge so_far))
        (option_map traces_of merge)) }
    ensures members { IfOk result (λ cluster. (so_far : List (ℕ × ℕ))
        → StandsAfter levels.now so_far
        → cluster.members ≡ cluster_of (clustering_of levels.now) (with_merge merge so_far)
        cluster.level trace) }
    ensures second { IfOk result (λ cluster. IfSome merge (λ m. (so_far : List (ℕ × ℕ))
        → StandsAfter levels.now so_far
        → cluster.members ≡ cluster_of (clustering_of levels.now) (with_merge merge so_far)
        cluster.level m.q)) }
{
    match merge {
        Some(merge) => Ok(Cluster {
            level: merge.level,
            members: members.members_after(alloc, levels, merge)?,
        }),
        None => {
            // Reading the sizes shows that there is a level above them.
            let _sizes = levels.sizes();
            Ok(Cluster {
                level: 1,
                members: members.members(alloc, levels, 1, trace)?,
            })
        }
    }
}

/// Notes the communication that a merge was planned for, if there is one, and merges. It takes no
/// memory.
pub(crate) fn merge_clusters(levels: &mut Levels, merge: Option<Merge>)
    requires stands { (so_far : List (ℕ × ℕ)) × StandsAfter levels.old so_far }
    requires planned { IfSome merge (IsPlanned levels.old) }
    ensures made_with { clustering_of levels.new ≡ clustering_of levels.old }
    ensures stands { (so_far : List (ℕ × ℕ)) → StandsAfter levels.old so_far
        → StandsAfter levels.new (with_merge merge so_far) }
{
    if let Some(merge) = merge {
        apply(levels, merge);
    }
}
