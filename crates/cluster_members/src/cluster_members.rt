ghost use Rattle.std.specs.Prelude.{◌≡◌, ◌+◌, ◌<◌, ◌≤◌, ◌||◌, ◌∷◌, ℕ, List, length, IfOk};
ghost use Rattle.cluster_levels.specs.Levels.{StandsAfter, clustering_of, same_in};
ghost use Rattle.cluster_merge.specs.Planned.{IsPlanned};
ghost use Rattle.cluster_members.specs.Kept.{AreKept, IsKeptAt, cluster_of, traces_that};

use crate::level_members::LevelMembers;
use causal_laws::{clusters_grow, clusters_part_traces};
use cluster_levels::Levels;
use cluster_merge::Merge;
use projected_stamp::Members;
use std::alloc::{AllocError, Global};
use std::marker::Model;

/// For each level from 1 to the one above those that have a size, and for each trace, perhaps the
/// list of its cluster at an earlier moment. All traces of that cluster share one. Contracts see
/// the lists.
#[derive(Debug, Drop)]
pub struct ClusterMembers {
    levels: Vec<LevelMembers>,
}

impl Model for ClusterMembers {
    ghost use Rattle.cluster_members.specs.Kept.{KeptLists};

    ghost Value = { KeptLists };

    ghost view = { λ m. m.levels.items };
}

impl ClusterMembers {
    /// Nothing is kept yet, for clusters of these levels. It fails where there is no memory.
    pub fn new(alloc: Global, levels: &Levels) -> Result<ClusterMembers, AllocError>
        ensures { IfOk result (λ members. (so_far : List (ℕ × ℕ))
            → AreKept (clustering_of levels.now) so_far members) }
    {
        let mut kept = Vec::new(alloc);
        for _ in 0..levels.sizes().levels() + 1 {
            kept.push(LevelMembers::new(alloc, levels.traces())?)?;
        }
        Ok(ClusterMembers { levels: kept })
    }

    /// The traces in the cluster of a trace as it is, at a level from 1 up to the one above those
    /// that have a size. At level 1 they are the members of an event that communicates with nobody.
    /// It fails where there is no memory.
    pub fn members(
        &self,
        alloc: Global,
        levels: &Levels,
        level: u8,
        trace: u32,
    ) -> Result<Members, AllocError>
        requires low { 1 ≤ level }
        requires high { level ≤ length levels.now.sizes + 1 }
        requires trace { trace < levels.now.traces }
        requires kept { (so_far : List (ℕ × ℕ)) × StandsAfter levels.now so_far
            × AreKept (clustering_of levels.now) so_far self.now }
        ensures { IfOk result (λ members. (so_far : List (ℕ × ℕ))
            → StandsAfter levels.now so_far
            → members ≡ cluster_of (clustering_of levels.now) so_far level trace) }
    {
        clusters_grow();
        if let Some(kept) = self.levels[level as usize - 1].get(trace) {
            if kept.traces().len() as u32 == levels.cluster_size(level, trace) {
                return kept.share();
            }
        }
        either_cluster(alloc, levels, level, trace, trace)
    }

    /// The traces in the cluster of a merge's two traces at its level, as the merge will leave it:
    /// the members of the event that communicates. It fails where there is no memory.
    pub fn members_after(
        &self,
        alloc: Global,
        levels: &Levels,
        merge: Merge,
    ) -> Result<Members, AllocError>
        requires planned { IsPlanned levels.now merge }
        requires kept { (so_far : List (ℕ × ℕ)) × StandsAfter levels.now so_far
            × AreKept (clustering_of levels.now) so_far self.now }
        ensures first { IfOk result (λ members. (so_far : List (ℕ × ℕ))
            → StandsAfter levels.now so_far
            → members ≡ cluster_of (clustering_of levels.now) ((merge.p, merge.q) ∷ so_far)
            merge.level merge.p) }

        // The partners of a pair have one list.
        ensures second { IfOk result (λ members. (so_far : List (ℕ × ℕ))
            → StandsAfter levels.now so_far
            → members ≡ cluster_of (clustering_of levels.now) ((merge.p, merge.q) ∷ so_far)
            merge.level merge.q) }
    {
        clusters_part_traces();
        if levels.same(merge.level, merge.p, merge.q) {
            self.members(alloc, levels, merge.level, merge.p)
        } else {
            either_cluster(alloc, levels, merge.level, merge.p, merge.q)
        }
    }

    /// Keeps the list of a trace's cluster, as it is at a level, for each trace of the cluster. It
    /// takes no memory.
    pub fn keep(&mut self, levels: &Levels, level: u8, trace: u32, members: &Members)
        requires low { 1 ≤ level }
        requires high { level ≤ length levels.now.sizes + 1 }
        requires trace { trace < levels.now.traces }
        requires kept { (so_far : List (ℕ × ℕ)) × StandsAfter levels.now so_far
            × AreKept (clustering_of levels.now) so_far self.old
            × (members.now ≡ cluster_of (clustering_of levels.now) so_far level trace) }
        ensures kept { (so_far : List (ℕ × ℕ)) → StandsAfter levels.now so_far
            → AreKept (clustering_of levels.now) so_far self.old
            → AreKept (clustering_of levels.now) so_far self.new }

        // The trace has no other list then.
        ensures taken { (list : List ℕ) → IsKeptAt self.new level trace list
            → list ≡ members.now }
    {
        clusters_part_traces();
        clusters_grow();
        let kept = &mut self.levels[level as usize - 1];
        if !kept.has_as_many(trace, members) {
            kept.keep(members);
        }
    }
}

/// The traces that share a cluster of a level with the one or the other of two.
fn either_cluster(
    alloc: Global,
    levels: &Levels,
    level: u8,
    p: u32,
    q: u32,
) -> Result<Members, AllocError>
    requires level { 1 ≤ level }
    requires p { p < levels.now.traces }
    requires q { q < levels.now.traces }
    ensures { IfOk result (λ members. members ≡ traces_that
        (λ trace. same_in levels.now level p trace || same_in levels.now level q trace)
        levels.now.traces) }
{
    let mut traces = Vec::new(alloc);
    for trace in 0..levels.traces() {
        if shares_with_either(levels, level, p, q, trace) {
            traces.push(trace)?;
        }
    }
    Members::new(alloc, &traces)
}

/// Whether a trace shares a cluster of a level with the one or the other of two.
fn shares_with_either(levels: &Levels, level: u8, p: u32, q: u32, trace: u32) -> bool
    requires level { 1 ≤ level }
    requires p { p < levels.now.traces }
    requires q { q < levels.now.traces }
    requires trace { trace < levels.now.traces }
    ensures { result ≡ (same_in levels.now level p trace || same_in levels.now level q trace) }
{
    levels.same(level, p, trace) || levels.same(level, q, trace)
}
