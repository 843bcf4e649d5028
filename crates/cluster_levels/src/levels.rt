ghost use Rattle.std.specs.Prelude.{◌≡◌, ℕ, ◌+◌, ◌-◌, ◌<◌, ◌≤◌, true, false, [], ◌∷◌, List, length, IfOk, Some, slice_get, if◌then◌else◌};
ghost use Rattle.causal_base.specs.Clusters.{cluster_size, may_merge, size_at};
ghost use Rattle.cluster_levels.specs.Clusters.{LevelClusters};
ghost use Rattle.cluster_levels.specs.Levels.{AllAlone, AreLevels, AreNoted, HasPartition, IsCounted, StandsAfter, clustering_of, joined_at, same_in};

use crate::clusters::Clusters;
use crate::sizes::Sizes;
use causal_base::MOST_TRACES;
use std::alloc::{AllocError, Global};
use std::marker::Model;

/// Which traces share a cluster at each level, and how often two clusters communicated where that
/// counts. Contracts see it as the clusters of each level beside what they were made with.
#[derive(Debug, Drop)]
pub struct Levels {
    traces: u32,
    sizes: Sizes,
    after: u32,
    levels: Vec<Clusters>,
}

impl Model for Levels {
    ghost use Rattle.cluster_levels.specs.Levels.{AreLevels, ClusterLevels};

    ghost Value = { ClusterLevels };

    ghost view = { λ l. record {
      traces = l.traces;
      sizes = l.sizes;
      after = l.after;
      levels = l.levels.items;
    } };

    ghost invariant = { λ l. AreLevels (record {
      traces = l.traces;
      sizes = l.sizes;
      after = l.after;
      levels = l.levels.items;
    }) };
}

impl Levels {
    /// Each of 1 to [`MOST_TRACES`] traces alone at each level, with no communications. Clusters
    /// merge at communication number `after` between the two; 0 is as 1.
    pub fn new(alloc: Global, sizes: Sizes, traces: u32, after: u32) -> Result<Levels, AllocError>
        requires some { 1 ≤ traces }
        requires most { traces ≤ MOST_TRACES }
        ensures made_with { IfOk result (λ levels. clustering_of levels
            ≡ record { traces = traces; sizes = sizes; after = after }) }
        ensures stands { IfOk result (λ levels. StandsAfter levels []) }
    {
        let count = sizes.levels();
        Ok(Levels {
            traces,
            sizes,
            after,
            levels: all_alone(alloc, count, traces, after > 1)?,
        })
    }

    /// The size of each level.
    pub fn sizes(&self) -> &Sizes
        ensures sizes { result.now ≡ self.now.sizes }
        ensures levels { AreLevels self.now }
    {
        &self.sizes
    }

    /// How many traces there are.
    pub fn traces(&self) -> u32
        ensures number { result ≡ self.now.traces }
        ensures levels { AreLevels self.now }
    {
        self.traces
    }

    /// The number of the communication between two clusters from which on they may merge.
    pub fn after(&self) -> u32
        ensures { result ≡ self.now.after }
    {
        self.after
    }

    /// Whether two traces share a cluster of a level, from 1 up. Above the levels that have a size
    /// one cluster has all traces.
    pub fn same(&self, level: u8, p: u32, q: u32) -> bool
        requires level { 1 ≤ level }
        requires p { p < self.now.traces }
        requires q { q < self.now.traces }
        ensures { result ≡ same_in self.now level p q }
    {
        match self.levels.get(level as usize - 1) {
            Some(clusters) => clusters.shares(p, q),
            None => true,
        }
    }

    /// How many traces are in the cluster of a trace at a level, from 1 up.
    pub fn cluster_size(&self, level: u8, p: u32) -> u32
        requires level { 1 ≤ level }
        requires p { p < self.now.traces }
        ensures size { result ≡ cluster_size (clustering_of self.now) (same_in self.now) level p }
        ensures few { result ≤ MOST_TRACES }
    {
        match self.levels.get(level as usize - 1) {
            Some(clusters) => clusters.size(p),
            None => self.traces,
        }
    }

    /// Whether the clusters of two traces may merge at a level with a communication of the two that
    /// comes next.
    pub fn may_merge(&self, level: u8, p: u32, q: u32) -> bool
        requires low { 1 ≤ level }
        requires high { level ≤ length self.now.sizes }
        requires p { p < self.now.traces }
        requires q { q < self.now.traces }
        requires apart { same_in self.now level p q ≡ false }
        ensures { (so_far : List (ℕ × ℕ)) → IsCounted self.now so_far
            → result ≡ may_merge (clustering_of self.now) (same_in self.now) ((p, q) ∷ so_far)
            level p q }
    {
        let clusters = &self.levels[level as usize - 1];
        clusters.size(p) + clusters.size(q) <= self.sizes.size(level)
            && (self.after <= 1 || self.after - 1 <= clusters.tally(p, q))
    }

    /// A communication of two traces has come. It takes no memory.
    pub fn note(&mut self, p: u32, q: u32)
        requires p { p < self.old.traces }
        requires q { q < self.old.traces }
        ensures made_with { clustering_of self.new ≡ clustering_of self.old }
        ensures partition { HasPartition self.new (same_in self.old) }
        ensures counted { (so_far : List (ℕ × ℕ)) → IsCounted self.old so_far
            → IsCounted self.new ((p, q) ∷ so_far) }
    {
        if self.after > 1 {
            note_at_each(&mut self.levels, p, q);
        }
    }

    /// The clusters of two traces become one at a level. They differ there and are one at the next
    /// level, and together they are no larger than the level's size. It takes no memory.
    pub fn merge(&mut self, level: u8, p: u32, q: u32)
        requires low { 1 ≤ level }
        requires high { level ≤ length self.old.sizes }
        requires p { p < self.old.traces }
        requires q { q < self.old.traces }
        requires apart { same_in self.old level p q ≡ false }
        requires next { same_in self.old (level + 1) p q ≡ true }
        requires fits { cluster_size (clustering_of self.old) (same_in self.old) level p
            + cluster_size (clustering_of self.old) (same_in self.old) level q
            ≤ size_at (clustering_of self.old) level }
        ensures made_with { clustering_of self.new ≡ clustering_of self.old }
        ensures partition { HasPartition self.new (joined_at (same_in self.old) level p q) }
        ensures counted { (so_far : List (ℕ × ℕ)) → IsCounted self.old so_far
            → IsCounted self.new so_far }
    {
        let clusters = &mut self.levels[level as usize - 1];
        clusters.merge(p, q);
    }
}

/// So many levels with each of the traces alone.
fn all_alone(
    alloc: Global,
    count: u8,
    traces: u32,
    tallied: bool,
) -> Result<Vec<Clusters>, AllocError>
    requires { traces ≤ MOST_TRACES }
    ensures count { IfOk result (λ levels. length levels.items ≡ count) }
    ensures alone { IfOk result (λ levels. AllAlone levels.items traces
        (if tallied then traces else 0)) }
{
    let mut levels = Vec::with_capacity(alloc, count as usize)?;
    for _level in 0..count {
        levels.push(Clusters::new(alloc, traces, tallied)?)?;
    }
    Ok(levels)
}

/// A communication of two traces has come, for each level.
fn note_at_each(levels: &mut [Clusters], p: u32, q: u32)
    requires p { (i : ℕ) (clusters : LevelClusters) → slice_get levels.old i ≡ Some clusters
        → p < length clusters.labels }
    requires q { (i : ℕ) (clusters : LevelClusters) → slice_get levels.old i ≡ Some clusters
        → q < length clusters.labels }
    requires kept { (i : ℕ) (clusters : LevelClusters) → slice_get levels.old i ≡ Some clusters
        → 0 < clusters.tallies.width }
    ensures { AreNoted levels.old levels.new p q }
{
    for clusters in levels.iter_mut() {
        clusters.note(p, q);
    }
}
