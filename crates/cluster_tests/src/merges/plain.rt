//! Clusters as lists of sets, and the rule of merging as it is told. A set of traces is a number
//! with a bit for each.

use std::alloc::{AllocError, Global};

/// The clusters of a level, and the most traces that one of them may have.
#[derive(Drop)]
struct PlainLevel {
    size: u32,
    sets: Vec<u64>,
}

/// The levels, lowest first, and all communications so far.
#[derive(Drop)]
pub struct PlainClusters {
    after: u32,
    all: u64,
    levels: Vec<PlainLevel>,
    so_far: Vec<(u32, u32)>,
}

impl PlainClusters {
    /// Each trace alone at each level that has a size.
    pub fn new(
        alloc: Global,
        sizes: &[u32],
        traces: u32,
        after: u32,
    ) -> Result<PlainClusters, AllocError> {
        let mut all = 0;
        let mut alone = Vec::new(alloc);
        for trace in 0..traces {
            all |= only(trace);
            alone.push(only(trace))?;
        }
        let mut levels = Vec::new(alloc);
        for size in sizes {
            levels.push(PlainLevel {
                size: *size,
                sets: alone.clone()?,
            })?;
        }
        Ok(PlainClusters {
            after,
            all,
            levels,
            so_far: Vec::new(alloc),
        })
    }

    /// The traces that share a cluster with one, for each level from 1 up.
    pub fn clusters_of(&self, alloc: Global, trace: u32) -> Result<Vec<u64>, AllocError> {
        let mut clusters = Vec::new(alloc);
        for level in &self.levels {
            clusters.push(set_with(&level.sets, trace))?;
        }
        clusters.push(self.all)?;
        Ok(clusters)
    }

    /// Whether two traces share a cluster of a level, from 1 up.
    pub fn shares(&self, level: u8, p: u32, q: u32) -> bool {
        match self.levels.get((level as usize).saturating_sub(1)) {
            Some(level) => set_with(&level.sets, p) & only(q) != 0,
            None => true,
        }
    }

    /// The least level at which two traces share a cluster.
    pub fn level(&self, p: u32, q: u32) -> u8 {
        for level in 1..5 {
            if self.shares(level, p, q) {
                return level;
            }
        }
        5
    }

    /// From the highest level down, the clusters of the two become one where together they are no
    /// larger than the level's size, and joined often enough. Where they differ and that isn't so,
    /// nothing becomes one there or below.
    pub fn communicate(&mut self, alloc: Global, p: u32, q: u32) -> Result<(), AllocError> {
        self.so_far.push((p, q))?;
        for level in self.levels.iter_mut().rev() {
            let one = set_with(&level.sets, p);
            let other = set_with(&level.sets, q);
            if one != other {
                let together = one.count_ones() + other.count_ones();
                if together > level.size || joining(&self.so_far, one, other) < self.after {
                    return Ok(());
                }
                level.sets = with_one(alloc, &level.sets, one, other)?;
            }
        }
        Ok(())
    }
}

/// How many communications join a trace of the one set with one of the other.
fn joining(so_far: &[(u32, u32)], one: u64, other: u64) -> u32 {
    let mut count: u32 = 0;
    for (p, q) in so_far {
        let forth = one & only(*p) != 0 && other & only(*q) != 0;
        let back = one & only(*q) != 0 && other & only(*p) != 0;
        if forth || back {
            count = count.saturating_add(1);
        }
    }
    count
}

/// The set of a trace alone.
pub fn only(trace: u32) -> u64 {
    if trace < 64 { 1 << trace } else { 0 }
}

/// The set that a trace is in.
fn set_with(sets: &[u64], trace: u32) -> u64 {
    for set in sets {
        if *set & only(trace) != 0 {
            return *set;
        }
    }
    0
}

/// The sets, with one in place of these two.
fn with_one(alloc: Global, sets: &[u64], one: u64, other: u64) -> Result<Vec<u64>, AllocError> {
    let mut merged = Vec::new(alloc);
    for set in sets {
        if *set != one && *set != other {
            merged.push(*set)?;
        }
    }
    merged.push(one | other)?;
    Ok(merged)
}
