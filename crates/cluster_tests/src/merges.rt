//! Tests of what no clause says: rows that were worked out by hand, and the rule of merging as it
//! is told, over lists of sets.

ghost use Rattle.std.specs.Prelude.{ℕ, List};
ghost use Rattle.cluster_levels.specs.Levels.{StandsAfter};
ghost use Rattle.cluster_merge.specs.Planned.{IsPlanned};

use cluster_levels::{Levels, Sizes};
use cluster_merge::{Merge, apply, plan};
use plain::PlainClusters;
use std::alloc::{AllocError, Global};
use std::test::Fail;

mod plain;

/// Sizes, the number of the communication that merges, and communications with the level of each.
const ROWS: [(&[u32], u32, &[(u32, u32, u8)]); 3] = [
    (
        &[2, 4],
        1,
        &[(0, 1, 1), (2, 3, 1), (2, 1, 2), (4, 2, 3), (2, 2, 1)],
    ),
    (&[2], 2, &[(1, 0, 2), (1, 0, 1), (2, 0, 2), (2, 1, 2)]),
    (
        &[1, 3],
        3,
        &[
            (0, 1, 3),
            (1, 0, 3),
            (2, 0, 3),
            (0, 1, 2),
            (2, 1, 3),
            (2, 0, 2),
        ],
    ),
];

#[test]
fn worked_rows(rt: HostRuntime) -> Result<(), Fail> {
    for (sizes, after, communications) in ROWS {
        let mut levels = Levels::new(rt.alloc(), Sizes::new(sizes)?, 5, after)?;
        for (p, q, level) in communications {
            assert_eq!(rt; communicate(&mut levels, *p, *q), *level);
        }
    }
    Ok(())
}

/// Plans and applies a communication, and gives its level.
fn communicate(levels: &mut Levels, p: u32, q: u32) -> u8
    requires { (so_far : List (ℕ × ℕ)) × StandsAfter levels.old so_far }
    ensures { (so_far : List (ℕ × ℕ)) × StandsAfter levels.new so_far }
{
    if p >= levels.traces() || q >= levels.traces() {
        return 0;
    }
    let merge = plan(levels, p, q);
    apply(levels, merge);
    merge.level
}

/// How many traces the sequences below are on.
const TRACES: u32 = 9;

/// How many communications each of them has.
const LONG: u32 = 60;

/// The sizes that they take in turn.
const SIZES: [&[u32]; 4] = [&[3], &[2, 4], &[2, 3, 6], &[1, 2, 4, 7]];

#[test]
fn a_plain_model_agrees(rt: HostRuntime) -> Result<(), Fail> {
    let mut seed = 1;
    for turn in 0..50 {
        for sizes in SIZES {
            let after = turn % 3 + 1;
            assert!(rt;
                agrees(rt.alloc(), sizes, after, &mut seed)?,
                "in turn {turn}"
            );
        }
    }
    Ok(())
}

/// Whether the levels and the plain model agree on each of a sequence of communications.
fn agrees(alloc: Global, sizes: &[u32], after: u32, seed: &mut u64) -> Result<bool, Fail> {
    let mut levels = Levels::new(alloc, Sizes::new(sizes)?, TRACES, after)?;
    let mut plain = PlainClusters::new(alloc, sizes, TRACES, after)?;
    for _ in 0..LONG {
        let p = draw(seed);
        let q = draw(seed);
        if p >= levels.traces() || q >= levels.traces() {
            return Ok(false);
        }
        let merge = plan(&levels, p, q);
        let told = clusters_told(alloc, &levels, merge)?;
        apply(&mut levels, merge);
        plain.communicate(alloc, p, q)?;
        if merge.level != plain.level(p, q) || told != plain.clusters_of(alloc, p)? {
            return Ok(false);
        }
        if !has_same(&levels, &plain) {
            return Ok(false);
        }
    }
    Ok(true)
}

/// The next of the traces.
fn draw(seed: &mut u64) -> u32 {
    let next = seed
        .wrapping_mul(6_364_136_223_846_793_005)
        .wrapping_add(1_442_695_040_888_963_407);
    *seed = next;
    ((next >> 33) % 9) as u32
}

/// The traces in the cluster of the merge's first trace once it is applied, for each level from 1
/// up.
fn clusters_told(alloc: Global, levels: &Levels, merge: Merge) -> Result<Vec<u64>, AllocError>
    requires { IsPlanned levels.now merge }
{
    let mut clusters = Vec::new(alloc);
    for level in 0..levels.sizes().levels() + 1 {
        let mut cluster = 0;
        for trace in 0..levels.traces() {
            if merge.holds(levels, level + 1, trace) {
                cluster |= plain::only(trace);
            }
        }
        clusters.push(cluster)?;
    }
    Ok(clusters)
}

/// Whether the same traces share clusters.
fn has_same(levels: &Levels, plain: &PlainClusters) -> bool {
    for level in 0..levels.sizes().levels() + 1 {
        for p in 0..levels.traces() {
            for q in 0..levels.traces() {
                if levels.same(level + 1, p, q) != plain.shares(level + 1, p, q) {
                    return false;
                }
            }
        }
    }
    true
}
