//! Tests of what no clause says: that lists are given where memory is left, and those of deliveries
//! that were worked out by hand.

ghost use Rattle.std.specs.Prelude.{ℕ, List};
ghost use Rattle.cluster_levels.specs.Levels.{StandsAfter, clustering_of};
ghost use Rattle.cluster_members.specs.Kept.{AreKept};

use cluster_levels::{Levels, Sizes};
use cluster_members::ClusterMembers;
use cluster_merge::{apply, plan};
use std::alloc::Global;
use std::test::Fail;

/// Deliveries over five traces, with clusters of at most 2 and of at most 4 of them: the trace,
/// that with which it communicates, if any, and the members.
const DELIVERIES: [(u32, Option<u32>, &[u32]); 10] = [
    (4, None, &[4]),
    (1, Some(0), &[0, 1]),
    (2, Some(3), &[2, 3]),
    (3, None, &[2, 3]),
    (2, Some(1), &[0, 1, 2, 3]),
    (0, None, &[0, 1]),
    (0, Some(3), &[0, 1, 2, 3]),
    (4, Some(2), &[0, 1, 2, 3, 4]),
    (4, None, &[4]),
    (3, Some(3), &[2, 3]),
];

#[test]
fn members_of_deliveries(rt: HostRuntime) -> Result<(), Fail> {
    let alloc = rt.alloc();
    let mut levels = Levels::new(alloc, Sizes::new(&[2, 4])?, 5, 1)?;
    let mut kept = ClusterMembers::new(alloc, &levels)?;
    for (trace, other, members) in DELIVERIES {
        let given = deliver(alloc, &mut levels, &mut kept, trace, other)?;
        assert_eq!(rt; given.as_slice(), members);
    }
    Ok(())
}

/// The members of an event of a trace that is delivered.
fn deliver(
    alloc: Global,
    levels: &mut Levels,
    kept: &mut ClusterMembers,
    trace: u32,
    other: Option<u32>,
) -> Result<Vec<u32>, Fail>
    requires { (so_far : List (ℕ × ℕ)) × StandsAfter levels.old so_far
        × AreKept (clustering_of levels.old) so_far kept.old }
    ensures { (so_far : List (ℕ × ℕ)) × StandsAfter levels.new so_far
        × AreKept (clustering_of levels.new) so_far kept.new }
{
    match other {
        Some(other) => communicate(alloc, levels, kept, trace, other),
        None => stand_alone(alloc, levels, kept, trace),
    }
}

fn communicate(
    alloc: Global,
    levels: &mut Levels,
    kept: &mut ClusterMembers,
    p: u32,
    q: u32,
) -> Result<Vec<u32>, Fail>
    requires { (so_far : List (ℕ × ℕ)) × StandsAfter levels.old so_far
        × AreKept (clustering_of levels.old) so_far kept.old }
    ensures { (so_far : List (ℕ × ℕ)) × StandsAfter levels.new so_far
        × AreKept (clustering_of levels.new) so_far kept.new }
{
    if p >= levels.traces() || q >= levels.traces() {
        return Err("there is no such trace".into());
    }
    let merge = plan(levels, p, q);
    let members = kept.members_after(alloc, levels, merge)?;
    let traces = Vec::from_slice(alloc, members.traces())?;
    apply(levels, merge);
    kept.keep(levels, merge.level, merge.p, &members);
    Ok(traces)
}

fn stand_alone(
    alloc: Global,
    levels: &Levels,
    kept: &mut ClusterMembers,
    trace: u32,
) -> Result<Vec<u32>, Fail>
    requires { (so_far : List (ℕ × ℕ)) × StandsAfter levels.now so_far
        × AreKept (clustering_of levels.now) so_far kept.old }
    ensures { (so_far : List (ℕ × ℕ)) × StandsAfter levels.now so_far
        × AreKept (clustering_of levels.now) so_far kept.new }
{
    if trace >= levels.traces() {
        return Err("there is no such trace".into());
    }
    let members = kept.members(alloc, levels, 1, trace)?;
    let traces = Vec::from_slice(alloc, members.traces())?;
    kept.keep(levels, 1, trace, &members);
    Ok(traces)
}
