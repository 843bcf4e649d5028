//! Tests of what no clause says: that levels are made where memory is left, and rows that were
//! worked out by hand.

use cluster_levels::{Levels, Sizes, SizesError};
use std::alloc::Global;
use std::test::Fail;

/// Lists of sizes, and what is wrong with them.
const REFUSED: [(&[u32], SizesError); 6] = [
    (&[], SizesError::NoLevel),
    (&[1, 2, 3, 4, 5], SizesError::TooManyLevels),
    (&[8, 8], SizesError::NotRising(1)),
    (&[0], SizesError::NotRising(0)),
    (&[257], SizesError::TooLarge(0)),
    (&[8, 300, 4], SizesError::TooLarge(1)),
];

#[test]
fn sizes_are_refused(rt: HostRuntime) {
    for (list, error) in REFUSED {
        assert!(rt; matches!(Sizes::new(list), Err(found) if found == error));
    }
}

#[test]
fn sizes_are_kept(rt: HostRuntime) -> Result<(), Fail> {
    let sizes = Sizes::new(&[8, 32])?;
    assert_eq!(rt; sizes.levels(), 2);
    assert_eq!(rt; sizes.bound(), 265);
    Ok(())
}

/// Five traces, and clusters of at most 2 and 4 of them.
fn two_levels(alloc: Global, after: u32) -> Result<Levels, Fail> {
    Ok(Levels::new(alloc, Sizes::new(&[2, 4])?, 5, after)?)
}

/// Whether two traces share a cluster of a level.
fn share(levels: &Levels, level: u8, p: u32, q: u32) -> bool {
    level > 0 && p < levels.traces() && q < levels.traces() && levels.same(level, p, q)
}

/// Whether the clusters of two traces differ at a level, and may merge with a communication that
/// comes next.
fn may(levels: &Levels, level: u8, p: u32, q: u32) -> bool {
    level > 0
        && level <= levels.sizes().levels()
        && p < levels.traces()
        && q < levels.traces()
        && !levels.same(level, p, q)
        && levels.may_merge(level, p, q)
}

/// Notes a communication.
fn note(levels: &mut Levels, p: u32, q: u32) {
    if p < levels.traces() && q < levels.traces() {
        levels.note(p, q);
    }
}

/// Merges two clusters where that is allowed, and says whether it was.
fn merge(levels: &mut Levels, level: u8, p: u32, q: u32) -> bool {
    if level == 0 || level > levels.sizes().levels() {
        return false;
    }
    if p >= levels.traces() || q >= levels.traces() {
        return false;
    }
    if levels.same(level, p, q) || !levels.same(level + 1, p, q) {
        return false;
    }
    let together = levels.cluster_size(level, p) + levels.cluster_size(level, q);
    if together > levels.sizes().size(level) {
        return false;
    }
    levels.merge(level, p, q);
    true
}

#[test]
fn clusters_merge(rt: HostRuntime) -> Result<(), Fail> {
    let mut levels = two_levels(rt.alloc(), 1)?;
    assert!(rt; !share(&levels, 2, 0, 1) && share(&levels, 3, 0, 1));
    assert!(rt; !merge(&mut levels, 1, 0, 1));
    for (p, q) in [(0, 1), (2, 3)] {
        note(&mut levels, p, q);
        assert!(rt; merge(&mut levels, 2, p, q) && merge(&mut levels, 1, p, q));
    }
    assert!(rt; share(&levels, 1, 0, 1) && share(&levels, 2, 3, 2));
    assert!(rt; !share(&levels, 2, 1, 2) && !share(&levels, 1, 4, 0));
    assert!(rt; may(&levels, 2, 2, 1) && !may(&levels, 1, 2, 1));
    note(&mut levels, 2, 1);
    assert!(rt; merge(&mut levels, 2, 2, 1) && share(&levels, 2, 0, 3));
    assert!(rt; !may(&levels, 2, 4, 2));
    Ok(())
}

#[test]
fn communications_add_up(rt: HostRuntime) -> Result<(), Fail> {
    let mut levels = two_levels(rt.alloc(), 3)?;
    assert_eq!(rt; levels.after(), 3);
    note(&mut levels, 0, 4);
    note(&mut levels, 4, 1);
    assert!(rt; !may(&levels, 2, 0, 4) && !may(&levels, 2, 1, 4));
    note(&mut levels, 1, 0);
    note(&mut levels, 0, 1);
    assert!(rt; may(&levels, 2, 0, 1) && may(&levels, 1, 1, 0));
    note(&mut levels, 0, 1);
    assert!(rt; merge(&mut levels, 2, 1, 0));
    assert!(rt; may(&levels, 2, 0, 4) && may(&levels, 2, 4, 1));
    assert!(rt; !may(&levels, 1, 0, 4) && !may(&levels, 2, 0, 2));
    Ok(())
}
