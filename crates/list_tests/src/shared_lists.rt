//! Tests of what no clause says: that lists are made and shared where memory is left.

use shared_list::{Piece, SharedList, TraceLists};
use std::alloc::{AllocError, Global};
use std::marker::Model;
use std::process::Abort;
use std::test::Fail;

/// A piece that owns memory: letters, which contracts see as their list.
#[derive(Drop)]
struct Word {
    letters: Vec<u8>,
}

impl Model for Word {
    ghost use Rattle.std.specs.Prelude.{List, ℕ};

    ghost Value = { List ℕ };

    ghost view = { λ word. word.letters.items };
}

impl Piece for Word {
    fn copy(&self, alloc: Global) -> Result<Word, AllocError> {
        Ok(Word {
            letters: Vec::from_slice(alloc, &self.letters)?,
        })
    }
}

/// Adds the numbers from `first` up to `upto`.
fn count_up(list: &mut SharedList<u32>, first: u32, upto: u32) -> Result<(), AllocError> {
    for number in first..upto {
        list.reserve()?;
        list.push(number);
    }
    Ok(())
}

/// The list has exactly the numbers below `upto`, in order.
fn assert_counts(rt: &impl Abort, list: &SharedList<u32>, upto: u32) {
    assert_eq!(rt; list.len(), u64::from(upto));
    for number in 0..upto {
        assert_eq!(rt; list.get(u64::from(number)), Some(&number));
    }
    assert_eq!(rt; list.get(u64::from(upto)), None);
}

#[test]
fn a_shared_list_stays(rt: HostRuntime) -> Result<(), Fail> {
    let alloc = rt.alloc();
    let mut list = SharedList::new(alloc);
    assert_counts(&rt, &list, 0);
    let mut held = 0;
    for upto in [63, 64, 66, 510, 512, 514, 578, 1025] {
        count_up(&mut list, held, upto)?;
        let mut shared = list.share(alloc)?;
        let other = list.share(alloc)?;
        let twice = shared.share(alloc)?;
        held = upto + 1;
        count_up(&mut list, upto, held)?;
        count_up(&mut shared, upto, upto + 130)?;
        assert_counts(&rt, &list, held);
        assert_counts(&rt, &shared, upto + 130);
        assert_counts(&rt, &other, upto);
        assert_counts(&rt, &twice, upto);
    }
    Ok(())
}

#[test]
fn each_share_of_many_stays(rt: HostRuntime) -> Result<(), Fail> {
    let alloc = rt.alloc();
    let mut list = SharedList::new(alloc);
    let mut shares = Vec::new(alloc);
    for number in 0..100_000u32 {
        if number % 997 == 0 {
            shares.push((number, list.share(alloc)?))?;
        }
        list.reserve()?;
        list.push(number);
    }
    assert_eq!(rt; shares.len(), 101);
    for (upto, shared) in &shares {
        assert_counts(&rt, shared, *upto);
    }
    assert_counts(&rt, &list, 100_000);
    Ok(())
}

/// A word of one letter.
fn of_letter(alloc: Global, letter: u8) -> Result<Word, AllocError> {
    let mut letters = Vec::new(alloc);
    letters.push(letter)?;
    Ok(Word { letters })
}

/// The words of each trace, and a bar after each trace.
fn spelled(alloc: Global, lists: &TraceLists<Word>) -> Result<Vec<u8>, AllocError> {
    let mut text = Vec::new(alloc);
    for trace in 0..lists.traces() {
        for at in 0..lists.len(trace) {
            if let Some(word) = lists.get(trace, at) {
                text.extend_from_slice(&word.letters)?;
            }
        }
        text.push(b'|')?;
    }
    Ok(text)
}

#[test]
fn shares_of_traces_stay(rt: HostRuntime) -> Result<(), Fail> {
    let alloc = rt.alloc();
    let mut lists = TraceLists::new(alloc, 3)?;
    let additions: [(u32, u8, &[u8]); 7] = [
        (0, b'a', b"a|||"),
        (2, b'b', b"a||b|"),
        (0, b'c', b"ac||b|"),
        (2, b'd', b"ac||bd|"),
        (1, b'e', b"ac|e|bd|"),
        (2, b'f', b"ac|e|bdf|"),
        (0, b'g', b"acg|e|bdf|"),
    ];
    let mut shares = Vec::new(alloc);
    for (trace, letter, after) in additions {
        assert!(rt; trace < lists.traces());
        lists.reserve(trace)?;
        lists.push(trace, of_letter(alloc, letter)?);
        shares.push((after, lists.share(alloc)?))?;
    }
    for (after, shared) in &shares {
        assert_eq!(rt; spelled(alloc, shared)?.as_slice(), *after);
        assert_eq!(rt; spelled(alloc, &shared.share(alloc)?)?.as_slice(), *after);
        assert_eq!(rt; shared.traces(), 3);
        assert!(rt; shared.get(3, 0).is_none());
        assert_eq!(rt; shared.len(3), 0);
    }
    Ok(())
}

/// Each of 3 traces has exactly its numbers of those below `upto`, a multiple of 3, in order.
fn assert_dealt(rt: &impl Abort, lists: &TraceLists<u32>, upto: u32) {
    for trace in 0..3u32 {
        let held = upto / 3;
        assert_eq!(rt; lists.len(trace), held);
        for at in 0..held {
            let item = lists.get(trace, at).map(|item| (*item / 3, *item % 3));
            assert_eq!(rt; item, Some((at, trace)));
        }
        assert_eq!(rt; lists.get(trace, held), None);
    }
}

#[test]
fn numbers_dealt_to_traces_stay(rt: HostRuntime) -> Result<(), Fail> {
    let alloc = rt.alloc();
    let mut lists = TraceLists::new(alloc, 3)?;
    let mut shares = Vec::new(alloc);
    for number in 0..4_002u32 {
        if number % 321 == 0 {
            shares.push((number, lists.share(alloc)?))?;
        }
        let trace = number % 3;
        assert!(rt; trace < lists.traces());
        lists.reserve(trace)?;
        lists.push(trace, number);
    }
    for (upto, shared) in &shares {
        assert_dealt(&rt, shared, *upto);
    }
    assert_dealt(&rt, &lists, 4_002);
    Ok(())
}

/// Only lists that may go to other threads, and be read there, are taken.
fn take_for_threads<X: Send + Sync + Drop>(_lists: X) {}

#[test]
fn lists_go_to_threads(rt: HostRuntime) -> Result<(), Fail> {
    take_for_threads(SharedList::<u32>::new(rt.alloc()));
    take_for_threads(TraceLists::<u32>::new(rt.alloc(), 1)?);
    Ok(())
}
