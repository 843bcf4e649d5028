ghost use Rattle.std.specs.Prelude.{◌≡◌, ℕ, ◌+◌, ◌≤◌, length, slice_index};
ghost use Rattle.shared_list.specs.Traces.{list_of, with_item};
ghost use Rattle.projected_stamp.specs.Above.{IsLinked, last_above, levels_of, next_kept, stamp_of};
ghost use Rattle.projected_stamp.specs.Runs.{HasRun};

use crate::members::Members;
use crate::new_stamp::NewStamp;
use crate::numbers::{Numbers, Run};
use crate::stamp::Stamp;
use shared_list::{Piece, TraceLists};
use std::alloc::{AllocError, Global};

/// A stamp as it is kept: its level and its members, where its numbers lie, and the number of the
/// last event before its own, on its trace, that has a greater level; 0 where none has.
#[derive(Debug, Drop)]
pub(crate) struct Kept {
    pub(crate) members: Members,
    pub(crate) run: Run,
    pub(crate) above: u32,
    pub(crate) level: u8,
}

impl Kept {
    /// The stamp that is kept so, with its numbers.
    pub(crate) fn stamp<'a>(&'a self, numbers: &'a Numbers) -> Stamp<'a>
        requires { HasRun numbers.now.blocks self.now.run (length self.now.members) }
        ensures { result ≡ stamp_of numbers.now.blocks self.now }
    {
        let count = self.members.traces().len();
        Stamp {
            level: self.level,
            members: &self.members,
            numbers: numbers.get(self.run, count),
        }
    }
}

impl Piece for Kept {
    fn copy(&self, _alloc: Global) -> Result<Kept, AllocError> {
        Ok(Kept {
            members: self.members.share()?,
            run: self.run,
            above: self.above,
            level: self.level,
        })
    }
}

/// Keeps the stamp of the next event of a trace, whose numbers lie there. It takes no memory.
pub(crate) fn keep(kept: &mut TraceLists<Kept>, trace: u32, stamp: NewStamp<'_>, run: Run)
    requires linked { IsLinked (list_of kept.old.lists trace) }
    requires room { 1 ≤ slice_index kept.old.spare trace }
    ensures lists { kept.new.lists ≡ with_item kept.old.lists trace
        (next_kept (list_of kept.old.lists trace) stamp.entry run) }
    ensures spare { (k : ℕ) → slice_index kept.old.spare k ≤ slice_index kept.new.spare k + 1 }
{
    let above = number_above(kept, trace, kept.len(trace), stamp.level());
    kept.push(
        trace,
        Kept {
            members: stamp.members,
            run,
            above,
            level: stamp.level,
        },
    );
}

/// The number of the last event of a trace with a number up to this one and a greater level than
/// this one, or 0 where there is none. Each link that it follows leads to a greater level, so it
/// follows no more than there are levels.
pub(crate) fn number_above(kept: &TraceLists<Kept>, trace: u32, upto: u32, level: u8) -> u32
    requires linked { IsLinked (list_of kept.now.lists trace) }
    requires within { upto ≤ length (list_of kept.now.lists trace) }
    ensures { result ≡ last_above (levels_of (list_of kept.now.lists trace)) level upto }
{
    let mut number = upto;
    while number > 0 {
        let Some(last) = kept.get(trace, number - 1) else {
            unreachable!()
        };
        if last.level > level {
            return number;
        }
        number = last.above;
    }
    0
}
