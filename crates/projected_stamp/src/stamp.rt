ghost use Rattle.std.specs.Prelude.{◌≡◌, ◌≤◌, Contains, length, IfSome, IfNone};
ghost use Rattle.std.specs.List.Sorted.{IsStrictlyIncreasing};
ghost use Rattle.causal_base.specs.declared.limits.TheConstants.{MOST_TRACES};
ghost use Rattle.projected_stamp.specs.Parts.{IsPart};

use crate::members::Members;
use std::marker::Model;

/// A cluster timestamp that is kept: a level, members, and the numbers of a clock for these members
/// alone.
#[derive(Debug, Drop)]
pub struct Stamp<'a> {
    pub(crate) level: u8,
    pub(crate) members: &'a Members,
    pub(crate) numbers: &'a [u32],
}

impl<'a> Model for Stamp<'a> {
    ghost use Rattle.std.specs.Prelude.{◌≡◌, length};
    ghost use Rattle.causal_base.specs.Stamps.{ClusterTimestamp};

    ghost Value = { ClusterTimestamp };

    ghost view = { λ s. record { level = s.level; members = s.members.now; clock = s.numbers.now } };

    ghost invariant = { λ s. length s.numbers.now ≡ length s.members.now };
}

impl<'a> Stamp<'a> {
    /// The level: 1, or that of the smallest clusters that the event's communication lies in.
    pub fn level(&self) -> u8
        ensures { result ≡ self.now.level }
    {
        self.level
    }

    /// The clock's number for a trace, or none where the trace is no member.
    pub fn part(&self, trace: u32) -> Option<u32>
        ensures some { IfSome result (IsPart self.now trace) }
        ensures none { IfNone result (¬ Contains self.now.members trace) }
    {
        match self.members.traces().binary_search(&trace) {
            Ok(at) => Some(self.numbers[at]),
            Err(_) => None,
        }
    }

    /// How many members there are.
    pub fn size(&self) -> u32
        ensures size { result ≡ length self.now.members }
        ensures few { result ≤ MOST_TRACES }
    {
        self.members.traces().len() as u32
    }

    /// The members, in rising order.
    pub fn members(&self) -> &'a [u32]
        ensures value { result.now ≡ self.now.members }
        ensures rise { IsStrictlyIncreasing result.now }
    {
        self.members.traces()
    }

    /// The clock's numbers for the members, in their order.
    pub fn numbers(&self) -> &'a [u32]
        ensures value { result.now ≡ self.now.clock }
        ensures one_a_member { length result.now ≡ length self.now.members }
    {
        self.numbers
    }
}
