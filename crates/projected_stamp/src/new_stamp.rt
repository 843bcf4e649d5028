ghost use Rattle.std.specs.Prelude.{◌≡◌, ◌<◌, ◌≤◌, All, length, IfOk};
ghost use Rattle.causal_base.specs.declared.limits.TheConstants.{MOST_TRACES};
ghost use Rattle.projected_stamp.specs.Parts.{projected};

use crate::members::Members;
use std::alloc::AllocError;
use std::marker::Model;

/// A cluster timestamp that is about to be kept: a level, members, and a whole clock, which it
/// borrows. What stands in the clock for others than the members counts for nothing, so contracts
/// see the stamp that is kept of it.
#[derive(Debug, Drop)]
pub struct NewStamp<'a> {
    pub(crate) level: u8,
    pub(crate) members: Members,
    pub(crate) clock: &'a [u32],
}

impl<'a> Model for NewStamp<'a> {
    ghost use Rattle.std.specs.Prelude.{◌<◌, All, length};
    ghost use Rattle.causal_base.specs.Stamps.{ClusterTimestamp};
    ghost use Rattle.projected_stamp.specs.Parts.{projected};

    ghost Value = { ClusterTimestamp };

    ghost view = { λ s. projected s.level s.members s.clock.now };

    ghost invariant = { λ s. All (λ trace. trace < length s.clock.now) s.members };
}

impl<'a> NewStamp<'a> {
    /// The stamp of this level that keeps the clock's numbers for these members, each of which is a
    /// trace of the clock. It takes no memory, and fails where the members are held too often to
    /// count.
    pub fn new(level: u8, members: &Members, clock: &'a [u32]) -> Result<NewStamp<'a>, AllocError>
        requires { All (λ trace. trace < length clock.now) members.now }
        ensures { IfOk result (λ stamp. stamp ≡ projected level members.now clock.now) }
    {
        Ok(NewStamp {
            level,
            members: members.share()?,
            clock,
        })
    }

    /// The same stamp, for a partner. It takes no memory, and fails where the members are held too
    /// often to count.
    pub fn share(&self) -> Result<NewStamp<'a>, AllocError>
        ensures { IfOk result (λ stamp. stamp ≡ self.now) }
    {
        Ok(NewStamp {
            level: self.level,
            members: self.members.share()?,
            clock: self.clock,
        })
    }

    /// The level: 1, or that of the smallest clusters that the event's communication lies in.
    pub fn level(&self) -> u8
        ensures { result ≡ self.now.level }
    {
        self.level
    }

    /// How many members there are.
    pub(crate) fn size(&self) -> u32
        ensures size { result ≡ length self.now.members }
        ensures few { result ≤ MOST_TRACES }
    {
        self.members.traces().len() as u32
    }
}
