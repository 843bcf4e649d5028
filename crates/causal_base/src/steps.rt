ghost use Rattle.std.specs.Prelude.{◌≡◌, ◌+◌, ◌<◌};

use std::marker::Model;
use std::sync::ledger::{Blank, Book as Sum, Ledger, Share};

/// Counts the steps that an answer takes: a step is one look-up of a stamp. It takes no bytes, does
/// nothing when it runs, and only [`Steps::tick`] changes it. Contracts see it as a number.
#[derive(Drop)]
pub struct Steps<L: Ledger> {
    sum: Sum<L>,
    share: Share<L>,
}

impl<L: Ledger> Model for Steps<L> {
    ghost use Rattle.std.specs.Prelude.{ℕ, ◌<◌};

    ghost Value = { ℕ };

    ghost view = { λ s. s.sum.total };

    ghost invariant = { λ s. 0 < s.share.parts };
}

impl<L: Ledger> Steps<L> {
    /// No steps yet.
    pub fn new(blank: Blank) -> Steps<L>
        requires name { blank.name ≡ L.name }
        requires parts { blank.parts ≡ L.parts }
        requires some { 0 < blank.parts }
        ensures { result ≡ 0 }
    {
        let (sum, share) = blank.open::<L>();
        Steps { sum, share }
    }

    /// One step more.
    pub fn tick(&mut self)
        ensures { self.new ≡ self.old + 1 }
    {
        self.sum.add(&mut self.share, 1);
    }
}
