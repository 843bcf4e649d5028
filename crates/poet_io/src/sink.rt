ghost use Rattle.std.specs.Prelude.{◌≡◌, ◌<◌, ◌≤◌, length, take, IfOk, OnOk, OnErr};
ghost use Rattle.poet_io.specs.Faults.{IsRaised};
ghost use Rattle.poet_io.specs.Grows.{Grows};
ghost use Rattle.poet_io.specs.SinkState.{SinkState};

use crate::Failed;

/// What bytes are written to, as standard output.
pub trait Sink {
    /// What is told of it. The count of its faults never falls.
    ghost state: { Self → SinkState };

    /// Takes a prefix of `piece`, and answers how long it is.
    fn write(&mut self, piece: &[u8]) -> Result<usize, Failed>
        requires { 0 < length piece.now }

        ensures some { IfOk result (λ n. 0 < n) }
        ensures bound { IfOk result (λ n. n ≤ length piece.now) }
        ensures grown { IfOk result (λ n.
            Grows (state self.old).taken (state self.new).taken (take n piece.now)) }
        ensures untaken { OnErr result ((state self.new).taken ≡ (state self.old).taken) }

        ensures no_fault { OnOk result ((state self.new).faults ≡ (state self.old).faults) }
        ensures fault { OnErr result (IsRaised (state self.old).faults (state self.new).faults) };
}
