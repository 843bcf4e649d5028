ghost use Rattle.std.specs.Prelude.{◌≡◌, ◌<◌, ◌≤◌, ◌↔◌, [], length, take, IfOk, IfSome, OnOk, OnErr};
ghost use Rattle.poet_io.specs.Faults.{IsRaised};
ghost use Rattle.poet_io.specs.SourceState.{SourceState};
ghost use Rattle.poet_io.specs.Takes.{TakesPrefix};

use crate::Failed;

/// What bytes are read from, as a file.
pub trait Source {
    /// What is told of it. The count of its faults never falls.
    ghost state: { Self → SourceState };

    /// Reads some bytes into a prefix of `buf`, and answers how many; 0 is the end. What stands in
    /// `buf` past them, and after an `Err`, is left open.
    fn read(&mut self, buf: &mut [u8]) -> Result<usize, Failed>
        requires { 0 < length buf.old }

        ensures bound { IfOk result (λ n. n ≤ length buf.new) }
        ensures moved { IfOk result (λ n.
            TakesPrefix (state self.old).left (state self.new).left (take n buf.new)) }
        ensures end { IfOk result (λ n. IfSome (state self.old).left (λ bytes.
            (n ≡ 0) ↔ (bytes ≡ []))) }
        ensures unmoved { OnErr result ((state self.new).left ≡ (state self.old).left) }

        ensures no_fault { OnOk result ((state self.new).faults ≡ (state self.old).faults) }
        ensures fault { OnErr result (IsRaised (state self.old).faults (state self.new).faults) }
        ensures same_name { (state self.new).name ≡ (state self.old).name };
}
