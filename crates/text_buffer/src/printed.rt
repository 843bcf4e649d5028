ghost use Rattle.std.specs.Prelude.{ℕ, List};
ghost use Rattle.poet_io.specs.Writes.{Writes};

use poet_io::{Failed, Sink};

/// What has one text, which can be written to any sink, as often as need be.
pub trait Printed {
    /// The text.
    ghost text: { Self → List ℕ };

    /// What has to hold for it to be written.
    ghost printable: { Self → Type 0 };

    /// Writes the text. It takes no memory. After an `Err` the sink has taken some prefix of it.
    fn put<K: Sink>(&self, out: &mut K) -> Result<(), Failed>
        requires { printable self.now }
        ensures { Writes (K.state out.old) (K.state out.new) (text self.now) result };
}
