ghost use Rattle.std.specs.Prelude.{◌≡◌, ◌++◌, codes};
ghost use Rattle.poet_io.specs.Writes.{Writes};
ghost use Rattle.poet_top.specs.Outcome.{BadLine, text_of_outcome};

use answer_text::put_number;
use poet_io::{Failed, OpenError, Sink, put};
use raw_reader::{LineCause, LineError};
use text_buffer::Printed;

/// Why there is no answer.
#[derive(Clone, Copy, Debug, PartialEq, Eq)]
pub enum Fault<'a> {
    /// The words are no plan.
    Words,
    /// The file of this name is absent or didn't open.
    Open(&'a str),
    /// The file of this name couldn't be read to its end.
    Read(&'a str),
    /// The first line that is no event, and what is wrong with it.
    Line(LineError),
    /// Memory ran out.
    Memory,
    /// There are more events than the plain list takes.
    Full,
}

impl<'a> Fault<'a> {
    ghost use Rattle.poet_top.specs.FaultOutcome.{outcome_of_fault, outcome_of_open, IsFaultOf};
    ghost use Rattle.poet_top.specs.Outcome.{status_of};

    /// The fault where the file of this name wasn't opened.
    pub fn of_open(error: OpenError, name: &'a str) -> Fault<'a>
        ensures { outcome_of_fault result ≡ outcome_of_open error name.now }
    {
        match error {
            OpenError::Absent | OpenError::Failed => Fault::Open(name),
            OpenError::Oom => Fault::Memory,
        }
    }

    /// The fault where a reader refused a line, or had no memory.
    pub fn of_line(error: LineError) -> Fault<'a>
        ensures { IsFaultOf error result }
    {
        match error.cause {
            LineCause::Oom => Fault::Memory,
            _ => Fault::Line(error),
        }
    }

    /// The status that the program ends with.
    pub fn status(&self) -> u8
        ensures { result ≡ status_of (outcome_of_fault self.now) }
    {
        match self {
            Fault::Words => 1,
            Fault::Open(_) | Fault::Read(_) => 2,
            Fault::Line(_) => 6,
            Fault::Memory => 7,
            Fault::Full => 8,
        }
    }
}

impl Printed for Fault<'_> {
    ghost use Rattle.poet_top.specs.FaultOutcome.{outcome_of_fault};
    ghost use Rattle.poet_top.specs.Outcome.{text_of_outcome};

    ghost text = { λ fault. text_of_outcome (outcome_of_fault fault) };

    ghost printable = { λ fault. Unit {0} };

    fn put<K: Sink>(&self, out: &mut K) -> Result<(), Failed> {
        match self {
            Fault::Words => put(out, b"poet: words\n"),
            Fault::Open(name) => put_named(out, b"poet: open ", name),
            Fault::Read(name) => put_named(out, b"poet: read ", name),
            Fault::Line(error) => put_line_error(out, error),
            Fault::Memory => put(out, b"poet: memory\n"),
            Fault::Full => put(out, b"poet: full\n"),
        }
    }
}

/// Writes a line that ends with a name, or the last part of one.
fn put_named<K: Sink>(out: &mut K, what: &[u8], name: &str) -> Result<(), Failed>
    ensures { Writes (K.state out.old) (K.state out.new)
        (what.now ++ name.now ++ codes "\n") result }
{
    put(out, what)?;
    put(out, name.as_bytes())?;
    put(out, b"\n")
}

/// Writes the line that says what is wrong with a line.
fn put_line_error<K: Sink>(out: &mut K, error: &LineError) -> Result<(), Failed>
    ensures { Writes (K.state out.old) (K.state out.new)
        (text_of_outcome (BadLine error.now)) result }
{
    put(out, b"poet: line ")?;
    put_number(out, error.line)?;
    put_named(out, b" ", error.cause.name())
}
