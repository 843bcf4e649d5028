ghost use Rattle.std.specs.Prelude.{◌≡◌, ◌++◌, codes, decimal};
ghost use Rattle.client_session.specs.declared.script_error.ScriptError.{ScriptError};
ghost use Rattle.poet_io.specs.Writes.{Writes};
ghost use Rattle.run_files.specs.declared.fault.Asker.TheVariants.{Client};
ghost use Rattle.run_files.specs.Troubles.{ScriptRefused, TargetRefused, asker_text, text_of_trouble};

use answer_text::put_number;
use client_session::ScriptError;
use poet_io::{Failed, OpenError, Sink, put};
use target_desc::TargetError;
use text_buffer::Printed;

/// Whose script it is.
#[derive(Clone, Copy, Debug, PartialEq, Eq)]
pub enum Asker {
    /// That of the client with this number, counted from 0.
    Client(u32),
    /// The closing script.
    Closing,
}

/// Why a run didn't begin.
#[derive(Clone, Copy, Debug, PartialEq, Eq)]
pub enum Fault<'a> {
    /// The file of this name is absent or didn't open.
    Open(&'a str),
    /// The file of this name couldn't be read to its end.
    Read(&'a str),
    /// The file of the target is none.
    Target(TargetError),
    /// The file of a script is none.
    Script(Asker, ScriptError),
    /// Memory ran out.
    Memory,
}

impl Asker {
    ghost use Rattle.run_files.specs.Loading.{is_closing};

    /// Whether it is the closing script.
    pub fn is_closing(self) -> bool
        ensures { result ≡ is_closing self }
    {
        matches!(self, Asker::Closing)
    }
}

impl<'a> Fault<'a> {
    ghost use Rattle.run_files.specs.Troubles.{status_of_trouble, trouble_of, trouble_of_opening};

    /// The fault where the file of this name wasn't opened.
    pub(crate) fn of_open(error: OpenError, name: &'a str) -> Fault<'a>
        ensures { trouble_of result ≡ trouble_of_opening error name.now }
    {
        match error {
            OpenError::Absent | OpenError::Failed => Fault::Open(name),
            OpenError::Oom => Fault::Memory,
        }
    }

    /// The status that the program ends with.
    pub fn status(&self) -> u8
        ensures { result ≡ status_of_trouble (trouble_of self.now) }
    {
        match self {
            Fault::Open(_) | Fault::Read(_) => 2,
            Fault::Target(_) => 4,
            Fault::Script(..) => 5,
            Fault::Memory => 7,
        }
    }
}

impl Printed for Fault<'_> {
    ghost use Rattle.run_files.specs.Troubles.{text_of_trouble, trouble_of};

    ghost text = { λ fault. text_of_trouble (trouble_of fault) };

    ghost printable = { λ fault. Unit {0} };

    fn put<K: Sink>(&self, out: &mut K) -> Result<(), Failed> {
        match self {
            Fault::Open(name) => put_named(out, b"poet: open ", name),
            Fault::Read(name) => put_named(out, b"poet: read ", name),
            Fault::Target(error) => put_target_error(out, error),
            Fault::Script(asker, error) => put_script_error(out, *asker, error),
            Fault::Memory => put(out, b"poet: memory\n"),
        }
    }
}

/// Writes a line that ends with a name, or the last part of one.
fn put_named<K: Sink>(out: &mut K, what: &[u8], name: &str) -> Result<(), Failed>
    ensures { Writes (K.state out.old) (K.state out.new)
        (what.now ++ name.now ++ codes "\n") result }
{
    put(out, what)?;
    put(out, name.as_bytes())?;
    put(out, b"\n")
}

/// Writes the line that says why a file is no target.
fn put_target_error<K: Sink>(out: &mut K, error: &TargetError) -> Result<(), Failed>
    ensures { Writes (K.state out.old) (K.state out.new)
        (text_of_trouble (TargetRefused error.now)) result }
{
    let (name, number) = error.name_and_number();
    match number {
        Some(number) => put_counted(out, name, number),
        None => put_named(out, b"poet: target ", name),
    }
}

/// Writes the line that says why a file is no target, with a number.
fn put_counted<K: Sink>(out: &mut K, name: &str, number: u32) -> Result<(), Failed>
    ensures { Writes (K.state out.old) (K.state out.new)
        (codes "poet: target " ++ name.now ++ ((codes " " ++ decimal number) ++ codes "\n"))
        result }
{
    put(out, b"poet: target ")?;
    put(out, name.as_bytes())?;
    put(out, b" ")?;
    put_number(out, number as u64)?;
    put(out, b"\n")
}

/// Writes the line that says why a file is no script.
fn put_script_error<K: Sink>(out: &mut K, asker: Asker, error: &ScriptError) -> Result<(), Failed>
    ensures { Writes (K.state out.old) (K.state out.new)
        (text_of_trouble (ScriptRefused asker error.now)) result }
{
    put_asker(out, asker)?;
    put_number(out, error.line)?;
    put_named(out, b" ", error.cause.name())
}

/// Writes whose script it is, and a space.
fn put_asker<K: Sink>(out: &mut K, asker: Asker) -> Result<(), Failed>
    ensures { Writes (K.state out.old) (K.state out.new) (asker_text asker) result }
{
    match asker {
        Asker::Client(number) => put_client(out, number),
        Asker::Closing => put(out, b"poet: closing "),
    }
}

/// Writes which client's script it is, and a space.
fn put_client<K: Sink>(out: &mut K, number: u32) -> Result<(), Failed>
    ensures { Writes (K.state out.old) (K.state out.new) (asker_text (Client number)) result }
{
    put(out, b"poet: client ")?;
    put_number(out, number as u64)?;
    put(out, b" ")
}
