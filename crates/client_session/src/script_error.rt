ghost use Rattle.std.specs.Prelude.{◌≡◌};

/// What is wrong with a script. The causes are in the order in which the first of a line counts.
#[derive(Clone, Copy, Debug, PartialEq, Eq)]
pub enum ScriptCause {
    /// The file has more than [`MOST_SCRIPT`](crate::MOST_SCRIPT) bytes.
    TooLong,
    /// The line, ended or not, has more than [`MOST_LINE`](crate::MOST_LINE) bytes.
    LongLine,
    /// The file ends within the line.
    Unended,
    /// There are [`MOST_COMMANDS`](crate::MOST_COMMANDS) lines before it.
    TooManyLines,
    /// The bytes up to the first space, or all of them, aren't the first word of a command.
    NoCommand,
    /// There are more words or fewer than the command has, or an empty one; or the word behind
    /// `cut` is none of `none`, `all`, `to`, `back` and `has`.
    Shape,
    /// It asks for a stamp, in a closing script.
    NotInClosing,
    /// A word isn't two numbers with a full stop between them where an id is to stand, or isn't a
    /// number where a trace is to stand.
    BadId,
    /// A word is the number of a trace that there isn't, or an id of one.
    NoTrace,
    /// An id's number isn't from 1 to 1,000,000.
    BadNumber,
    /// Memory ran out.
    Oom,
}

/// Why a file is no script.
#[derive(Clone, Copy, Debug, PartialEq, Eq)]
pub struct ScriptError {
    /// The line, counted from 1, and 0 for [`ScriptCause::TooLong`].
    pub line: u64,
    /// What is wrong with it.
    pub cause: ScriptCause,
}

impl ScriptCause {
    ghost use Rattle.client_session.specs.CauseNames.{cause_name};

    /// The name that is printed.
    pub fn name(&self) -> &'static str
        ensures { result.now ≡ cause_name self.now }
    {
        match self {
            ScriptCause::TooLong => "TooLong",
            ScriptCause::LongLine => "LongLine",
            ScriptCause::Unended => "Unended",
            ScriptCause::TooManyLines => "TooManyLines",
            ScriptCause::NoCommand => "NoCommand",
            ScriptCause::Shape => "Shape",
            ScriptCause::NotInClosing => "NotInClosing",
            ScriptCause::BadId => "BadId",
            ScriptCause::NoTrace => "NoTrace",
            ScriptCause::BadNumber => "BadNumber",
            ScriptCause::Oom => "Oom",
        }
    }
}
