ghost use Rattle.std.specs.Prelude.{◌≡◌};

/// What is wrong with a line of events, the first of these that applies.
#[derive(Clone, Copy, Debug, PartialEq, Eq)]
pub enum LineCause {
    /// The input has more than `MOST_INPUT` bytes, and the line doesn't end within that many.
    TooLarge,
    /// The line has more than `MOST_LINE` bytes.
    LongLine,
    /// The input ends within the line.
    Unended,
    /// The line isn't four fields with one space between them, and perhaps one more space and a
    /// text behind them.
    Shape,
    /// The event's id, or the one that it names, isn't two numbers with a full stop between them.
    BadId,
    /// The trace of one of them is none of the traces.
    NoTrace,
    /// The number of one of them isn't from 1 to `MOST_NUMBER`.
    BadNumber,
    /// The type is none of the types.
    NoType,
    /// An event of this type names no other, and the line names one.
    MateGiven,
    /// An event of this type names another, and the line names none.
    MateMissing,
    /// The time isn't a number.
    BadTime,
    /// The text has more than `MOST_TEXT` bytes.
    LongText,
    /// Memory ran out.
    Oom,
}

/// Why a text of events wasn't read further.
#[derive(Clone, Copy, Debug, PartialEq, Eq)]
pub struct LineError {
    /// The number of the line, from 1. Every line counts.
    pub line: u64,
    pub cause: LineCause,
}

impl LineCause {
    ghost use Rattle.raw_reader.specs.CauseNames.{cause_name};

    /// The name that is printed.
    pub fn name(&self) -> &'static str
        ensures { result.now ≡ cause_name self.now }
    {
        match self {
            LineCause::TooLarge => "TooLarge",
            LineCause::LongLine => "LongLine",
            LineCause::Unended => "Unended",
            LineCause::Shape => "Shape",
            LineCause::BadId => "BadId",
            LineCause::NoTrace => "NoTrace",
            LineCause::BadNumber => "BadNumber",
            LineCause::NoType => "NoType",
            LineCause::MateGiven => "MateGiven",
            LineCause::MateMissing => "MateMissing",
            LineCause::BadTime => "BadTime",
            LineCause::LongText => "LongText",
            LineCause::Oom => "Oom",
        }
    }
}
