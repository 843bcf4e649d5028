ghost use Rattle.std.specs.Prelude.{◌≡◌};

/// Why a target file is refused, the first of these that applies. Traces and entries of types are
/// numbered from 0, in the order of the file.
#[derive(Clone, Copy, Debug, PartialEq, Eq)]
pub enum TargetError {
    /// The file has more than 1,048,576 bytes.
    TooLong,
    /// The bytes aren't UTF-8, or aren't a TOML document.
    NotToml,
    /// `traces` is missing, isn't an array or is empty.
    NoTraces,
    /// There are so many traces, more than 256.
    TooManyTraces(u32),
    /// This trace isn't a string that is a name.
    BadTrace(u32),
    /// This trace is an earlier one again.
    TwiceTrace(u32),
    /// `event` is missing, isn't an array or is empty.
    NoTypes,
    /// There are so many entries for types, more than 64.
    TooManyTypes(u32),
    /// This entry isn't a table whose `name` is a string that is a name.
    BadType(u32),
    /// An earlier entry has the name of this one.
    TwiceType(u32),
    /// The `kind` of this entry is none of the five words.
    BadKind(u32),
    /// Types of this entry's kind mate, and its `mate` isn't a string.
    MateNeeded(u32),
    /// Types of this entry's kind don't mate, and it has `mate`.
    MateGiven(u32),
    /// The mate of this entry is no entry's name.
    MateUnknown(u32),
    /// The mate of this entry has another mate or none, or its kind doesn't mate with this one's.
    MateNotMutual(u32),
    /// The document has a key other than `traces` and `event`, or an entry one other than `name`,
    /// `kind` and `mate`.
    StrayKey,
    /// Memory ran out.
    Oom,
}

impl TargetError {
    ghost use Rattle.target_desc.specs.RefusalNames.{refusal_name, refusal_number};

    /// The name that is printed, and the number behind it, where it has one.
    pub fn name_and_number(&self) -> (&'static str, Option<u32>)
        ensures name { result.0.now ≡ refusal_name self.now }
        ensures number { result.1 ≡ refusal_number self.now }
    {
        match self {
            TargetError::TooLong => ("TooLong", None),
            TargetError::NotToml => ("NotToml", None),
            TargetError::NoTraces => ("NoTraces", None),
            TargetError::TooManyTraces(count) => ("TooManyTraces", Some(*count)),
            TargetError::BadTrace(place) => ("BadTrace", Some(*place)),
            TargetError::TwiceTrace(place) => ("TwiceTrace", Some(*place)),
            TargetError::NoTypes => ("NoTypes", None),
            TargetError::TooManyTypes(count) => ("TooManyTypes", Some(*count)),
            TargetError::BadType(place) => ("BadType", Some(*place)),
            TargetError::TwiceType(place) => ("TwiceType", Some(*place)),
            TargetError::BadKind(place) => ("BadKind", Some(*place)),
            TargetError::MateNeeded(place) => ("MateNeeded", Some(*place)),
            TargetError::MateGiven(place) => ("MateGiven", Some(*place)),
            TargetError::MateUnknown(place) => ("MateUnknown", Some(*place)),
            TargetError::MateNotMutual(place) => ("MateNotMutual", Some(*place)),
            TargetError::StrayKey => ("StrayKey", None),
            TargetError::Oom => ("Oom", None),
        }
    }
}
