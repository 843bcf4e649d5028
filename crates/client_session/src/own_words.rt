//! The words of a command's own.

ghost use Rattle.std.specs.Prelude.{◌≡◌, ◌≢◌, IfSome, IfNone};
ghost use Rattle.client_session.specs.Words.{cut_text, first_text};

/// The first word of a line.
#[derive(Clone, Copy, Debug, PartialEq, Eq)]
pub enum FirstWord {
    Before,
    Relation,
    Event,
    Stamp,
    GreatestBefore,
    LeastAfter,
    Cut,
    Count,
    Await,
}

impl FirstWord {
    /// The first word that these bytes are, if they are one.
    pub fn of(word: &[u8]) -> Option<FirstWord>
        ensures some { IfSome result (λ first. word.now ≡ first_text first) }
        ensures none { IfNone result ((first : FirstWord) → word.now ≢ first_text first) }
    {
        match word {
            b"before" => Some(FirstWord::Before),
            b"relation" => Some(FirstWord::Relation),
            b"event" => Some(FirstWord::Event),
            b"stamp" => Some(FirstWord::Stamp),
            b"gp" => Some(FirstWord::GreatestBefore),
            b"ls" => Some(FirstWord::LeastAfter),
            b"cut" => Some(FirstWord::Cut),
            b"count" => Some(FirstWord::Count),
            b"await" => Some(FirstWord::Await),
            _ => None,
        }
    }
}

/// The second word of a line whose first is `cut`: what becomes of the cut.
#[derive(Clone, Copy, Debug, PartialEq, Eq)]
pub enum CutWord {
    None,
    All,
    To,
    Back,
    Has,
}

impl CutWord {
    /// The second word that these bytes are, if they are one.
    pub fn of(word: &[u8]) -> Option<CutWord>
        ensures some { IfSome result (λ second. word.now ≡ cut_text second) }
        ensures none { IfNone result ((second : CutWord) → word.now ≢ cut_text second) }
    {
        match word {
            b"none" => Some(CutWord::None),
            b"all" => Some(CutWord::All),
            b"to" => Some(CutWord::To),
            b"back" => Some(CutWord::Back),
            b"has" => Some(CutWord::Has),
            _ => None,
        }
    }
}
