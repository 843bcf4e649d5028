ghost use Rattle.std.specs.Prelude.{◌≡◌, ◌↔◌, IsTrue, IsSome};

/// What the events of a type do.
#[derive(Clone, Copy, Debug, PartialEq, Eq, Hash)]
pub enum Kind {
    /// Something within one trace.
    Unary,
    /// A message leaves its trace.
    Send,
    /// A message arrives: the event names its send.
    Receive,
    /// Two traces do one thing at once: each of two events names the other.
    Sync,
    /// Follows any event, which it names.
    Watch,
}

impl Kind {
    ghost use Rattle.causal_base.specs.Event.{NamesAnother};
    ghost use Rattle.causal_base.specs.TypeTables.{kind_of_mate};

    /// Whether events of this kind name another event.
    pub fn names_another(self) -> bool
        ensures { IsTrue result ↔ NamesAnother self }
    {
        matches!(self, Kind::Receive | Kind::Sync | Kind::Watch)
    }

    /// The kind of the types that a type of this kind mates with, or none where it mates with none.
    pub fn kind_of_mate(self) -> Option<Kind>
        ensures { result ≡ kind_of_mate self }
    {
        match self {
            Kind::Send => Some(Kind::Receive),
            Kind::Receive => Some(Kind::Send),
            Kind::Sync => Some(Kind::Sync),
            Kind::Unary | Kind::Watch => None,
        }
    }

    /// Whether types of this kind mate.
    pub fn mates(self) -> bool
        ensures { IsTrue result ↔ IsSome (kind_of_mate self) }
    {
        self.kind_of_mate().is_some()
    }
}
