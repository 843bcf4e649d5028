ghost use Rattle.std.specs.Prelude.{◌≡◌, List, length};
ghost use Rattle.causal_base.specs.declared.entry.Entry.{Entry};

/// A value that stands for a journal.
pub trait StandsFor {
    /// What of it stays the same in every turn, as plain data. No value of it is made.
    type Fixed;

    /// The journal that it stands for, the oldest entry first.
    ghost journal_of: { Self → List Entry };

    /// What of it stays the same in every turn.
    ghost fixed_of: { Self → Self.Fixed };

    /// The length of its journal.
    fn length(&self) -> u64
        ensures { result ≡ length (journal_of self.now) };
}
