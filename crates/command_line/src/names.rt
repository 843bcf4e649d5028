ghost use Rattle.std.specs.Prelude.{◌≡◌, ◌∷◌, ◌++◌, ◌↔◌, ◌<◌, ◌≤◌, [], length, map, slice_index_or, IsTrue, IsFalse};
ghost use Rattle.std.specs.Bool.{OnTrue, OnFalse};
ghost use Rattle.command_line.specs.declared.limits.TheConstants.{MOST_NAMES};

use crate::limits::MOST_NAMES;
use std::marker::Model;

/// At most [`MOST_NAMES`] names of files, in their order. Contracts see it as the list of their
/// bytes. It takes no memory.
#[derive(Debug, Drop)]
pub struct Names<'a> {
    texts: [&'a str; MOST_NAMES],
    count: usize,
}

impl<'a> Model for Names<'a> {
    ghost use Rattle.std.specs.Prelude.{ℕ, List, map, take, ◌≤◌};
    ghost use Rattle.command_line.specs.declared.limits.TheConstants.{MOST_NAMES};

    ghost Value = { List (List ℕ) };

    ghost view = { λ names. map (λ name. name.now) (take names.count names.texts) };

    ghost invariant = { λ names. names.count ≤ MOST_NAMES };
}

impl<'a> Names<'a> {
    /// No names.
    pub fn new() -> Names<'a>
        ensures { result ≡ [] }
    {
        Names {
            texts: [""; MOST_NAMES],
            count: 0,
        }
    }

    /// Adds a name at the end, and says whether there was room for it.
    pub fn push(&mut self, name: &'a str) -> bool
        ensures room { IsTrue result ↔ (length self.old < MOST_NAMES) }
        ensures added { OnTrue result (self.new ≡ self.old ++ name.now ∷ []) }
        ensures kept { OnFalse result (self.new ≡ self.old) }
    {
        if self.count == MOST_NAMES {
            return false;
        }
        self.texts[self.count] = name;
        self.count += 1;
        true
    }

    /// How many names there are.
    pub fn len(&self) -> usize
        ensures number { result ≡ length self.now }
        ensures few { length self.now ≤ MOST_NAMES }
    {
        self.count
    }

    /// Whether there are none.
    pub fn is_empty(&self) -> bool
        ensures { IsTrue result ↔ (self.now ≡ []) }
    {
        self.count == 0
    }

    /// The names.
    pub fn as_slice(&self) -> &[&'a str]
        ensures { map (λ name. name.now) result.now ≡ self.now }
    {
        &self.texts[..self.count]
    }
}
