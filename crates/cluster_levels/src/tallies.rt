ghost use Rattle.std.specs.Prelude.{◌≡◌, ◌≢◌, ℕ, ◌+◌, ◌*◌, ◌<◌, ◌≤◌, IfOk};
ghost use Rattle.cluster_levels.specs.Tallies.{tally, counted};

use causal_base::MOST_TRACES;
use std::alloc::{AllocError, Global};
use std::marker::Model;

/// A square table of counts that saturate. Contracts see it as its width and the counts.
#[derive(Debug, Drop)]
pub struct Tallies {
    width: u32,
    numbers: Vec<u32>,
}

impl Model for Tallies {
    ghost use Rattle.std.specs.Prelude.{◌≡◌, ◌*◌, ◌≤◌, length};
    ghost use Rattle.causal_base.specs.declared.limits.TheConstants.{MOST_TRACES};
    ghost use Rattle.cluster_levels.specs.Tallies.{TallyTable};

    ghost Value = { TallyTable };

    ghost view = { λ t. record { width = t.width; numbers = t.numbers.items } };

    ghost invariant = { λ t. (length t.numbers.items ≡ t.width * t.width)
        × (t.width ≤ MOST_TRACES) };
}

impl Tallies {
    /// A table of so many rows and columns, with no counts. Without rows it takes no memory.
    pub fn new(alloc: Global, width: u32) -> Result<Tallies, AllocError>
        requires { width ≤ MOST_TRACES }
        ensures width { IfOk result (λ tallies. tallies.width ≡ width) }
        ensures none { IfOk result (λ tallies. (row column : ℕ) → row < width → column < width
            → tally tallies row column ≡ 0) }
    {
        let cells = width as usize * width as usize;
        Ok(Tallies {
            width,
            numbers: vec![in alloc; 0; cells]?,
        })
    }

    /// How many rows there are.
    pub fn width(&self) -> u32
        ensures number { result ≡ self.now.width }
        ensures few { result ≤ MOST_TRACES }
    {
        self.width
    }

    /// The count in a row and a column.
    pub fn get(&self, row: u32, column: u32) -> u32
        requires row { row < self.now.width }
        requires column { column < self.now.width }
        ensures { result ≡ tally self.now row column }
    {
        self.numbers[place_in(self.width, row, column)]
    }

    /// Adds to the count in a row and a column.
    pub fn raise(&mut self, row: u32, column: u32, by: u32)
        requires row { row < self.old.width }
        requires column { column < self.old.width }
        ensures width { self.new.width ≡ self.old.width }
        ensures raised { tally self.new row column ≡ counted (tally self.old row column + by) }
        ensures others { (i j : ℕ) → i < self.old.width → j < self.old.width
            → (i ≡ row → j ≡ column → ⊥) → tally self.new i j ≡ tally self.old i j }
    {
        let place = place_in(self.width, row, column);
        self.numbers[place] = self.numbers[place].saturating_add(by);
    }

    /// Adds each count of a row and a column to that of another row and column.
    pub fn add_line(&mut self, to: u32, from: u32)
        requires to { to < self.old.width }
        requires from { from < self.old.width }
        requires apart { to ≢ from }
        ensures width { self.new.width ≡ self.old.width }
        ensures row { (j : ℕ) → j < self.old.width → j ≢ to → j ≢ from
            → tally self.new to j ≡ counted (tally self.old to j + tally self.old from j) }
        ensures column { (i : ℕ) → i < self.old.width → i ≢ to → i ≢ from
            → tally self.new i to ≡ counted (tally self.old i to + tally self.old i from) }
        ensures others { (i j : ℕ) → i < self.old.width → j < self.old.width → i ≢ to → j ≢ to
            → tally self.new i j ≡ tally self.old i j }
    {
        for other in 0..self.width() {
            if other != to && other != from {
                self.add_pair(to, from, other);
            }
        }
    }

    /// Adds the counts of one line with another to those of a third with that one.
    fn add_pair(&mut self, to: u32, from: u32, other: u32)
        requires to { to < self.old.width }
        requires from { from < self.old.width }
        requires other { other < self.old.width }
        requires apart { other ≢ to }
        ensures width { self.new.width ≡ self.old.width }
        ensures row { tally self.new to other
            ≡ counted (tally self.old to other + tally self.old from other) }
        ensures column { tally self.new other to
            ≡ counted (tally self.old other to + tally self.old other from) }
        ensures others { (i j : ℕ) → i < self.old.width → j < self.old.width
            → (i ≡ to → j ≡ other → ⊥) → (i ≡ other → j ≡ to → ⊥)
            → tally self.new i j ≡ tally self.old i j }
    {
        let row = self.get(from, other);
        let column = self.get(other, from);
        self.raise(to, other, row);
        self.raise(other, to, column);
    }
}

/// The place of a row and a column in a table of this width.
fn place_in(width: u32, row: u32, column: u32) -> usize
    requires few { width ≤ MOST_TRACES }
    requires row { row < width }
    requires column { column < width }
    ensures place { result ≡ row * width + column }
    ensures inside { result < width * width }
{
    row as usize * width as usize + column as usize
}
