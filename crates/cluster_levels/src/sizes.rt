ghost use Rattle.std.specs.Prelude.{◌≡◌, ℕ, ◌+◌, ◌-◌, ◌*◌, ◌<◌, ◌≤◌, List, length, slice_index, IfOk, IfErr, OnOk};
ghost use Rattle.causal_base.specs.Clusters.{bound_of};
ghost use Rattle.causal_base.specs.Refusals.{ArePassed, IsFirst, IsLeast};
ghost use Rattle.cluster_levels.specs.Sizes.{AreSizes, IsRefusedSize, size_refusals, sizes_refusals};

use crate::limits::{MOST_LEVELS, MOST_SIZE};
use crate::sizes_error::SizesError;
use std::marker::Model;

/// The most traces that a cluster of each level may have, lowest level first: 1 to 4 sizes, which
/// rise from above 0 to at most [`MOST_SIZE`]. Contracts see it as the list of them.
#[derive(Debug, Drop)]
pub struct Sizes {
    numbers: [u32; MOST_LEVELS],
    levels: u8,
}

impl Model for Sizes {
    ghost use Rattle.std.specs.Prelude.{ℕ, List, take, ◌≤◌};
    ghost use Rattle.cluster_levels.specs.Sizes.{AreSizes};
    ghost use Rattle.cluster_levels.specs.declared.limits.TheConstants.{MOST_LEVELS};

    ghost Value = { List ℕ };

    ghost view = { λ s. take s.levels s.numbers };

    ghost invariant = { λ s. AreSizes (take s.levels s.numbers) × (s.levels ≤ MOST_LEVELS) };
}

impl Sizes {
    /// These sizes, or what is wrong with them: there are none or more than [`MOST_LEVELS`], or the
    /// first that isn't above the one before or is above [`MOST_SIZE`]. It takes no memory.
    pub fn new(list: &[u32]) -> Result<Sizes, SizesError>
        ensures good { OnOk result (ArePassed (sizes_refusals list.now)) }
        ensures sizes { IfOk result (λ sizes. sizes ≡ list.now) }
        ensures err { IfErr result (IsFirst (sizes_refusals list.now)) }
    {
        if list.is_empty() {
            return Err(SizesError::NoLevel);
        }
        if list.len() > MOST_LEVELS {
            return Err(SizesError::TooManyLevels);
        }
        check_sizes(list)?;
        let mut numbers = [0; MOST_LEVELS];
        numbers[..list.len()].copy_from_slice(list);
        Ok(Sizes {
            numbers,
            levels: list.len() as u8,
        })
    }

    /// How many levels have a size, from 1 to [`MOST_LEVELS`].
    pub fn levels(&self) -> u8
        ensures number { result ≡ length self.now }
        ensures sizes { AreSizes self.now }
    {
        self.levels
    }

    /// The most traces that a cluster of this level may have, from 1 to [`MOST_SIZE`].
    pub fn size(&self, level: u8) -> u32
        requires low { 1 ≤ level }
        requires high { level ≤ length self.now }
        ensures number { result ≡ slice_index self.now (level - 1) }
        ensures sizes { AreSizes self.now }
    {
        self.numbers[level as usize - 1]
    }

    /// Equal sizes. It takes no memory.
    pub fn copy(&self) -> Sizes
        ensures { result ≡ self.now }
    {
        Sizes {
            numbers: self.numbers,
            levels: self.levels,
        }
    }

    /// The bound on the look-ups of a question.
    pub fn bound(&self) -> u64
        ensures { result ≡ bound_of self.now }
    {
        bound_from(&self.numbers[..self.levels as usize])
    }
}

/// The bound on look-ups for these sizes.
fn bound_from(sizes: &[u32]) -> u64
    requires { AreSizes sizes.now }
    ensures { result ≡ bound_of sizes.now }
{
    let mut bound = 1;
    let mut left = sizes.len();
    while left > 0 {
        left -= 1;
        bound = 1 + u64::from(sizes[left]) * bound;
    }
    bound
}

/// What is wrong with the first size that is refused, if one is.
fn check_sizes(sizes: &[u32]) -> Result<(), SizesError>
    requires { length sizes.now ≤ MOST_LEVELS }
    ensures good { OnOk result ((i : ℕ) → i < length sizes.now
        → ArePassed (size_refusals sizes.now i)) }
    ensures err { IfErr result (λ error. (i : ℕ)
        × IsLeast (length sizes.now) (IsRefusedSize sizes.now) i
        × IsFirst (size_refusals sizes.now i) error) }
{
    for i in 0..sizes.len() {
        check_size(sizes, i)?;
    }
    Ok(())
}

/// What is wrong with the size at this place, if anything is.
fn check_size(sizes: &[u32], i: usize) -> Result<(), SizesError>
    requires here { i < length sizes.now }
    requires few { length sizes.now ≤ MOST_LEVELS }
    ensures good { OnOk result (ArePassed (size_refusals sizes.now i)) }
    ensures err { IfErr result (IsFirst (size_refusals sizes.now i)) }
{
    let before = if i == 0 { 0 } else { sizes[i - 1] };
    if sizes[i] <= before {
        return Err(SizesError::NotRising(i as u8));
    }
    if sizes[i] > MOST_SIZE {
        return Err(SizesError::TooLarge(i as u8));
    }
    Ok(())
}
