ghost use Rattle.std.specs.Prelude.{◌≡◌, ◌↔◌, ◌≤◌, ◌∷◌, [], ℕ, List, map, string_bytes, IsTrue, IfSome, IfNone};
ghost use Rattle.command_line.specs.declared.limits.TheConstants.{MOST_AFTER};
ghost use Rattle.command_line.specs.Options.{IsAfter, TakesAfter, TakesLevels};

use crate::limits::MOST_AFTER;
use crate::size_list::sizes_of;
use crate::words::{behind_word, first_of};
use causal_base::number_of;
use cluster_levels::Sizes;

/// The sizes of the levels, and the words behind them.
pub fn take_levels(words: &[String]) -> Option<(Sizes, &[String])>
    ensures some { IfSome result (λ taken. TakesLevels (map string_bytes words.now)
        (map string_bytes taken.1.now) taken.0) }
    ensures none { IfNone result ((rest : List (List ℕ)) (sizes : List ℕ)
        → TakesLevels (map string_bytes words.now) rest sizes → ⊥) }
{
    let Some(behind) = behind_word(words, "--levels") else {
        return Some((default_sizes(), words));
    };
    let (list, rest) = first_of(behind)?;
    let sizes = sizes_of(list.as_bytes())?;
    Some((sizes, rest))
}

/// The sizes of the levels where the words name none.
fn default_sizes() -> Sizes
    ensures { result ≡ 8 ∷ 32 ∷ [] }
{
    match Sizes::new(&[8, 32]) {
        Ok(sizes) => sizes,
        Err(_) => unreachable!(),
    }
}

/// The number of the communication from which on clusters may merge, and the words behind it.
pub fn take_after(words: &[String]) -> Option<(u32, &[String])>
    ensures some { IfSome result (λ taken. TakesAfter (map string_bytes words.now)
        (map string_bytes taken.1.now) taken.0) }
    ensures none { IfNone result ((rest : List (List ℕ)) (after : ℕ)
        → TakesAfter (map string_bytes words.now) rest after → ⊥) }
{
    let Some(behind) = behind_word(words, "--after") else {
        return Some((1, words));
    };
    let (number, rest) = first_of(behind)?;
    let after = after_in(number.as_bytes())?;
    Some((after, rest))
}

/// The number that a text spells, from 1 to [`MOST_AFTER`].
fn after_in(text: &[u8]) -> Option<u32>
    ensures some { IfSome result (IsAfter text.now) }
    ensures none { IfNone result ((after : ℕ) → IsAfter text.now after → ⊥) }
{
    let after = number_of(text)?;
    if !is_after(after) {
        return None;
    }
    Some(after as u32)
}

/// Whether it is a number from 1 to [`MOST_AFTER`].
fn is_after(number: u64) -> bool
    ensures { IsTrue result ↔ ((1 ≤ number) × (number ≤ MOST_AFTER)) }
{
    number >= 1 && number <= u64::from(MOST_AFTER)
}
