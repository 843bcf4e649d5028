ghost use Rattle.std.specs.Prelude.{◌≡◌, ◌∷◌, ◌≤◌, [], ℕ, List, IfSome, IfNone, option_copied, codes, decimal};
ghost use Rattle.std.specs.List.{join_by};
ghost use Rattle.cluster_levels.specs.declared.limits.TheConstants.{MOST_SIZE};
ghost use Rattle.command_line.specs.SizeLists.{IsSizeList};
ghost use Rattle.command_line.specs.ListParts.{IsListPart, IsNextSize};

use causal_base::{number_of, split_once};
use cluster_levels::{MOST_LEVELS, MOST_SIZE, Sizes};

/// The sizes that a text lists with commas between them.
pub fn sizes_of(text: &[u8]) -> Option<Sizes>
    ensures some { IfSome result (IsSizeList text.now) }
    ensures none { IfNone result ((sizes : List ℕ) → IsSizeList text.now sizes → ⊥) }
{
    let mut numbers = [0; MOST_LEVELS];
    let mut rest = text;
    for level in 0..MOST_LEVELS {
        let (size, behind) = next_size(rest)?;
        numbers[level] = size;
        let Some(more) = behind else {
            return Sizes::new(&numbers[..level + 1]).ok();
        };
        rest = more;
    }
    None
}

/// The first size of a list, and what stands behind the comma after it, if there is one.
fn next_size(text: &[u8]) -> Option<(u32, Option<&[u8]>)>
    ensures some { IfSome result (λ next. IsNextSize text.now next.0 (option_copied next.1)) }
    ensures none { IfNone result ((size : ℕ) (others : List ℕ) → size ≤ MOST_SIZE
        → text.now ≡ join_by decimal (codes ",") (size ∷ others) → ⊥) }
{
    let (digits, behind) = first_part(text);
    let size = number_of(digits)?;
    if size > u64::from(MOST_SIZE) {
        return None;
    }
    Some((size as u32, behind))
}

/// What stands before the first comma, and what stands behind it, if there is one.
fn first_part(text: &[u8]) -> (&[u8], Option<&[u8]>)
    ensures { IsListPart text.now result.0.now (option_copied result.1) }
{
    match split_once(text, b',') {
        Some((part, more)) => (part, Some(more)),
        None => (text, None),
    }
}
