ghost use Rattle.std.specs.Prelude.{◌≡◌, ◌↔◌, ◌≤◌, ℕ, length, Some, IsTrue, IfErr, OnOk, IfSome, IfNone};
ghost use Rattle.causal_base.specs.TypeTables.{kind_of_mate};
ghost use Rattle.target_desc.specs.Drafts.{AreDistinct, MateIsUnknown, MateIsNotMutual, MatesAgree, HasAt, mate_refusals};
ghost use Rattle.causal_base.specs.Refusals.{IsFirst, IsLeast};

use crate::draft::{Draft, place_of};
use crate::target_error::TargetError;
use causal_base::MOST_TYPES;

/// Refuses the first entry whose mate is no entry's name, and then the first that isn't its mate's
/// mate.
pub fn check_mates(drafts: &[Draft]) -> Result<(), TargetError>
    requires few { length drafts.now ≤ MOST_TYPES }
    requires distinct { AreDistinct drafts.now }
    ensures good { OnOk result (MatesAgree drafts.now) }
    ensures err { IfErr result (IsFirst (mate_refusals drafts.now)) }
{
    if let Some(place) = first_unknown_mate(drafts) {
        return Err(TargetError::MateUnknown(place));
    }
    match first_unmutual_mate(drafts) {
        Some(place) => Err(TargetError::MateNotMutual(place)),
        None => Ok(()),
    }
}

/// The first entry whose mate is no entry's name.
fn first_unknown_mate(drafts: &[Draft]) -> Option<u32>
    requires { length drafts.now ≤ MOST_TYPES }
    ensures found { IfSome result (IsLeast (length drafts.now)
        (HasAt (MateIsUnknown drafts.now) drafts.now)) }
    ensures none { IfNone result ((i : ℕ) → HasAt (MateIsUnknown drafts.now) drafts.now i → ⊥) }
{
    for (place, draft) in drafts.iter().enumerate() {
        if has_unknown_mate(drafts, draft) {
            return Some(place as u32);
        }
    }
    None
}

/// The first entry with a mate that isn't its mate's mate.
fn first_unmutual_mate(drafts: &[Draft]) -> Option<u32>
    requires few { length drafts.now ≤ MOST_TYPES }
    requires distinct { AreDistinct drafts.now }
    ensures found { IfSome result (IsLeast (length drafts.now)
        (HasAt (MateIsNotMutual drafts.now) drafts.now)) }
    ensures none { IfNone result ((i : ℕ) → HasAt (MateIsNotMutual drafts.now) drafts.now i → ⊥) }
{
    for (place, draft) in drafts.iter().enumerate() {
        if has_no_mutual_mate(drafts, draft) {
            return Some(place as u32);
        }
    }
    None
}

/// Whether the entry has a mate that is no entry's name.
fn has_unknown_mate(drafts: &[Draft], draft: &Draft) -> bool
    requires { length drafts.now ≤ MOST_TYPES }
    ensures { IsTrue result ↔ MateIsUnknown drafts.now draft.now }
{
    match &draft.mate {
        Some(mate) => place_of(drafts, mate.bytes()).is_none(),
        None => false,
    }
}

/// Whether the entry has a mate, and isn't the mate of one of the kind that its own mates with.
fn has_no_mutual_mate(drafts: &[Draft], draft: &Draft) -> bool
    requires few { length drafts.now ≤ MOST_TYPES }
    requires distinct { AreDistinct drafts.now }
    ensures { IsTrue result ↔ MateIsNotMutual drafts.now draft.now }
{
    let Some(mate) = &draft.mate else {
        return false;
    };
    match place_of(drafts, mate.bytes()) {
        Some(place) => !are_mutual(draft, &drafts[place as usize]),
        None => true,
    }
}

/// Whether the second entry has the first as its mate, and is of the kind that the first one's
/// mates with.
fn are_mutual(draft: &Draft, its: &Draft) -> bool
    ensures { IsTrue result ↔ ((its.now.mate ≡ Some draft.now.name)
        × (kind_of_mate draft.now.kind ≡ Some its.now.kind)) }
{
    match &its.mate {
        Some(mate) => mate.bytes() == draft.name.bytes()
            && draft.kind.kind_of_mate() == Some(its.kind),
        None => false,
    }
}
