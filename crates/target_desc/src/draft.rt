ghost use Rattle.std.specs.Prelude.{◌≡◌, ◌≢◌, ◌↔◌, ◌⊎◌, ◌≤◌, ◌<◌, ℕ, length, map, Some, IsTrue, IsSome, IfOk, IfErr, OnOk, IfSome, IfNone, codes, option_and_then};
ghost use Rattle.std.specs.Option.{option_map};
ghost use Rattle.causal_base.specs.TypeTables.{kind_of_mate};
ghost use Rattle.target_desc.specs.Drafts.{IsNamed, HasItsMate, IsDraftOf, AreDraftsOf, draft_name};
ghost use Rattle.target_desc.specs.Entries.{kind_word, HasKind, NeedsMate, HasStrayMate, entry_refusals, type_refusals};
ghost use Rattle.causal_base.specs.Refusals.{ArePassed, IsFirst};
ghost use Rattle.toml.specs.Data.{as_str, get};
ghost use Rattle.target_desc.specs.Document.{mate_field};
ghost use Rattle.toml.specs.View.{view};

use crate::fields::{count_told, has_field, text_field};
use crate::target_error::TargetError;
use causal_base::{Kind, MOST_TYPES, Text, is_name};
use std::alloc::{AllocError, Global};
use toml::Value;

/// One entry for a type, before its mate is known by its number.
#[derive(Debug, Drop)]
pub struct Draft {
    pub name: Text,
    pub kind: Kind,
    pub mate: Option<Text>,
}

/// The entries for types, or what is wrong with the first that isn't good alone.
pub fn drafts_of(alloc: Global, entries: &[Value]) -> Result<Vec<Draft>, TargetError>
    ensures some { OnOk result (1 ≤ length entries.now) }
    ensures most { OnOk result (length entries.now ≤ MOST_TYPES) }
    ensures all { IfOk result (λ drafts. length drafts.items ≡ length entries.now) }
    ensures drafts { IfOk result (λ drafts. AreDraftsOf (map view entries.now) drafts.items) }
    ensures err { IfErr result (λ error. (error ≡ TargetError.Oom)
        ⊎ IsFirst (type_refusals (map view entries.now)) error) }
{
    if entries.is_empty() {
        return Err(TargetError::NoTypes);
    }
    if entries.len() > MOST_TYPES {
        return Err(TargetError::TooManyTypes(count_told(entries.len())));
    }
    let mut drafts = Vec::new(alloc);
    for place in 0..entries.len() {
        let draft = draft_of(alloc, entries, place, &drafts)?;
        if drafts.push(draft).is_err() {
            return Err(TargetError::Oom);
        }
    }
    Ok(drafts)
}

/// What the entry at this place says, or the first thing that is wrong with it beside the earlier
/// ones.
fn draft_of(
    alloc: Global,
    entries: &[Value],
    place: usize,
    earlier: &[Draft],
) -> Result<Draft, TargetError>
    requires here { place < length entries.now }
    requires few { length entries.now ≤ MOST_TYPES }
    requires count { length earlier.now ≡ place }
    requires drafts { AreDraftsOf (map view entries.now) earlier.now }
    ensures good { OnOk result (ArePassed (entry_refusals (map view entries.now) place)) }
    ensures says { IfOk result (IsDraftOf (map view entries.now) place) }
    ensures err { IfErr result (λ error. (error ≡ TargetError.Oom)
        ⊎ IsFirst (entry_refusals (map view entries.now) place) error) }
{
    let name = new_name(entries, place, earlier)?;
    let Some(kind) = kind_in(&entries[place]) else {
        return Err(TargetError::BadKind(place as u32));
    };
    let mate = own_mate(entries, place, kind)?;
    match owned(alloc, name, kind, mate) {
        Ok(draft) => Ok(draft),
        Err(_) => Err(TargetError::Oom),
    }
}

/// The name of the entry at this place, or what is wrong with it beside the earlier ones.
fn new_name<'a>(
    entries: &'a [Value],
    place: usize,
    earlier: &[Draft],
) -> Result<&'a str, TargetError>
    requires here { place < length entries.now }
    requires few { length entries.now ≤ MOST_TYPES }
    requires count { length earlier.now ≡ place }
    requires drafts { AreDraftsOf (map view entries.now) earlier.now }
    ensures named { IfOk result (λ name. IsNamed (map view entries.now) place name.now) }
    ensures err { IfErr result (IsFirst (entry_refusals (map view entries.now) place)) }
{
    let Some(name) = text_field(&entries[place], "name") else {
        return Err(TargetError::BadType(place as u32));
    };
    if !is_name(name.as_bytes()) {
        return Err(TargetError::BadType(place as u32));
    }
    match place_of(earlier, name.as_bytes()) {
        Some(_) => Err(TargetError::TwiceType(place as u32)),
        None => Ok(name),
    }
}

/// The mate of the entry at this place, which is of this kind, or that it lacks one or has one that
/// it shouldn't.
fn own_mate(entries: &[Value], place: usize, kind: Kind) -> Result<Option<&str>, TargetError>
    requires here { place < length entries.now }
    requires few { length entries.now ≤ MOST_TYPES }
    requires kind { HasKind (map view entries.now) place kind }
    ensures its { OnOk result (HasItsMate (map view entries.now) place kind) }
    ensures mate { IfOk result (λ mate. mate_field (map view entries.now) place ≡ option_map
        (λ text. text.now) mate) }
    ensures err { IfErr result (λ error. (NeedsMate (map view entries.now) place
        × (error ≡ TargetError.MateNeeded place))
        ⊎ (HasStrayMate (map view entries.now) place × (error ≡ TargetError.MateGiven place))) }
{
    let entry = &entries[place];
    if !kind.mates() {
        return if has_field(entry, "mate") {
            Err(TargetError::MateGiven(place as u32))
        } else {
            Ok(None)
        };
    }
    match text_field(entry, "mate") {
        Some(mate) => Ok(Some(mate)),
        None => Err(TargetError::MateNeeded(place as u32)),
    }
}

/// A draft with copies of these texts.
fn owned(alloc: Global, name: &str, kind: Kind, mate: Option<&str>) -> Result<Draft, AllocError>
    ensures { IfOk result (λ draft. draft ≡ record
        { name = name.now; kind = kind; mate = option_map (λ text. text.now) mate.entry }) }
{
    let name = Text::new(alloc, name.as_bytes())?;
    let mate = match mate {
        Some(mate) => Some(Text::new(alloc, mate.as_bytes())?),
        None => None,
    };
    Ok(Draft { name, kind, mate })
}

/// The place of the first entry with this name, if there is one.
pub fn place_of(drafts: &[Draft], name: &[u8]) -> Option<u8>
    requires { length drafts.now ≤ MOST_TYPES }
    ensures named { IfSome result (λ place. draft_name drafts.now place ≡ Some name.now) }
    ensures first { IfSome result (λ place. (j : ℕ) → j < place
        → draft_name drafts.now j ≢ Some name.now) }
    ensures none { IfNone result ((j : ℕ) → draft_name drafts.now j ≢ Some name.now) }
{
    for (place, draft) in drafts.iter().enumerate() {
        if draft.name.bytes() == name {
            return Some(place as u8);
        }
    }
    None
}

/// The kind that an entry names, if it names one.
fn kind_in(entry: &Value) -> Option<Kind>
    ensures some { IfSome result (λ kind. option_and_then as_str
        (get (codes "kind") (view entry.now)) ≡ Some (kind_word kind)) }
    ensures none { IfNone result ((kind : Kind)
        → option_and_then as_str (get (codes "kind") (view entry.now)) ≢ Some (kind_word kind)) }
{
    match text_field(entry, "kind") {
        Some("unary") => Some(Kind::Unary),
        Some("send") => Some(Kind::Send),
        Some("receive") => Some(Kind::Receive),
        Some("sync") => Some(Kind::Sync),
        Some("watch") => Some(Kind::Watch),
        _ => None,
    }
}
