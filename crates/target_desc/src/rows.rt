ghost use Rattle.std.specs.Prelude.{◌≡◌, ◌≤◌, ℕ, Option, length, map, vec_len, IfOk};
ghost use Rattle.std.specs.List.{zip};
ghost use Rattle.target_desc.specs.declared.draft.Draft as declared;
ghost use Rattle.target_desc.specs.Drafts.{IsMateNumber, AreMateNumbers, AreRowsOf};

use crate::draft::{Draft, place_of};
use causal_base::{MOST_TYPES, TypeRow};
use std::alloc::{AllocError, Global};

/// The types that the entries say, with the number of each one's mate.
pub fn rows_of(alloc: Global, drafts: Vec<Draft>) -> Result<Vec<TypeRow>, AllocError>
    requires { vec_len drafts ≤ MOST_TYPES }
    ensures { IfOk result (λ rows. AreRowsOf drafts.items rows.items) }
{
    let mates = mates_of(alloc, &drafts)?;
    numbered(alloc, drafts, mates)
}

/// The number of each entry's mate.
fn mates_of(alloc: Global, drafts: &[Draft]) -> Result<Vec<Option<u8>>, AllocError>
    requires { length drafts.now ≤ MOST_TYPES }
    ensures { IfOk result (λ mates. AreMateNumbers drafts.now mates.items) }
{
    let mut mates = Vec::with_capacity(alloc, drafts.len())?;
    for draft in drafts {
        mates.push(mate_of(drafts, draft))?;
    }
    Ok(mates)
}

/// The number of the type that an entry's mates with, if it has a mate.
fn mate_of(drafts: &[Draft], draft: &Draft) -> Option<u8>
    requires { length drafts.now ≤ MOST_TYPES }
    ensures { IsMateNumber drafts.now draft.now result }
{
    match &draft.mate {
        Some(mate) => place_of(drafts, mate.bytes()),
        None => None,
    }
}

/// The types with these mates.
fn numbered(
    alloc: Global,
    drafts: Vec<Draft>,
    mates: Vec<Option<u8>>,
) -> Result<Vec<TypeRow>, AllocError>
    ensures { IfOk result (λ rows. rows.items ≡ map
        (λ (pair : declared.Draft × Option ℕ). record
        { name = pair.0.name; kind = pair.0.kind; mate = pair.1 }) (zip drafts.items mates.items)) }
{
    drafts
        .into_iter()
        .zip(mates)
        .map(|(draft, mate)| TypeRow {
            name: draft.name,
            kind: draft.kind,
            mate,
        })
        .collect(alloc)
}
