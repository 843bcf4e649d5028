ghost use Rattle.std.specs.Prelude.{◌≡◌, IfOk, vec_capacity, length};

use std::alloc::{AllocError, Global};

/// A value that a list can copy when it is shared.
pub trait Piece: Sized + Drop {
    /// An equal value.
    fn copy(&self, alloc: Global) -> Result<Self, AllocError>
        ensures { IfOk result (λ piece. piece ≡ self.now) };
}

impl Piece for u32 {
    fn copy(&self, _alloc: Global) -> Result<u32, AllocError> {
        Ok(*self)
    }
}

/// Equal items, in a vector with room for no more.
pub(crate) fn copies<T: Piece>(alloc: Global, items: &[T]) -> Result<Vec<T>, AllocError>
    ensures items { IfOk result (λ copied. copied.items ≡ items.now) }
    ensures full { IfOk result (λ copied. vec_capacity copied ≡ length items.now) }
{
    let mut copied = Vec::with_capacity(alloc, items.len())?;
    for item in items {
        copied.push_reserved(item.copy(alloc)?);
    }
    Ok(copied)
}
