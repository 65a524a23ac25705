//! Copies of lists.
ghost use Rattle.std.specs.Prelude.{◌≡◌, ◌≤◌, IfOk, vec_capacity};

use std::alloc::{AllocError, Global};

/// The same items again, with room for so many.
pub(crate) fn copy_of<T: Copy>(
    alloc: Global,
    items: &[T],
    room: usize,
) -> Result<Vec<T>, AllocError>
    ensures same { IfOk result (λ copy. copy.items ≡ items.now) }
    ensures room { IfOk result (λ copy. room ≤ vec_capacity copy) }
{
    let mut copy = Vec::with_capacity(alloc, room)?;
    copy.extend_from_slice(items)?;
    Ok(copy)
}
