//! Labels of groups.

ghost use Rattle.std.specs.Prelude.{◌≡◌, ◌<◌, ℕ, length, IfOk, slice_index_or};

use std::alloc::{AllocError, Global};

/// Each group has a label of its own.
pub(crate) fn own_labels(alloc: Global, count: usize) -> Result<Vec<usize>, AllocError>
    ensures count { IfOk result (λ v. length v.items ≡ count) }
    ensures own { IfOk result (λ v. (g : ℕ) → g < length v.items → slice_index_or v.items g 0 ≡ g) }
{
    let mut labels = Vec::new(alloc);
    for g in 0..count {
        labels.push(g)?;
    }
    Ok(labels)
}
