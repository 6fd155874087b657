//! Lists of names.

ghost use Rattle.std.specs.Prelude.{◌≡◌, IfOk};

use drc_io::Name;
use plain_types::Listed;
use std::alloc::AllocError;

/// A list of names. Contracts see it as the list of them.
pub type Names = Listed<Name>;

/// Equal names. An empty list takes no memory.
pub(crate) fn copy_names(names: &Names) -> Result<Names, AllocError>
    ensures { IfOk result (λ copy. copy ≡ names.now) }
{
    let mut list = Vec::with_capacity(names.allocator(), names.as_slice().len())?;
    for name in names.as_slice() {
        list.push(name.copy()?)?;
    }
    Ok(Listed::of(list))
}
