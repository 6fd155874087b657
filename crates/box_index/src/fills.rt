//! A value for each tile.

ghost use Rattle.std.specs.Prelude.{IfOk};
ghost use Rattle.box_index.specs.Tiles.{tile_count};
ghost use Rattle.box_index.specs.AreaWalks.{IsFilled};

use crate::lanes::{LANES, TILES};
use std::alloc::{AllocError, Global};

/// A vector that holds the value for each tile. It is filled row by row.
pub(crate) fn filled<T: Copy>(alloc: Global, value: T) -> Result<Vec<T>, AllocError>
    ensures { IfOk result (λ values. IsFilled tile_count value values.items) }
{
    let row = [value; LANES];
    let mut values = Vec::with_capacity(alloc, TILES)?;
    for _ in 0..LANES {
        values.extend_from_slice(&row)?;
    }
    Ok(values)
}
