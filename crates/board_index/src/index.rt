//! The index of a board's items.

ghost use Rattle.std.specs.Prelude.{◌≡◌, ◌≤ℤ◌, pos, IfOk};
ghost use Rattle.plain_types.specs.Lengths.{greatest};
ghost use Rattle.board_index.specs.IndexedItems.{IsIndexOfItems};

use board_items::{Board, Nm};
use box_index::TileIndex;
use std::alloc::{AllocError, Global};

/// The items of the board that have bounds, under their bounds. The reach, from 0 to 500,000,000 nanometres, is by how much
/// each side of a box is moved out before it is asked which tiles it meets. Only running out of memory refuses it.
pub fn index_of(alloc: Global, board: &Board, reach: Nm) -> Result<TileIndex, AllocError>
    requires from { pos 0 ≤ℤ reach }
    requires to { reach ≤ℤ greatest }
    ensures items { IfOk result (IsIndexOfItems board.now) }
    ensures reach { IfOk result (λ index. index.reach ≡ reach) }
{
    let mut index = TileIndex::new(alloc, reach)?;
    for (id, item) in board.iter() {
        if let Some(bounds) = item.bounds() {
            index.insert(id, bounds)?;
        }
    }
    Ok(index)
}
