//! Whether a board has room for the items of a list that is read.

ghost use Rattle.std.specs.Prelude.{◌≡◌};
ghost use Rattle.part_read.specs.Capacity.{has_capacity_after};

use board_items::Board;

/// Whether the board has room for an item more after so many, and the unit has a number.
pub fn has_capacity_after(items: usize, board: &Board, unit: u32) -> bool
    ensures { result ≡ has_capacity_after items board.now unit }
{
    items < board.left() as usize && unit < u32::MAX
}
