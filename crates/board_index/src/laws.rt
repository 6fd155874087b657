//! Laws of the tiles that hold an item. The functions do nothing: each clause holds for all boards.

ghost use Rattle.std.specs.Prelude.{◌≡◌, ℕ, ℤ, List, true};
ghost use Rattle.geo_seg.specs.declared.boxes.Bounds.{Bounds};
ghost use Rattle.board_items.specs.Boards.{PlainBoard};
ghost use Rattle.box_index.specs.Tiles.{PlainIndex, held_of, dirty_of};
ghost use Rattle.board_index.specs.IndexedItems.{IsIndexOfItems};
ghost use Rattle.board_index.specs.TilesHeld.{AreTilesHeld};

/// The tiles that an index of a board's items holds, and all its dirty tiles, are those that hold an item of the board.
pub fn tiles_held()
    ensures held { (board : PlainBoard) (index : PlainIndex) → IsIndexOfItems board index →
        AreTilesHeld board index.reach (held_of index) }
    ensures dirty { (board : PlainBoard) (index : PlainIndex) (boxes : List Bounds)
        → IsIndexOfItems board index
        → AreTilesHeld board index.reach (dirty_of index boxes true) }
{}

/// A board and a reach have one list of tiles that hold an item.
pub fn one_list_of_tiles()
    ensures { (board : PlainBoard) (reach : ℤ) (tiles others : List ℕ)
        → AreTilesHeld board reach tiles →
        AreTilesHeld board reach others → tiles ≡ others }
{}
