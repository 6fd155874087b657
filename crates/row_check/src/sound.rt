//! What an index says of itself.

ghost use Rattle.box_index.specs.Tiles.{IsSoundIndex};

use box_index::TileIndex;

/// The index is sound. It takes no memory and does nothing: that it lends the entries of a tile says so.
pub fn soundness(index: &TileIndex)
    ensures { IsSoundIndex index.now }
{
    let _ = index.near(0);
}
