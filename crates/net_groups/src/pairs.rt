//! Which pairs are asked for in a tile, so that each is asked once.

ghost use Rattle.std.specs.Prelude.{◌≡◌};
ghost use Rattle.geo_seg.specs.Boxes.{FitsIndex};
ghost use Rattle.box_index.specs.Tiles.{margin};
ghost use Rattle.net_groups.specs.Asking.{tile_for, is_asked};

use box_index::{Entry, TileIndex, do_boxes_meet};

/// The tile that answers for two entries.
fn tile_for(index: &TileIndex, own: Entry, other: Entry) -> u32
    requires own { FitsIndex own.bounds }
    requires other { FitsIndex other.bounds }
    ensures { result ≡ tile_for (margin index.now) own other }
{
    if own.id < other.id {
        index.owner(own.bounds, other.bounds)
    } else {
        index.owner(other.bounds, own.bounds)
    }
}

/// Whether the bounds of the two meet and the tile answers for them. It takes no memory.
pub(crate) fn is_asked(index: &TileIndex, tile: u32, own: Entry, other: Entry) -> bool
    requires own { FitsIndex own.bounds }
    requires other { FitsIndex other.bounds }
    ensures { result ≡ is_asked (margin index.now) tile own other }
{
    do_boxes_meet(own.bounds, other.bounds) && tile_for(index, own, other) == tile
}
