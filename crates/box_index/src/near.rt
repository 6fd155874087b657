//! The ids of the entries near a box.

ghost use Rattle.std.specs.Prelude.{OnOk};
ghost use Rattle.geo_seg.specs.Boxes.{FitsIndex};
ghost use Rattle.box_index.specs.Tiles.{near_of};
ghost use Rattle.box_index.specs.Reached.{BeginsWith, HasReached, AreSorted};

use crate::boxes::do_boxes_meet;
use crate::index::TileIndex;
use geo_seg::Bounds;
use std::alloc::AllocError;

/// Appends the ids of a tile's entries whose boxes meet this one.
fn push_tile(
    index: &TileIndex,
    tile: u32,
    bounds: Bounds,
    ids: &mut Vec<u32>,
) -> Result<(), AllocError>
    ensures reached { OnOk result (HasReached bounds
        (near_of index.now tile) ids.old.items ids.new.items) }
    ensures prefix { BeginsWith ids.old.items ids.new.items }
{
    for entry in index.near(tile) {
        if do_boxes_meet(bounds, entry.bounds) {
            ids.push(entry.id)?;
        }
    }
    Ok(())
}

/// Appends the ids of all entries whose boxes meet this one, also by touching; the reach is of no matter. An id comes once for
/// each tile that both meet: `put_in_order` leaves each once. Only running out of memory fails it, and some ids are then missing. What was
/// in the list stays at its front, also then.
pub fn push_ids_near(
    index: &TileIndex,
    bounds: Bounds,
    ids: &mut Vec<u32>,
) -> Result<(), AllocError>
    requires { FitsIndex bounds }
    ensures reached { OnOk result
        (HasReached bounds index.now.entries ids.old.items ids.new.items) }
    ensures prefix { BeginsWith ids.old.items ids.new.items }
{
    let area = index.area(bounds);
    let end = area.end();
    let mut tile = area.first();
    'tiles: while tile < end {
        push_tile(index, tile as u32, bounds, ids)?;
        tile = area.after(tile);
    }
    Ok(())
}

/// Puts ids in order, each once. It takes no memory.
pub fn put_in_order(ids: &mut Vec<u32>)
    ensures { AreSorted ids.old.items ids.new.items }
{
    ids.sort_unstable();
    ids.dedup();
}
