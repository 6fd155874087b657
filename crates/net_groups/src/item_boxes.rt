//! The conductors of a net, each with its item box.

ghost use Rattle.std.specs.Prelude.{◌≡◌, ◌≢◌, false, Some, [], MatchOption};
ghost use Rattle.one_item.specs.ItemParts.{parts_of};
ghost use Rattle.one_item.specs.Extents.{AreBoundsOf};
ghost use Rattle.geo_seg.specs.Boxes.{FitsShape};
ghost use Rattle.board_items.specs.Boards.{item_at};
ghost use Rattle.net_groups.specs.Labels.{is_copper};
ghost use Rattle.net_groups.specs.ItemBoxes.{IsCopperItemBox};

use board_items::{Board, Item};
use geo_seg::Bounds;

/// The conductors of a net: their ids, rising, and for each an item box. Where two of them touch, their item boxes meet. There are boxes
/// around runs of item boxes, or none.
#[derive(Clone, Copy)]
pub(crate) struct Conductors<'a> {
    pub(crate) board: &'a Board,
    pub(crate) ids: &'a [u32],
    pub(crate) item_boxes: &'a [Bounds],
    pub(crate) runs: &'a [Bounds],
}

/// The box that stands for an item without bounds: the point 0.
fn no_item_box() -> Bounds
    ensures { FitsShape result }
{
    Bounds {
        left: 0,
        top: 0,
        right: 0,
        bottom: 0,
    }
}

/// The bounds of an item, or the point 0 where it has none.
fn bounds_of(item: &Item) -> Bounds
    ensures fits { FitsShape result }
    ensures item_box { parts_of item.now ≢ [] → AreBoundsOf (parts_of item.now) (Some result) }
{
    match item.bounds() {
        Some(bounds) => bounds,
        None => no_item_box(),
    }
}

/// The item box of the item of the id: its bounds. None where there is no such item, or it has no copper.
pub(crate) fn copper_item_box(board: &Board, id: u32) -> Option<Bounds>
    ensures { MatchOption result (is_copper (item_at board.now.items id) ≡ false)
        (IsCopperItemBox board.now id) }
{
    match board.get(id) {
        Some(item) if !item.copper.as_slice().is_empty() => Some(bounds_of(item)),
        _ => None,
    }
}
