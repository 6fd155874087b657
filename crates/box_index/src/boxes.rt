//! Boxes that meet.

ghost use Rattle.std.specs.Prelude.{◌≡◌, ◌&&◌, int_le};
ghost use Rattle.geo_seg.specs.Boxes.{do_boxes_meet};

use geo_seg::Bounds;

/// Whether some x lies in both boxes.
fn do_share_columns(first: Bounds, second: Bounds) -> bool
    ensures { result ≡ (int_le first.left second.right && int_le second.left first.right) }
{
    first.left <= second.right && second.left <= first.right
}

/// Whether some y lies in both boxes.
fn do_share_rows(first: Bounds, second: Bounds) -> bool
    ensures { result ≡ (int_le first.top second.bottom && int_le second.top first.bottom) }
{
    first.top <= second.bottom && second.top <= first.bottom
}

/// Whether the boxes share a point; their sides belong to them, so touching counts. It takes no memory.
pub fn do_boxes_meet(first: Bounds, second: Bounds) -> bool
    ensures { result ≡ do_boxes_meet first second }
{
    do_share_columns(first, second) && do_share_rows(first, second)
}
