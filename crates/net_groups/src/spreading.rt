//! Item boxes of one net, spread over all tiles of an index of their own.

ghost use Rattle.std.specs.Prelude.{◌≡◌, ◌<◌, ◌^◌, ◌≤ℤ◌, pos, neg_ℤ, All, IfOk, length};
ghost use Rattle.geo_seg.specs.Boxes.{FitsShape};
ghost use Rattle.net_groups.specs.ItemBoxes.{AreSpread, HoldsItemBoxes};
ghost use Rattle.net_groups.specs.Stretches.{stretched};

use crate::stretch::Stretch;
use box_index::TileIndex;
use geo_seg::Bounds;
use std::alloc::{AllocError, Global};
use std::num::{nearest_i64_to_f64, saturating_f64_to_u32};

/// The least box around all item boxes, or one that is empty.
fn around(item_boxes: &[Bounds]) -> Bounds {
    let mut all = Bounds {
        left: 1_500_000_000,
        top: 1_500_000_000,
        right: -1_500_000_000,
        bottom: -1_500_000_000,
    };
    for item_box in item_boxes {
        all = Bounds {
            left: all.left.min(item_box.left),
            top: all.top.min(item_box.top),
            right: all.right.max(item_box.right),
            bottom: all.bottom.max(item_box.bottom),
        };
    }
    all
}

/// About the middle of a range.
fn middle(low: i64, high: i64) -> i64
    ensures from { neg_ℤ (pos 1500000000) ≤ℤ result }
    ensures to { result ≤ℤ pos 1500000000 }
{
    (low.saturating_add(high) / 2)
        .min(1_500_000_000)
        .max(-1_500_000_000)
}

/// About the longer side of an item box, in thousandths of a tile: the root of the mean of the squares.
fn side_of(item_boxes: &[Bounds]) -> i64 {
    let mut sum: i64 = 0;
    for item_box in item_boxes {
        let wide = item_box.right.saturating_sub(item_box.left);
        let high = item_box.bottom.saturating_sub(item_box.top);
        let side = wide.max(high) / 16_000;
        sum = sum.saturating_add(side.saturating_mul(side));
    }
    let mean = sum / (item_boxes.len() as i64).max(1);
    i64::from(saturating_f64_to_u32(nearest_i64_to_f64(mean).sqrt()))
}

/// How often a box of this size goes into the tiles, where an item box of this side, in thousandths of a tile, gets no larger than a tile,
/// so that item boxes lie in a few tiles each.
fn item_box_for(size: i64, side: i64) -> i64 {
    (2_000_000_000 / size.max(1)).min(1_000 / side.max(1))
}

/// How often a box of this size is stretched, from 1 to 1,000 times, so that item boxes of this side, in thousandths of a tile, lie in a
/// few tiles each.
fn times_in(size: i64, side: i64) -> i64
    ensures from { pos 1 ≤ℤ result }
    ensures to { result ≤ℤ pos 1000 }
{
    item_box_for(size, side).min(1_000).max(1)
}

/// What spreads the item boxes over the tiles.
fn stretch_for(item_boxes: &[Bounds]) -> Stretch {
    let all = around(item_boxes);
    let wide = all.right.saturating_sub(all.left);
    let high = all.bottom.saturating_sub(all.top);
    Stretch {
        x: middle(all.left, all.right),
        y: middle(all.top, all.bottom),
        times: times_in(wide.max(high), side_of(item_boxes)),
    }
}

/// An item box that was moved and stretched, but not farther than to the edge.
fn stretched(stretch: Stretch, item_box: Bounds) -> Bounds
    requires { FitsShape item_box }
    ensures { result ≡ stretched stretch item_box }
{
    Bounds {
        left: (stretch.times * (item_box.left - stretch.x))
            .min(1_500_000_000)
            .max(-1_500_000_000),
        top: (stretch.times * (item_box.top - stretch.y))
            .min(1_500_000_000)
            .max(-1_500_000_000),
        right: (stretch.times * (item_box.right - stretch.x))
            .min(1_500_000_000)
            .max(-1_500_000_000),
        bottom: (stretch.times * (item_box.bottom - stretch.y))
            .min(1_500_000_000)
            .max(-1_500_000_000),
    }
}

fn stretch_all(
    alloc: Global,
    stretch: Stretch,
    item_boxes: &[Bounds],
) -> Result<Vec<Bounds>, AllocError>
    requires { All (λ item_box. FitsShape item_box) item_boxes.now }
    ensures { IfOk result (λ wide. AreSpread item_boxes.now wide.items) }
{
    let mut wide = Vec::with_capacity(alloc, item_boxes.len())?;
    for item_box in item_boxes {
        wide.push(stretched(stretch, *item_box))?;
    }
    Ok(wide)
}

/// The item boxes, moved and stretched so that they lie in as many tiles as may be. Those that met still do.
pub(crate) fn spread_out(alloc: Global, item_boxes: &[Bounds]) -> Result<Vec<Bounds>, AllocError>
    requires { All (λ item_box. FitsShape item_box) item_boxes.now }
    ensures { IfOk result (λ wide. AreSpread item_boxes.now wide.items) }
{
    stretch_all(alloc, stretch_for(item_boxes), item_boxes)
}

/// An index of the item boxes by their places.
pub(crate) fn index_of(alloc: Global, item_boxes: &[Bounds]) -> Result<TileIndex, AllocError>
    requires few { length item_boxes.now < 2 ^ 32 }
    requires fit { All (λ item_box. FitsShape item_box) item_boxes.now }
    ensures { IfOk result (HoldsItemBoxes item_boxes.now) }
{
    let mut index = TileIndex::new(alloc, 0)?;
    for place in 0..item_boxes.len() {
        index.insert(place as u32, item_boxes[place])?;
    }
    Ok(index)
}
