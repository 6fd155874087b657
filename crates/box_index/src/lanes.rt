//! Columns, rows and tiles.

ghost use Rattle.std.specs.Prelude.{◌≡◌, ℕ, ℤ, ◌<◌, ◌≤◌, ◌+◌, ◌*◌, ◌≤ℤ◌, pos, neg_ℤ, true, false};
ghost use Rattle.geo_seg.specs.Boxes.{FitsWithin, widened, FitsIndex};
ghost use Rattle.box_index.specs.Tiles.{lane, meets_tile, owner_of, tile_count};
ghost use Rattle.box_index.specs.Areas.{has_tile, end_of};

use crate::area::Area;
use geo_seg::Bounds;

/// Tiles in a row, and rows of tiles.
pub const LANES: usize = 125;

/// All tiles.
pub(crate) const TILES: usize = LANES * LANES;

/// The column of an x, or the row of a y.
pub(crate) fn lane(z: i64) -> usize
    requires from { neg_ℤ (pos 3000000000) ≤ℤ z }
    requires to { z ≤ℤ pos 3000000000 }
    ensures value { result ≡ lane z }
    ensures within { result ≤ 124 }
{
    let from_edge = (z + 1_000_000_000).max(0) as usize;
    (from_edge / 16_000_000).min(LANES - 1)
}

/// The box with each side moved out by the margin.
pub(crate) fn widen(bounds: Bounds, margin: i64) -> Bounds
    requires from { pos 0 ≤ℤ margin }
    requires to { margin ≤ℤ pos 1000000000 }
    requires bounds { FitsIndex bounds }
    ensures wider { result ≡ widened bounds margin }
    ensures fits { FitsWithin (pos 3000000000) result }
{
    Bounds {
        left: bounds.left - margin,
        top: bounds.top - margin,
        right: bounds.right + margin,
        bottom: bounds.bottom + margin,
    }
}

/// The tile that answers for a pair, where the first box is widened by the margin, in half nanometres.
pub(crate) fn owner(margin: i64, first: Bounds, second: Bounds) -> usize
    requires from { pos 0 ≤ℤ margin }
    requires to { margin ≤ℤ pos 1000000000 }
    requires first { FitsIndex first }
    requires second { FitsIndex second }
    ensures value { result ≡ owner_of margin first second }
    ensures within { result < tile_count }
{
    let wide = widen(first, margin);
    let column = lane(wide.left.max(second.left));
    let row = lane(wide.top.max(second.top));
    row * LANES + column
}

impl Area {
    /// The tiles that are met by the box, where it is widened by the margin, in half nanometres.
    pub(crate) fn around(margin: i64, bounds: Bounds) -> Area
        requires from { pos 0 ≤ℤ margin }
        requires to { margin ≤ℤ pos 1000000000 }
        requires bounds { FitsIndex bounds }
        ensures { (tile : ℕ) → has_tile result tile ≡ meets_tile (widened bounds margin) tile }
    {
        let wide = widen(bounds, margin);
        Area {
            left: lane(wide.left),
            top: lane(wide.top),
            right: lane(wide.right),
            bottom: lane(wide.bottom),
        }
    }

    /// The first tile.
    pub fn first(self) -> usize
        ensures inside { has_tile self result ≡ true }
        ensures before { result < end_of self }
        ensures none_before { (tile : ℕ) → tile < result → has_tile self tile ≡ false }
    {
        self.top * LANES + self.left
    }

    /// One above the last tile.
    pub fn end(self) -> usize
        ensures value { result ≡ end_of self }
        ensures within { result ≤ tile_count }
        ensures none_after { (tile : ℕ) → result ≤ tile → has_tile self tile ≡ false }
    {
        self.bottom * LANES + self.right + 1
    }

    /// The next tile, or one that is not below the end.
    pub fn after(self, tile: usize) -> usize
        requires { has_tile self tile ≡ true }
        ensures rises { tile < result }
        ensures none_between { (other : ℕ) → tile < other → other < result
            → has_tile self other ≡ false }
        ensures inside { result < end_of self → has_tile self result ≡ true }
    {
        if tile % LANES < self.right {
            tile + 1
        } else {
            (tile / LANES + 1) * LANES + self.left
        }
    }
}
