//! Areas within areas.

ghost use Rattle.std.specs.Prelude.{◌≡◌, ℕ, ◌<◌, true};
ghost use Rattle.box_index.specs.Tiles.{tile_count};
ghost use Rattle.box_index.specs.Areas.{has_tile, IsSubarea};

use crate::area::Area;
use crate::lanes::LANES;

/// Of an area of so many tiles each has a list of its own: most boxes are so small, and a tile that shares its list pays for a copy
/// when an entry comes that is its own.
const FEW: usize = 16;

impl Area {
    /// All tiles.
    pub(crate) fn all() -> Area
        ensures { (tile : ℕ) → tile < tile_count → has_tile result tile ≡ true }
    {
        Area {
            left: 0,
            top: 0,
            right: LANES - 1,
            bottom: LANES - 1,
        }
    }

    /// Whether the tile is one of them.
    pub(crate) fn has(self, tile: usize) -> bool
        ensures { result ≡ has_tile self tile }
    {
        let column = tile % LANES;
        let row = tile / LANES;
        self.left <= column && column <= self.right && self.top <= row && row <= self.bottom
    }

    /// Whether each of its tiles is one of the other's.
    pub(crate) fn lies_in(self, other: Area) -> bool
        ensures { result ≡ true → IsSubarea self other }
    {
        other.left <= self.left
            && self.right <= other.right
            && other.top <= self.top
            && self.bottom <= other.bottom
    }

    /// Whether it has more than a few tiles.
    pub(crate) fn is_wide(self) -> bool {
        let columns = self.right - self.left + 1;
        let rows = self.bottom - self.top + 1;
        columns * rows > FEW
    }

    /// The tile alone.
    fn only(tile: usize) -> Area
        requires { tile < tile_count }
        ensures own { has_tile result tile ≡ true }
        ensures lies { (area : Area) → has_tile area tile ≡ true → IsSubarea result area }
    {
        let column = tile % LANES;
        let row = tile / LANES;
        Area {
            left: column,
            top: row,
            right: column,
            bottom: row,
        }
    }

    /// The tiles that are the other's too. There is one.
    pub(crate) fn common(self, other: Area, tile: usize) -> Area
        requires own { has_tile self tile ≡ true }
        requires other { has_tile other tile ≡ true }
        ensures all { (each : ℕ) → has_tile self each ≡ true → has_tile other each ≡ true
            → has_tile result each ≡ true }
        ensures lies { IsSubarea result other }
    {
        Area {
            left: self.left.max(other.left),
            top: self.top.max(other.top),
            right: self.right.min(other.right),
            bottom: self.bottom.min(other.bottom),
        }
    }

    /// Where a list is at home that is made for a tile of the area, from a list that is at home here.
    pub(crate) fn home(self, area: Area, tile: usize) -> Area
        requires own { has_tile self tile ≡ true }
        requires inside { has_tile area tile ≡ true }
        requires within { tile < tile_count }
        ensures own { has_tile result tile ≡ true }
        ensures lies { IsSubarea result area }
    {
        if area.is_wide() {
            self.common(area, tile)
        } else {
            Area::only(tile)
        }
    }
}
