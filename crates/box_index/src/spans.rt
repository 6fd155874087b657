//! Runs of tiles.

ghost use Rattle.std.specs.Prelude.{◌≤ℤ◌, ◌||◌, All, pos, true};
ghost use Rattle.geo_seg.specs.Boxes.{FitsIndex};
ghost use Rattle.box_index.specs.Tiles.{is_met_by};
ghost use Rattle.box_index.specs.TileRanges.{HasAll};

use crate::area::Area;
use crate::lanes::TILES;
use geo_seg::Bounds;

/// The tiles from the first to the one before the end. There may be none, and the first may then be above the end.
#[derive(Clone, Copy)]
pub(crate) struct Span {
    pub(crate) first: usize,
    pub(crate) end: usize,
}

impl Span {
    /// All tiles.
    fn all() -> Span
        ensures { HasAll (λ tile. true) result }
    {
        Span {
            first: 0,
            end: TILES,
        }
    }

    /// From the first to the last tile that is met by one of the boxes, where these are widened by the margin, in half nanometres.
    fn around(margin: i64, boxes: &[Bounds]) -> Span
        requires from { pos 0 ≤ℤ margin }
        requires to { margin ≤ℤ pos 1000000000 }
        requires boxes { All (λ b. FitsIndex b) boxes.now }
        ensures { HasAll (is_met_by margin boxes.now) result }
    {
        let mut span = Span {
            first: TILES,
            end: 0,
        };
        for bounds in boxes {
            let area = Area::around(margin, *bounds);
            span = Span {
                first: span.first.min(area.first()),
                end: span.end.max(area.end()),
            };
        }
        span
    }

    /// From the first to the last tile that is met by one of the boxes, where these are widened by the margin, in half nanometres;
    /// with `all`, all tiles.
    pub(crate) fn reached(margin: i64, boxes: &[Bounds], all: bool) -> Span
        requires from { pos 0 ≤ℤ margin }
        requires to { margin ≤ℤ pos 1000000000 }
        requires boxes { All (λ b. FitsIndex b) boxes.now }
        ensures { HasAll (λ tile. all || is_met_by margin boxes.now tile) result }
    {
        if all {
            Span::all()
        } else {
            Span::around(margin, boxes)
        }
    }
}
