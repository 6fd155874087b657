//! How the parts of a footprint and of a custom pad stand on a board.

ghost use Rattle.std.specs.Prelude.{◌≡◌, ◌+◌, ◌<◌, ℕ, All, IfOk, length, option_map, IfSome};
ghost use Rattle.part_read.specs.Placements.{most_read, IsRawPointWithin, IsReadRawPoint, IsPlacementRawPoint, stood, point_stood, points_stood};

use crate::numbers::RawPoint;
use crate::on_board::point_at;
use board_items::turn;
use geo_seg::Point;
use std::alloc::{AllocError, Global};

/// Turned by quarter turns about 0, and then moved.
#[derive(Clone, Copy, Debug, PartialEq, Eq, Drop)]
pub struct Placement {
    pub quarter: u32,
    pub at: RawPoint,
}

/// Where a raw point of something that stands so is on the board, or off it: turned first, and then
/// moved.
pub fn stand(placement: Placement, raw_point: RawPoint) -> RawPoint
    requires quarter { placement.quarter < 4 }
    requires at { IsPlacementRawPoint placement.at }
    requires raw_point { IsReadRawPoint raw_point }
    ensures stood { result ≡ stood placement raw_point }
    ensures within { (most : ℕ) → IsRawPointWithin most placement.at
        → IsRawPointWithin (most + most_read) result }
{
    let (x, y) = turn(raw_point.x, raw_point.y, placement.quarter);
    RawPoint {
        x: placement.at.x + x,
        y: placement.at.y + y,
    }
}

/// The point at a raw point of something that stands so, unless it lies off the board.
pub(crate) fn point_stood(placement: Placement, raw_point: RawPoint) -> Option<Point>
    requires quarter { placement.quarter < 4 }
    requires at { IsPlacementRawPoint placement.at }
    requires raw_point { IsReadRawPoint raw_point }
    ensures { result ≡ point_stood placement raw_point }
{
    point_at(stand(placement, raw_point))
}

/// The points on the board of all raw points of something that is placed so; `None` where one lies off the board.
pub fn points_stood(
    alloc: Global,
    placement: Placement,
    raw_points: &[RawPoint],
) -> Result<Option<Vec<Point>>, AllocError>
    requires quarter { placement.quarter < 4 }
    requires at { IsPlacementRawPoint placement.at }
    requires raw_points { All IsReadRawPoint raw_points.now }
    ensures points { IfOk result (λ points.
        option_map (λ found. found.items) points ≡ points_stood placement raw_points.now) }
    ensures many { IfOk result (λ points.
        IfSome points (λ found. length found.items ≡ length raw_points.now)) }
{
    let mut points = Vec::with_capacity(alloc, raw_points.len())?;
    for raw_point in raw_points {
        let Some(point) = point_stood(placement, *raw_point) else {
            return Ok(None);
        };
        points.push(point)?;
    }
    Ok(Some(points))
}
