//! The point at a raw point that counts half nanometres, with the test that it lies on the board.

ghost use Rattle.std.specs.Prelude.{◌≡◌};
ghost use Rattle.pad_read.specs.Halves.{is_near_half, fits_half, half_point};

use geo_seg::Point;
use part_read::RawPoint;

/// The greatest coordinate in half nanometres: 500 mm.
const GREATEST_COORDINATE: u64 = 1_000_000_000;

/// Whether the number is a coordinate.
fn is_near_half(z: i64) -> bool
    ensures { result ≡ is_near_half z }
{
    z.unsigned_abs() <= GREATEST_COORDINATE
}

/// Whether both numbers of the raw point are coordinates.
fn fits_half(raw_point: RawPoint) -> bool
    ensures { result ≡ fits_half raw_point }
{
    is_near_half(raw_point.x) && is_near_half(raw_point.y)
}

/// The point at a raw point that counts half nanometres, unless it lies off the board.
pub(crate) fn half_point(raw_point: RawPoint) -> Option<Point>
    ensures { result ≡ half_point raw_point }
{
    if !fits_half(raw_point) {
        return None;
    }
    Some(Point {
        x: raw_point.x,
        y: raw_point.y,
    })
}
