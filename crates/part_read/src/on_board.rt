//! Points and shapes, from numbers in nanometres.

ghost use Rattle.std.specs.Prelude.{◌≡◌, true, ◌*ℤ◌, pos};
ghost use Rattle.part_read.specs.OnBoard.{tested, fits_board, point_at, is_strip, strip_shape};

use crate::numbers::RawPoint;
use board_items::{Nm, is_near};
use geo_seg::{Core, Point, Seg, Shape};
use plain_types::is_length;

/// A line, with all that lies within half its width, in nanometres. It may lie off the board.
#[derive(Clone, Copy, Debug, PartialEq, Eq, Drop)]
pub struct Strip {
    pub a: RawPoint,
    pub b: RawPoint,
    pub width: Nm,
}

/// Whether the raw point is at most 500 mm from 0 in x and in y.
pub fn fits_board(raw_point: RawPoint) -> bool
    ensures { result ≡ fits_board raw_point }
{
    is_near(raw_point.x) && is_near(raw_point.y)
}

/// The point at a raw point, unless it lies off the board.
pub fn point_at(raw_point: RawPoint) -> Option<Point>
    ensures { result ≡ tested (fits_board raw_point) (point_at raw_point) }
{
    if fits_board(raw_point) {
        return Some(doubled(raw_point));
    }
    None
}

/// The point at a raw point that lies on the board.
fn doubled(raw_point: RawPoint) -> Point
    requires { fits_board raw_point ≡ true }
    ensures x { result.x ≡ pos 2 *ℤ raw_point.x }
    ensures y { result.y ≡ pos 2 *ℤ raw_point.y }
{
    Point {
        x: 2 * raw_point.x,
        y: 2 * raw_point.y,
    }
}

/// Whether both ends lie on the board, and the width is a length.
fn is_strip(strip: Strip) -> bool
    ensures { result ≡ is_strip strip }
{
    (fits_board(strip.a) && fits_board(strip.b)) && is_length(strip.width)
}

/// The shape of a strip, unless one of its ends lies off the board or its width is no length.
pub fn strip_shape(strip: Strip) -> Option<Shape>
    ensures { result ≡ tested (is_strip strip) (strip_shape strip) }
{
    if !is_strip(strip) {
        return None;
    }
    Some(Shape {
        core: Core::Line(Seg {
            a: doubled(strip.a),
            b: doubled(strip.b),
        }),
        radius: strip.width,
    })
}
