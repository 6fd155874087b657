//! The radius of a circle in whole nanometres.

ghost use Rattle.std.specs.Prelude.{◌≡◌, ◌≤◌, ◌≤ℤ◌, pos};
ghost use Rattle.part_read.specs.Placements.{IsReadRawPoint};
ghost use Rattle.part_read.specs.Circles.{most_square, most_radius, root, radius_between, square_between};

use crate::numbers::RawPoint;
use board_items::Nm;

/// The square of the distance of two raw points.
fn square_between(a: RawPoint, b: RawPoint) -> u128
    requires a { IsReadRawPoint a }
    requires b { IsReadRawPoint b }
    ensures value { result ≡ square_between a b }
    ensures most { result ≤ most_square }
{
    let dx = u128::from(b.x.abs_diff(a.x));
    let dy = u128::from(b.y.abs_diff(a.y));
    dx * dx + dy * dy
}

/// The greatest whole number whose square is not above this one.
fn root(square: u128) -> u128
    requires { square ≤ most_square }
    ensures value { result ≡ root square }
    ensures most { result ≤ most_radius }
{
    square.isqrt()
}

/// The radius of the circle around a centre through an end: the distance between them, cut to whole
/// nanometres.
pub fn radius_between(center: RawPoint, end: RawPoint) -> Nm
    requires center { IsReadRawPoint center }
    requires end { IsReadRawPoint end }
    ensures value { result ≡ radius_between center end }
    ensures from { pos 0 ≤ℤ result }
    ensures most { result ≤ℤ pos most_radius }
{
    root(square_between(center, end)) as Nm
}
