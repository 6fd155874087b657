// The way from one point to another, and products of such ways. All fits into 64 bits, but for the
// products of two products.

ghost use Rattle.std.specs.Prelude.{◌≡◌, ◌*ℤ◌, ◌+ℤ◌, ◌-ℤ◌, ◌≤◌, unsigned_abs};
ghost use Rattle.geo_seg.specs.Ranges.{IsOffset};
ghost use Rattle.geo_seg.specs.Gap.{cross_of};

use crate::points::{Point, Seg};

#[derive(Clone, Copy, Drop)]
pub struct Vector {
    pub x: i64,
    pub y: i64,
    ghost x_in_range: { IsOffset x },
    ghost y_in_range: { IsOffset y },
}

pub(crate) fn between(from: Point, to: Point) -> Vector
    ensures x { result.x ≡ to.x -ℤ from.x }
    ensures y { result.y ≡ to.y -ℤ from.y }
{
    Vector {
        x: to.x - from.x,
        y: to.y - from.y,
    }
}

pub(crate) fn product(a: i64, b: i64) -> i64
    requires a_in_range { IsOffset a }
    requires b_in_range { IsOffset b }
    ensures value { result ≡ a *ℤ b }
    ensures in_range { unsigned_abs result ≤ 4000000000000000000 }
{
    a * b
}

pub(crate) fn large_product(a: i64, b: i64) -> i128
    requires a_in_range { unsigned_abs a ≤ 8000000000000000000 }
    requires b_in_range { unsigned_abs b ≤ 8000000000000000000 }
    ensures { result ≡ a *ℤ b }
{
    a as i128 * b as i128
}

pub(crate) fn dot(u: Vector, v: Vector) -> i64
    ensures value { result ≡ u.x *ℤ v.x +ℤ u.y *ℤ v.y }
    ensures in_range { unsigned_abs result ≤ 8000000000000000000 }
{
    product(u.x, v.x) + product(u.y, v.y)
}

pub(crate) fn cross(u: Vector, v: Vector) -> i64
    ensures value { result ≡ u.x *ℤ v.y -ℤ u.y *ℤ v.x }
    ensures in_range { unsigned_abs result ≤ 8000000000000000000 }
{
    product(u.x, v.y) - product(u.y, v.x)
}

impl Seg {
    /// With y upward: above 0 where the point lies to the left of the line through the segment, seen
    /// from its start to its end, below 0 where it lies to the right, and 0 on the line.
    pub fn side_of(self, p: Point) -> i64
        ensures value { result ≡ cross_of p self }
        ensures in_range { unsigned_abs result ≤ 8000000000000000000 }
    {
        cross(between(self.a, self.b), between(self.a, p))
    }
}
