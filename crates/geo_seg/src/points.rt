// Points and segments.

ghost use Rattle.geo_seg.specs.Ranges.{IsCoordinate};

/// A point of the plane, in half nanometres. Each coordinate is at most 1,000,000,000 from 0.
#[derive(Clone, Copy, Debug, PartialEq, Eq, Drop)]
pub struct Point {
    pub x: i64,
    pub y: i64,
    ghost x_in_range: { IsCoordinate x },
    ghost y_in_range: { IsCoordinate y },
}

/// All points from `a` to `b`, both included. Where the two are equal it is that one point.
#[derive(Clone, Copy, Debug, PartialEq, Eq, Drop)]
pub struct Seg {
    pub a: Point,
    pub b: Point,
}
