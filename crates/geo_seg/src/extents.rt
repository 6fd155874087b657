// The least boxes that hold points, segments and shapes.

ghost use Rattle.std.specs.Prelude.{◌≡◌, ◌++◌, ◌∷◌, [], List, pos};
ghost use Rattle.geo_seg.specs.Nearer.{IsUpTo};
ghost use Rattle.geo_seg.specs.declared.points.Point.{Point};
ghost use Rattle.geo_seg.specs.Boxes.{IsLeastBox, widened, FitsCore, FitsShape};
ghost use Rattle.geo_seg.specs.PolygonCorners.{IsCornerBox};
ghost use Rattle.geo_seg.specs.Points.{IsAt, IsOn};
ghost use Rattle.geo_seg.specs.Cores.{IsPointOf, IsBoundsOf};

use crate::boxes::Bounds;
use crate::points::{Point, Seg};
use crate::shapes::{Core, Shape};

/// The box of a single corner.
pub(crate) fn around(p: Point) -> Bounds
    ensures { IsCornerBox (p ∷ []) result }
{
    Bounds {
        left: p.x,
        top: p.y,
        right: p.x,
        bottom: p.y,
    }
}

/// The box, grown to hold one corner more.
pub(crate) fn grown(bounds: Bounds, p: Point) -> Bounds
    requires { FitsCore bounds }
    ensures { (cs : List Point) → IsCornerBox cs bounds → IsCornerBox (cs ++ p ∷ []) result }
{
    bounds.union(around(p))
}

/// The box with each side moved out by `radius`.
fn widen(bounds: Bounds, radius: i64) -> Bounds
    requires fits { FitsCore bounds }
    requires range { IsUpTo (pos 500000000) radius }
    ensures wider { result ≡ widened bounds radius }
    ensures fits { FitsShape result }
{
    Bounds {
        left: bounds.left - radius,
        top: bounds.top - radius,
        right: bounds.right + radius,
        bottom: bounds.bottom + radius,
    }
}

impl Point {
    /// The box that holds nothing else.
    pub fn bounds(self) -> Bounds
        ensures least { IsLeastBox (IsAt self) result }
        ensures fits { FitsCore result }
    {
        around(self)
    }
}

impl Seg {
    /// The least box that holds it.
    pub fn bounds(self) -> Bounds
        ensures least { IsLeastBox (IsOn self) result }
        ensures fits { FitsCore result }
    {
        grown(around(self.a), self.b)
    }
}

fn core_bounds(core: &Core) -> Bounds
    ensures least { IsLeastBox (IsPointOf core.now) result }
    ensures fits { FitsCore result }
{
    match core {
        Core::Line(s) => s.bounds(),
        Core::Area(p) => p.bounds(),
    }
}

impl Shape {
    /// The least box that holds the core, widened on each side by the radius.
    pub fn bounds(&self) -> Bounds
        ensures least { IsBoundsOf self.now result }
        ensures fits { FitsShape result }
    {
        widen(core_bounds(&self.core), self.radius)
    }
}
