// Polygons with all their points. The boxes that they keep decide most questions.

ghost use Rattle.std.specs.Prelude.{IsTrue, ◌↔◌, ◌⊎◌};
ghost use Rattle.geo_seg.specs.Points.{IsOn, rational_point_of};
ghost use Rattle.geo_seg.specs.Nearer.{IsDistance, AreApart, AreWithin};
ghost use Rattle.geo_seg.specs.Distances.{IsGap};
ghost use Rattle.geo_seg.specs.Inside.{IsInside};
ghost use Rattle.geo_poly.specs.OutlineEdges.{EndsInside};

use crate::besides::{is_beyond, is_reached};
use crate::gaps::{outline_gap, outlines_gap};
use crate::parity::is_enclosed;
use crate::runs::{outlines_apart, outlines_within};
use geo_seg::{Point, Poly, Seg};

/// `holds` for a point that may lie in the polygon's box.
fn has_point(poly: &Poly, p: Point) -> bool
    ensures { IsTrue result ↔ IsInside poly.now (rational_point_of p) }
{
    is_reached(poly, Seg { a: p, b: p }, 0)
}

/// `poly_seg_apart` by the edges: where no edge is near, one end tells for the whole segment.
fn edges_apart(poly: &Poly, s: Seg, d: i64) -> bool
    requires { IsDistance d }
    ensures { IsTrue result ↔ AreApart (IsInside poly.now) (IsOn s) d }
{
    d == 0 || is_beyond(poly, s, d)
}

/// `poly_seg_within` by the edges.
fn edges_within(poly: &Poly, s: Seg, d: i64) -> bool
    requires { IsDistance d }
    ensures { IsTrue result ↔ AreWithin (IsInside poly.now) (IsOn s) d }
{
    is_reached(poly, s, d)
}

/// Whether the last corner of `a` is enclosed by the outline of `b`.
fn ends_inside(a: &Poly, b: &Poly) -> bool
    ensures { IsTrue result ↔ EndsInside a.now b.now }
{
    let corners = a.corners();
    is_enclosed(b, corners[corners.len() - 1])
}

fn either_inside(a: &Poly, b: &Poly) -> bool
    ensures { IsTrue result ↔ (EndsInside a.now b.now ⊎ EndsInside b.now a.now) }
{
    ends_inside(a, b) || ends_inside(b, a)
}

/// `poly_apart` by the edges.
fn areas_apart(a: &Poly, b: &Poly, d: i64) -> bool
    requires { IsDistance d }
    ensures { IsTrue result ↔ AreApart (IsInside a.now) (IsInside b.now) d }
{
    d == 0 || !either_inside(a, b) && outlines_apart(a, b, d)
}

/// `poly_within` by the edges.
fn areas_within(a: &Poly, b: &Poly, d: i64) -> bool
    requires { IsDistance d }
    ensures { IsTrue result ↔ AreWithin (IsInside a.now) (IsInside b.now) d }
{
    either_inside(a, b) || outlines_within(a, b, d)
}

/// Whether the point lies on an edge of the polygon, or inside: an odd number of edges passes to its
/// right (the even-odd rule), where an edge counts with its end of lesser y and without the other.
pub fn holds(poly: &Poly, p: Point) -> bool
    ensures { IsTrue result ↔ IsInside poly.now (rational_point_of p) }
{
    !p.bounds().is_clear(poly.bounds(), 1) && has_point(poly, p)
}

/// Whether no point of the polygon and point of the segment are nearer to each other than `d`, which
/// is from 0 to 2,000,000,000 half nanometres.
pub fn poly_seg_apart(poly: &Poly, s: Seg, d: i64) -> bool
    requires { IsDistance d }
    ensures { IsTrue result ↔ AreApart (IsInside poly.now) (IsOn s) d }
{
    poly.bounds().is_clear(s.bounds(), d) || edges_apart(poly, s, d)
}

/// Whether some point of the polygon and some point of the segment are at most `d` apart, for `d`
/// from 0 to 2,000,000,000 half nanometres.
pub fn poly_seg_within(poly: &Poly, s: Seg, d: i64) -> bool
    requires { IsDistance d }
    ensures { IsTrue result ↔ AreWithin (IsInside poly.now) (IsOn s) d }
{
    !poly.bounds().is_clear(s.bounds(), d + 1) && edges_within(poly, s, d)
}

/// Whether no points of the two polygons are nearer to each other than `d`, which is from 0 to
/// 2,000,000,000 half nanometres.
pub fn poly_apart(a: &Poly, b: &Poly, d: i64) -> bool
    requires { IsDistance d }
    ensures { IsTrue result ↔ AreApart (IsInside a.now) (IsInside b.now) d }
{
    a.bounds().is_clear(b.bounds(), d) || areas_apart(a, b, d)
}

/// Whether some points of the two polygons are at most `d` apart, for `d` from 0 to 2,000,000,000
/// half nanometres.
pub fn poly_within(a: &Poly, b: &Poly, d: i64) -> bool
    requires { IsDistance d }
    ensures { IsTrue result ↔ AreWithin (IsInside a.now) (IsInside b.now) d }
{
    !a.bounds().is_clear(b.bounds(), d + 1) && areas_within(a, b, d)
}

/// The greatest whole number from 1 to `most` at which `poly_seg_apart` answers true, or 0 where there is
/// none. `most` is from 0 to 2,000,000,000 half nanometres.
pub fn poly_seg_gap(poly: &Poly, s: Seg, most: i64) -> i64
    requires { IsDistance most }
    ensures { IsGap (λ d. AreApart (IsInside poly.now) (IsOn s) d) most result }
{
    if is_enclosed(poly, s.a) {
        0
    } else {
        outline_gap(poly, s, most)
    }
}

/// The greatest whole number from 1 to `most` at which `poly_apart` answers true, or 0 where there is
/// none. `most` is from 0 to 2,000,000,000 half nanometres.
pub fn poly_gap(a: &Poly, b: &Poly, most: i64) -> i64
    requires { IsDistance most }
    ensures { IsGap (λ d. AreApart (IsInside a.now) (IsInside b.now) d) most result }
{
    if either_inside(a, b) {
        0
    } else {
        outlines_gap(a, b, most)
    }
}
