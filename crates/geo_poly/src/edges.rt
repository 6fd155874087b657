// The edges of a path, and a segment.

ghost use Rattle.std.specs.Prelude.{◌≡◌, ◌<◌, IsTrue, ◌↔◌, length, drop};
ghost use Rattle.geo_seg.specs.Nearer.{IsDistance};
ghost use Rattle.geo_seg.specs.Points.{IsOn};
ghost use Rattle.geo_seg.specs.Boxes.{IsLeastBox, FitsCore};
ghost use Rattle.geo_seg.specs.Distances.{IsGap};
ghost use Rattle.geo_seg.specs.Inside.{path, outline, EachEdge, SomeEdge};
ghost use Rattle.geo_poly.specs.OutlineEdges.{IsApart, IsReached};

use geo_seg::{Bounds, Point, Seg, seg_apart, seg_gap, seg_within};

/// The corner at which edge `low` begins. Edge 0 leads from the last corner to the first.
pub(crate) fn before(corners: &[Point], low: usize) -> Point
    requires { low < length corners.now }
    ensures { drop low (outline corners.now) ≡ path result (drop low corners.now) }
{
    if low == 0 {
        corners[corners.len() - 1]
    } else {
        corners[low - 1]
    }
}

/// Whether the edge is apart from the segment, whose box is `near`.
fn edge_apart(e: Seg, s: Seg, near: Bounds, d: i64) -> bool
    requires near { IsLeastBox (IsOn s) near }
    requires fits { FitsCore near }
    requires range { IsDistance d }
    ensures { IsTrue result ↔ IsApart e s d }
{
    e.bounds().is_clear(near, d) || seg_apart(e, s, d)
}

/// Whether the edge is within d of the segment, whose box is `near`.
fn edge_within(e: Seg, s: Seg, near: Bounds, d: i64) -> bool
    requires near { IsLeastBox (IsOn s) near }
    requires fits { FitsCore near }
    requires range { IsDistance d }
    ensures { IsTrue result ↔ IsReached e s d }
{
    !e.bounds().is_clear(near, d + 1) && seg_within(e, s, d)
}

/// Whether each edge of the path is apart from the segment.
pub(crate) fn path_apart(from: Point, part: &[Point], s: Seg, d: i64) -> bool
    requires { IsDistance d }
    ensures { IsTrue result ↔ EachEdge (λ e. IsApart e s d) (path from part.now) }
{
    let near = s.bounds();
    let mut at = from;
    for c in part {
        if !edge_apart(Seg { a: at, b: *c }, s, near, d) {
            return false;
        }
        at = *c;
    }
    true
}

/// Whether some edge of the path is within d of the segment.
pub(crate) fn path_within(from: Point, part: &[Point], s: Seg, d: i64) -> bool
    requires { IsDistance d }
    ensures { IsTrue result ↔ SomeEdge (λ e. IsReached e s d) (path from part.now) }
{
    let near = s.bounds();
    let mut at = from;
    for c in part {
        if edge_within(Seg { a: at, b: *c }, s, near, d) {
            return true;
        }
        at = *c;
    }
    false
}

/// The greatest whole distance from 1 to `most` at which each edge of the path is apart from the segment, or 0.
pub(crate) fn path_gap(from: Point, part: &[Point], s: Seg, most: i64) -> i64
    requires { IsDistance most }
    ensures { IsGap (λ d. EachEdge (λ e. IsApart e s d) (path from part.now)) most result }
{
    let mut at = from;
    let mut best = most;
    for c in part {
        best = seg_gap(Seg { a: at, b: *c }, s, best);
        at = *c;
    }
    best
}
