// The greatest distance at which outlines are apart. A walk keeps the best so far, and looks nearer only
// at what lies within it.

ghost use Rattle.std.specs.Prelude.{◌<◌, ◌≤◌, length};
ghost use Rattle.geo_seg.specs.Points.{IsOn};
ghost use Rattle.geo_seg.specs.Nearer.{IsDistance};
ghost use Rattle.geo_seg.specs.Boxes.{IsLeastBox, FitsCore};
ghost use Rattle.geo_seg.specs.Distances.{IsGap};
ghost use Rattle.geo_seg.specs.Inside.{path, outline, EachEdge};
ghost use Rattle.geo_seg.specs.RunBoxes.{IsRunBox};
ghost use Rattle.geo_poly.specs.OutlineEdges.{IsApart, EachApart};
ghost use Rattle.geo_poly.specs.EdgeRuns.{between};
ghost use Rattle.geo_poly.specs.OutlineParts.{IsRunOf, edges_of};

use crate::edges::{before, path_gap};
use crate::runs::{Part, part_of, whole};
use crate::walks::{apart_until, end};
use geo_seg::{Bounds, FIRST_RUN, Point, Poly, RUN_PARTS, Seg};

/// A run of edges up to `high`, and the greatest distance at which all are apart from a segment.
#[derive(Clone, Copy, Drop)]
struct Kept {
    high: usize,
    gap: i64,
}

/// A run from `low` on: a longer one where all edges are apart at `most` from the segment, whose box is
/// `near`, and else one of a few edges.
fn kept_until(poly: &Poly, low: usize, s: Seg, near: Bounds, most: i64) -> Kept
    requires low { low < length poly.now }
    requires near { IsLeastBox (IsOn s) near }
    requires fits { FitsCore near }
    requires range { IsDistance most }
    ensures after { low < result.high }
    ensures within { result.high ≤ length poly.now }
    ensures gap { IsGap (λ d. EachEdge (λ e. IsApart e s d)
        (between low result.high (outline poly.now))) most result.gap }
{
    let far = apart_until(poly, low, s, near, most);
    if far > low {
        return Kept {
            high: far,
            gap: most,
        };
    }
    let corners = poly.corners();
    let high = end(low, FIRST_RUN, corners.len());
    let gap = path_gap(before(corners, low), &corners[low..high], s, most);
    Kept { high, gap }
}

/// The greatest whole distance from 1 to `most` at which each edge of the polygon is apart from the
/// segment, or 0.
pub(crate) fn outline_gap(poly: &Poly, s: Seg, most: i64) -> i64
    requires { IsDistance most }
    ensures { IsGap (λ d. EachEdge (λ e. IsApart e s d) (outline poly.now)) most result }
{
    let near = s.bounds();
    let all = poly.corners().len();
    let mut low = 0;
    let mut best = most;
    'runs: while low < all {
        let next = kept_until(poly, low, s, near, best);
        best = next.gap;
        low = next.high;
    }
    best
}

/// The greatest distance up to `most` that all edges of a path, whose box is `far`, keep from a segment.
fn far_gap(from: Point, part: &[Point], far: Bounds, s: Seg, most: i64) -> i64
    requires far { IsRunBox (path from part.now) far }
    requires range { IsDistance most }
    ensures { IsGap (λ d. EachEdge (λ e. IsApart e s d) (path from part.now)) most result }
{
    if far.is_clear(s.bounds(), most) {
        most
    } else {
        path_gap(from, part, s, most)
    }
}

/// The greatest distance up to `most` that all edges of a path keep from those of another, whose box is `far`.
fn paths_gap(
    from: Point,
    part: &[Point],
    far: Bounds,
    other: Point,
    others: &[Point],
    most: i64,
) -> i64
    requires far { IsRunBox (path other others.now) far }
    requires range { IsDistance most }
    ensures { IsGap (λ d. EachApart d (path from part.now) (path other others.now)) most result }
{
    let mut at = from;
    let mut best = most;
    for c in part {
        let e = Seg { a: at, b: *c };
        best = far_gap(other, others, far, e, best);
        at = *c;
    }
    best
}

fn short_gap(a: &Poly, p: Part, b: &Poly, q: Part, most: i64) -> i64
    requires first { IsRunOf a.now p }
    requires second { IsRunOf b.now q }
    requires range { IsDistance most }
    ensures { IsGap (λ d. EachApart d (edges_of a.now p) (edges_of b.now q)) most result }
{
    let corners = a.corners();
    let others = b.corners();
    paths_gap(
        before(corners, p.low),
        &corners[p.low..p.high],
        q.bounds,
        before(others, q.low),
        &others[q.low..q.high],
        most,
    )
}

/// The greatest distance up to `most` that all edges of the one part keep from those of the other.
fn parts_gap(a: &Poly, p: Part, b: &Poly, q: Part, most: i64) -> i64
    requires first { IsRunOf a.now p }
    requires second { IsRunOf b.now q }
    requires range { IsDistance most }
    ensures { IsGap (λ d. EachApart d (edges_of a.now p) (edges_of b.now q)) most result }
{
    if most == 0 || q.bounds.is_clear(p.bounds, most) {
        return most;
    }
    if p.size <= FIRST_RUN && q.size <= FIRST_RUN {
        return short_gap(a, p, b, q, most);
    }
    let mut best = most;
    if p.size >= q.size {
        let mut low = p.low;
        'first: while low < p.high {
            let high = end(low, p.size / RUN_PARTS, p.high);
            best = parts_gap(a, part_of(a, low, high, p.size / RUN_PARTS), b, q, best);
            low = high;
        }
    } else {
        let mut low = q.low;
        'second: while low < q.high {
            let high = end(low, q.size / RUN_PARTS, q.high);
            best = parts_gap(a, p, b, part_of(b, low, high, q.size / RUN_PARTS), best);
            low = high;
        }
    }
    best
}

/// The greatest whole distance from 1 to `most` at which each edge of the one polygon is apart from each
/// of the other, or 0.
pub(crate) fn outlines_gap(a: &Poly, b: &Poly, most: i64) -> i64
    requires { IsDistance most }
    ensures { IsGap (λ d. EachApart d (outline a.now) (outline b.now)) most result }
{
    parts_gap(a, whole(a), b, whole(b), most)
}
