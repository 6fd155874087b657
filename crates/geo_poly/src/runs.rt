// Two outlines, each taken in runs of edges, and those again in shorter ones: two runs whose boxes are
// clear of each other are not looked at any nearer.

ghost use Rattle.std.specs.Prelude.{◌≡◌, ◌<◌, ◌≤◌, IsTrue, ◌↔◌, length};
ghost use Rattle.geo_seg.specs.Nearer.{IsDistance};
ghost use Rattle.geo_seg.specs.Inside.{path, outline, EachEdge, SomeEdge};
ghost use Rattle.geo_seg.specs.RunBoxes.{IsRunBox};
ghost use Rattle.geo_poly.specs.OutlineEdges.{IsApart, IsReached, EachApart, SomeReached};
ghost use Rattle.geo_poly.specs.EdgeRuns.{between};
ghost use Rattle.geo_poly.specs.OutlineParts.{IsRunOf, edges_of};

use crate::edges::{before, path_apart, path_within};
use crate::walks::end;
use geo_seg::{
    Bounds, FIRST_RUN, FOURTH_RUN, Point, Poly, RUN_PARTS, SECOND_RUN, Seg, THIRD_RUN, corner_box,
};

/// The edges from `low` up to `high` of an outline, and their box. Where the outline keeps one, it is
/// that of the run of `size` edges from `low` on.
#[derive(Clone, Copy, Drop)]
pub(crate) struct Part {
    pub low: usize,
    pub high: usize,
    pub size: usize,
    pub bounds: Bounds,
}

/// The box of the edges from `low` up to `high`.
fn part_box(poly: &Poly, low: usize, high: usize, size: usize) -> Bounds
    requires low { low < high }
    requires high { high ≤ length poly.now }
    ensures { IsRunBox (between low high (outline poly.now)) result }
{
    if high - low <= size {
        if let Some(bounds) = poly.run_box(low, size) {
            return bounds;
        }
    }
    let corners = poly.corners();
    corner_box(before(corners, low), &corners[low..high])
}

pub(crate) fn part_of(poly: &Poly, low: usize, high: usize, size: usize) -> Part
    requires low { low < high }
    requires high { high ≤ length poly.now }
    ensures low { result.low ≡ low }
    ensures high { result.high ≡ high }
    ensures size { result.size ≡ size }
    ensures part { IsRunOf poly.now result }
{
    Part {
        low,
        high,
        size,
        bounds: part_box(poly, low, high, size),
    }
}

/// One size more, of parts for which no box is kept.
const FIFTH: usize = RUN_PARTS * FOURTH_RUN;

/// The size from which a walk over so many edges begins to divide them. However many they are, the first parts are the longest runs:
/// the box of a longer part would have to be found from all its corners.
fn first_size(all: usize) -> usize {
    if all <= FIRST_RUN {
        FIRST_RUN
    } else if all <= SECOND_RUN {
        SECOND_RUN
    } else if all <= THIRD_RUN {
        THIRD_RUN
    } else if all <= FOURTH_RUN {
        FOURTH_RUN
    } else {
        FIFTH
    }
}

/// The whole outline.
pub(crate) fn whole(poly: &Poly) -> Part
    ensures part { IsRunOf poly.now result }
    ensures whole { edges_of poly.now result ≡ outline poly.now }
{
    let all = poly.corners().len();
    Part {
        low: 0,
        high: all,
        size: first_size(all),
        bounds: poly.bounds(),
    }
}

/// Whether each edge of the path is apart from each of the other, whose box is `far`.
fn paths_apart(
    from: Point,
    part: &[Point],
    far: Bounds,
    other: Point,
    others: &[Point],
    d: i64,
) -> bool
    requires far { IsRunBox (path other others.now) far }
    requires range { IsDistance d }
    ensures { IsTrue result ↔ EachApart d (path from part.now) (path other others.now) }
{
    let mut at = from;
    for c in part {
        let e = Seg { a: at, b: *c };
        if !far_apart(other, others, far, e, d) {
            return false;
        }
        at = *c;
    }
    true
}

/// Whether each edge of the path, whose box is `far`, is apart from the segment.
fn far_apart(from: Point, part: &[Point], far: Bounds, s: Seg, d: i64) -> bool
    requires far { IsRunBox (path from part.now) far }
    requires range { IsDistance d }
    ensures { IsTrue result ↔ EachEdge (λ e. IsApart e s d) (path from part.now) }
{
    far.is_clear(s.bounds(), d) || path_apart(from, part, s, d)
}

fn short_apart(a: &Poly, p: Part, b: &Poly, q: Part, d: i64) -> bool
    requires first { IsRunOf a.now p }
    requires second { IsRunOf b.now q }
    requires range { IsDistance d }
    ensures { IsTrue result ↔ EachApart d (edges_of a.now p) (edges_of b.now q) }
{
    let corners = a.corners();
    let others = b.corners();
    paths_apart(
        before(corners, p.low),
        &corners[p.low..p.high],
        q.bounds,
        before(others, q.low),
        &others[q.low..q.high],
        d,
    )
}

/// Whether each edge of the one part is apart from each of the other.
fn parts_apart(a: &Poly, p: Part, b: &Poly, q: Part, d: i64) -> bool
    requires first { IsRunOf a.now p }
    requires second { IsRunOf b.now q }
    requires range { IsDistance d }
    ensures { IsTrue result ↔ EachApart d (edges_of a.now p) (edges_of b.now q) }
{
    if q.bounds.is_clear(p.bounds, d) {
        return true;
    }
    if p.size <= FIRST_RUN && q.size <= FIRST_RUN {
        return short_apart(a, p, b, q, d);
    }
    if p.size >= q.size {
        let mut low = p.low;
        'first: while low < p.high {
            let high = end(low, p.size / RUN_PARTS, p.high);
            if !parts_apart(a, part_of(a, low, high, p.size / RUN_PARTS), b, q, d) {
                return false;
            }
            low = high;
        }
    } else {
        let mut low = q.low;
        'second: while low < q.high {
            let high = end(low, q.size / RUN_PARTS, q.high);
            if !parts_apart(a, p, b, part_of(b, low, high, q.size / RUN_PARTS), d) {
                return false;
            }
            low = high;
        }
    }
    true
}

/// Whether each edge of the one polygon is apart from each of the other.
pub(crate) fn outlines_apart(a: &Poly, b: &Poly, d: i64) -> bool
    requires { IsDistance d }
    ensures { IsTrue result ↔ EachApart d (outline a.now) (outline b.now) }
{
    parts_apart(a, whole(a), b, whole(b), d)
}

/// Whether some edge of the path is within d of some of the other, whose box is `far`.
fn paths_within(
    from: Point,
    part: &[Point],
    far: Bounds,
    other: Point,
    others: &[Point],
    d: i64,
) -> bool
    requires far { IsRunBox (path other others.now) far }
    requires range { IsDistance d }
    ensures { IsTrue result ↔ SomeReached d (path from part.now) (path other others.now) }
{
    let mut at = from;
    for c in part {
        let e = Seg { a: at, b: *c };
        if far_within(other, others, far, e, d) {
            return true;
        }
        at = *c;
    }
    false
}

/// Whether some edge of the path, whose box is `far`, is within d of the segment.
fn far_within(from: Point, part: &[Point], far: Bounds, s: Seg, d: i64) -> bool
    requires far { IsRunBox (path from part.now) far }
    requires range { IsDistance d }
    ensures { IsTrue result ↔ SomeEdge (λ e. IsReached e s d) (path from part.now) }
{
    !far.is_clear(s.bounds(), d + 1) && path_within(from, part, s, d)
}

fn short_within(a: &Poly, p: Part, b: &Poly, q: Part, d: i64) -> bool
    requires first { IsRunOf a.now p }
    requires second { IsRunOf b.now q }
    requires range { IsDistance d }
    ensures { IsTrue result ↔ SomeReached d (edges_of a.now p) (edges_of b.now q) }
{
    let corners = a.corners();
    let others = b.corners();
    paths_within(
        before(corners, p.low),
        &corners[p.low..p.high],
        q.bounds,
        before(others, q.low),
        &others[q.low..q.high],
        d,
    )
}

/// Whether some edge of the one part is within d of some of the other.
fn parts_within(a: &Poly, p: Part, b: &Poly, q: Part, d: i64) -> bool
    requires first { IsRunOf a.now p }
    requires second { IsRunOf b.now q }
    requires range { IsDistance d }
    ensures { IsTrue result ↔ SomeReached d (edges_of a.now p) (edges_of b.now q) }
{
    if q.bounds.is_clear(p.bounds, d + 1) {
        return false;
    }
    if p.size <= FIRST_RUN && q.size <= FIRST_RUN {
        return short_within(a, p, b, q, d);
    }
    if p.size >= q.size {
        let mut low = p.low;
        'first: while low < p.high {
            let high = end(low, p.size / RUN_PARTS, p.high);
            if parts_within(a, part_of(a, low, high, p.size / RUN_PARTS), b, q, d) {
                return true;
            }
            low = high;
        }
    } else {
        let mut low = q.low;
        'second: while low < q.high {
            let high = end(low, q.size / RUN_PARTS, q.high);
            if parts_within(a, p, b, part_of(b, low, high, q.size / RUN_PARTS), d) {
                return true;
            }
            low = high;
        }
    }
    false
}

/// Whether some edge of the one polygon is within d of some of the other.
pub(crate) fn outlines_within(a: &Poly, b: &Poly, d: i64) -> bool
    requires { IsDistance d }
    ensures { IsTrue result ↔ SomeReached d (outline a.now) (outline b.now) }
{
    parts_within(a, whole(a), b, whole(b), d)
}
