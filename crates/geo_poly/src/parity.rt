// How often the edges of an outline pass to the right of a point.

ghost use Rattle.std.specs.Prelude.{◌≡◌, ◌<◌, ◌≤◌, ◌<ℤ◌, IsTrue, IfSome, ◌↔◌, length};
ghost use Rattle.geo_seg.specs.declared.boxes.Bounds.{Bounds};
ghost use Rattle.geo_seg.specs.Points.{rational_point_of};
ghost use Rattle.geo_seg.specs.Boxes.{FitsCore};
ghost use Rattle.geo_seg.specs.Inside.{passes, path, outline};
ghost use Rattle.geo_seg.specs.RunBoxes.{IsRunBox};
ghost use Rattle.geo_poly.specs.OutlineEdges.{IsEnclosed};
ghost use Rattle.geo_poly.specs.EdgeRuns.{between, PassOdd, IsMissed};
ghost use Rattle.geo_poly.specs.OutlineSteps.{IsParityStep};

use crate::edges::before;
use crate::walks::end;
use geo_seg::{Bounds, FIRST_RUN, FOURTH_RUN, Point, Poly, SECOND_RUN, Seg, THIRD_RUN};

/// Whether the edge crosses the ray from the point to the right, and not at the point itself. An
/// edge counts with its end of lesser y and without the other, so that a corner on the ray counts
/// once.
fn passes_right(p: Point, e: Seg) -> bool
    ensures { result ≡ passes (rational_point_of p) e }
{
    if e.a.y <= p.y {
        if e.b.y <= p.y {
            false
        } else {
            0 < e.side_of(p)
        }
    } else if e.b.y <= p.y {
        e.side_of(p) < 0
    } else {
        false
    }
}

/// Whether an odd number of the path's edges passes to the right of the point.
pub(crate) fn path_odd(from: Point, part: &[Point], p: Point) -> bool
    ensures { IsTrue result ↔ PassOdd (rational_point_of p) (path from part.now) }
{
    let mut at = from;
    let mut odd = false;
    for c in part {
        if passes_right(p, Seg { a: at, b: *c }) {
            odd = !odd;
        }
        at = *c;
    }
    odd
}

/// Whether the box lies above the ray from the point to the right, below it, or to the left of it.
fn is_missed(b: Bounds, p: Point) -> bool
    requires { FitsCore b }
    ensures { IsTrue result → IsMissed b p }
{
    p.y < b.top || b.bottom < p.y || b.right < p.x
}

/// Whether an odd number of edges from `low` up to `high` passes to the right of the point, where all
/// lie to its right: then the two ends decide.
pub(crate) fn ends_odd(corners: &[Point], low: usize, high: usize, p: Point) -> bool
    requires low { low < high }
    requires high { high ≤ length corners.now }
    ensures { (b : Bounds) → p.x <ℤ b.left → IsRunBox (between low high (outline corners.now)) b
        → (IsTrue result ↔ PassOdd (rational_point_of p) (between low high (outline corners.now))) }
{
    let part = &corners[low..high];
    (before(corners, low).y <= p.y) != (part[part.len() - 1].y <= p.y)
}

/// What the box says of the edges from `low` up to `high`, which it holds: whether an odd number passes
/// to the right of the point.
fn told_by(b: Bounds, corners: &[Point], low: usize, high: usize, p: Point) -> Option<bool>
    requires low { low < high }
    requires high { high ≤ length corners.now }
    requires hull { IsRunBox (between low high (outline corners.now)) b }
    ensures { IfSome result (λ odd. IsTrue odd ↔ PassOdd (rational_point_of p)
        (between low high (outline corners.now))) }
{
    if is_missed(b, p) {
        Some(false)
    } else if p.x < b.left {
        Some(ends_odd(corners, low, high, p))
    } else {
        None
    }
}

/// The edges up to `high`, and whether an odd number of them passes.
#[derive(Clone, Copy, Drop)]
pub(crate) struct Step {
    pub high: usize,
    pub odd: bool,
}

/// What the box of the run of `size` edges from `low` on says, where one is kept.
fn told(poly: &Poly, low: usize, size: usize, p: Point) -> Option<Step>
    requires low { low < length poly.now }
    requires size { 0 < size }
    ensures { IfSome result (λ step. IsParityStep poly.now (rational_point_of p) low step) }
{
    let b = poly.run_box(low, size)?;
    let corners = poly.corners();
    let high = end(low, size, corners.len());
    let odd = told_by(b, corners, low, high, p)?;
    Some(Step { high, odd })
}

/// A step from `low` on by a few edges, that looks at each.
fn short_step(poly: &Poly, low: usize, p: Point) -> Step
    requires { low < length poly.now }
    ensures { IsParityStep poly.now (rational_point_of p) low result }
{
    let corners = poly.corners();
    let high = end(low, FIRST_RUN, corners.len());
    let odd = path_odd(before(corners, low), &corners[low..high], p);
    Step { high, odd }
}

/// The longest step from `low` on that is told by a box, or else one by edges.
fn next_step(poly: &Poly, low: usize, p: Point) -> Step
    requires { low < length poly.now }
    ensures { IsParityStep poly.now (rational_point_of p) low result }
{
    if let Some(step) = told(poly, low, FOURTH_RUN, p) {
        step
    } else if let Some(step) = told(poly, low, THIRD_RUN, p) {
        step
    } else if let Some(step) = told(poly, low, SECOND_RUN, p) {
        step
    } else if let Some(step) = told(poly, low, FIRST_RUN, p) {
        step
    } else {
        short_step(poly, low, p)
    }
}

/// Whether an odd number of the polygon's edges passes to the right of the point.
pub(crate) fn is_enclosed(poly: &Poly, p: Point) -> bool
    ensures { IsTrue result ↔ IsEnclosed poly.now (rational_point_of p) }
{
    let corners = poly.corners();
    if poly.run_box(0, FIRST_RUN).is_none() {
        return path_odd(before(corners, 0), corners, p);
    }
    let all = corners.len();
    let mut low = 0;
    let mut odd = false;
    'steps: while low < all {
        let next = next_step(poly, low, p);
        odd = odd != next.odd;
        low = next.high;
    }
    odd
}
