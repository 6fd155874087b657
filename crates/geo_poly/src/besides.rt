// A segment beside an outline. One walk finds whether some edge is near it, and whether it begins inside.

ghost use Rattle.std.specs.Prelude.{◌<◌, ◌≤◌, ◌<ℤ◌, ◌≤ℤ◌, ◌+ℤ◌, pos, IsTrue, IfSome, IfNone, ◌↔◌, ◌⊎◌, length};
ghost use Rattle.geo_seg.specs.Nearer.{IsUpTo, IsDistance};
ghost use Rattle.geo_seg.specs.Points.{IsOn, rational_point_of};
ghost use Rattle.geo_seg.specs.Boxes.{IsLeastBox, FitsCore};
ghost use Rattle.geo_seg.specs.Inside.{outline, EachEdge, SomeEdge};
ghost use Rattle.geo_seg.specs.RunBoxes.{IsRunBox};
ghost use Rattle.geo_poly.specs.OutlineEdges.{IsApart, IsReached, IsEnclosed};
ghost use Rattle.geo_poly.specs.EdgeRuns.{between, LiesClear, PassOdd, IsBeside};
ghost use Rattle.geo_poly.specs.OutlineSteps.{IsPast};

use crate::edges::{before, path_apart, path_within};
use crate::parity::{Step, ends_odd, path_odd};
use crate::walks::end;
use geo_seg::{Bounds, FIRST_RUN, FOURTH_RUN, Point, Poly, SECOND_RUN, Seg, THIRD_RUN};

/// Whether the box is at least `d` to the left of the other, above it or below it.
#[inline(always)]
fn is_beside(b: Bounds, near: Bounds, d: i64) -> bool
    requires first { FitsCore b }
    requires second { FitsCore near }
    requires range { IsUpTo (pos 2000000001) d }
    ensures { IsTrue result ↔ IsBeside b near d }
{
    // what is moved by d stays the same along a walk
    b.right <= near.left - d || (b.bottom <= near.top - d || near.bottom + d <= b.top)
}

/// What the box says of the edges from `low` up to `high`, which it holds, where it is clear of `near`:
/// whether an odd number passes to the right of the segment's first end.
#[inline(always)]
fn told_clear(
    b: Bounds,
    corners: &[Point],
    low: usize,
    high: usize,
    s: Seg,
    near: Bounds,
    d: i64,
) -> Option<bool>
    requires low { low < high }
    requires high { high ≤ length corners.now }
    requires hull { IsRunBox (between low high (outline corners.now)) b }
    requires near { IsLeastBox (IsOn s) near }
    requires fits { FitsCore near }
    requires range { IsUpTo (pos 2000000001) d }
    requires positive { pos 0 <ℤ d }
    ensures odd { IfSome result (λ odd. IsTrue odd ↔ PassOdd (rational_point_of s.a)
        (between low high (outline corners.now))) }
    ensures clear { IfSome result (λ odd. EachEdge (LiesClear near d)
        (between low high (outline corners.now))) }
{
    if is_beside(b, near, d) {
        Some(false)
    } else if near.right + d <= b.left {
        Some(ends_odd(corners, low, high, s.a))
    } else {
        None
    }
}

/// A step past the run of `size` edges from `low` on, where its box is kept and clear of `near`.
#[inline(always)]
fn clear_step(poly: &Poly, low: usize, size: usize, s: Seg, near: Bounds, d: i64) -> Option<Step>
    requires low { low < length poly.now }
    requires size { 0 < size }
    requires near { IsLeastBox (IsOn s) near }
    requires fits { FitsCore near }
    requires range { IsUpTo (pos 2000000001) d }
    requires positive { pos 0 <ℤ d }
    ensures { IfSome result (IsPast (EachEdge (LiesClear near d)) poly.now
        (rational_point_of s.a) low) }
{
    let b = poly.run_box(low, size)?;
    let corners = poly.corners();
    let high = end(low, size, corners.len());
    let odd = told_clear(b, corners, low, high, s, near, d)?;
    Some(Step { high, odd })
}

/// Such a step past a run of the longest two sizes.
#[inline(always)]
fn longest_step(poly: &Poly, low: usize, s: Seg, near: Bounds, d: i64) -> Option<Step>
    requires low { low < length poly.now }
    requires near { IsLeastBox (IsOn s) near }
    requires fits { FitsCore near }
    requires range { IsUpTo (pos 2000000001) d }
    requires positive { pos 0 <ℤ d }
    ensures { IfSome result (IsPast (EachEdge (LiesClear near d)) poly.now
        (rational_point_of s.a) low) }
{
    if low % THIRD_RUN != 0 {
        None
    } else if let Some(step) = clear_step(poly, low, FOURTH_RUN, s, near, d) {
        Some(step)
    } else {
        clear_step(poly, low, THIRD_RUN, s, near, d)
    }
}

/// Such a step past a run of more than a few edges.
#[inline(always)]
fn long_step(poly: &Poly, low: usize, s: Seg, near: Bounds, d: i64) -> Option<Step>
    requires low { low < length poly.now }
    requires near { IsLeastBox (IsOn s) near }
    requires fits { FitsCore near }
    requires range { IsUpTo (pos 2000000001) d }
    requires positive { pos 0 <ℤ d }
    ensures { IfSome result (IsPast (EachEdge (LiesClear near d)) poly.now
        (rational_point_of s.a) low) }
{
    if low % SECOND_RUN != 0 {
        None
    } else if let Some(step) = longest_step(poly, low, s, near, d) {
        Some(step)
    } else {
        clear_step(poly, low, SECOND_RUN, s, near, d)
    }
}

/// The longest such step.
#[inline(always)]
fn any_step(poly: &Poly, low: usize, s: Seg, near: Bounds, d: i64) -> Option<Step>
    requires low { low < length poly.now }
    requires near { IsLeastBox (IsOn s) near }
    requires fits { FitsCore near }
    requires range { IsUpTo (pos 2000000001) d }
    requires positive { pos 0 <ℤ d }
    ensures { IfSome result (IsPast (EachEdge (LiesClear near d)) poly.now
        (rational_point_of s.a) low) }
{
    if let Some(step) = long_step(poly, low, s, near, d) {
        Some(step)
    } else {
        clear_step(poly, low, FIRST_RUN, s, near, d)
    }
}

/// A step past a few edges, looking at each, where all are apart from the segment.
fn near_step(poly: &Poly, low: usize, s: Seg, d: i64) -> Option<Step>
    requires low { low < length poly.now }
    requires range { IsDistance d }
    ensures past { IfSome result (IsPast (EachEdge (λ e. IsApart e s d)) poly.now
        (rational_point_of s.a) low) }
    ensures stuck { IfNone result (¬ (EachEdge (λ e. IsApart e s d) (outline poly.now))) }
{
    let corners = poly.corners();
    let high = end(low, FIRST_RUN, corners.len());
    let from = before(corners, low);
    let part = &corners[low..high];
    if path_apart(from, part, s, d) {
        let odd = path_odd(from, part, s.a);
        Some(Step { high, odd })
    } else {
        None
    }
}

/// A step past edges that are apart from the segment, whose box is `near`, or none where some edge is not.
#[inline(always)]
fn apart_step(poly: &Poly, low: usize, s: Seg, near: Bounds, d: i64) -> Option<Step>
    requires low { low < length poly.now }
    requires near { IsLeastBox (IsOn s) near }
    requires fits { FitsCore near }
    requires range { IsDistance d }
    requires positive { pos 0 <ℤ d }
    ensures past { IfSome result (IsPast (EachEdge (λ e. IsApart e s d)) poly.now
        (rational_point_of s.a) low) }
    ensures stuck { IfNone result (¬ (EachEdge (λ e. IsApart e s d) (outline poly.now))) }
{
    if let Some(step) = any_step(poly, low, s, near, d) {
        Some(step)
    } else {
        near_step(poly, low, s, d)
    }
}

/// Whether each edge of the polygon is apart from the segment, which begins outside.
pub(crate) fn is_beyond(poly: &Poly, s: Seg, d: i64) -> bool
    requires range { IsDistance d }
    requires positive { pos 0 <ℤ d }
    ensures { IsTrue result ↔ ((¬ (IsEnclosed poly.now (rational_point_of s.a)))
        × EachEdge (λ e. IsApart e s d) (outline poly.now)) }
{
    let corners = poly.corners();
    if poly.run_box(0, FIRST_RUN).is_none() {
        let from = before(corners, 0);
        return !path_odd(from, corners, s.a) && path_apart(from, corners, s, d);
    }
    let near = s.bounds();
    let all = corners.len();
    let mut low = 0;
    let mut odd = false;
    'steps: while low < all {
        match apart_step(poly, low, s, near, d) {
            Some(step) => {
                odd = odd != step.odd;
                low = step.high;
            }
            None => return false,
        }
    }
    !odd
}

/// A step past a few edges, looking at each, where none is within d of the segment.
fn far_step(poly: &Poly, low: usize, s: Seg, d: i64) -> Option<Step>
    requires low { low < length poly.now }
    requires range { IsDistance d }
    ensures past { IfSome result (IsPast (λ es. ¬ (SomeEdge (λ e. IsReached e s d) es)) poly.now
        (rational_point_of s.a) low) }
    ensures stuck { IfNone result (SomeEdge (λ e. IsReached e s d) (outline poly.now)) }
{
    let corners = poly.corners();
    let high = end(low, FIRST_RUN, corners.len());
    let from = before(corners, low);
    let part = &corners[low..high];
    if path_within(from, part, s, d) {
        None
    } else {
        let odd = path_odd(from, part, s.a);
        Some(Step { high, odd })
    }
}

/// A step past edges of which none is within d of the segment, whose box is `near`, or none where some edge is.
#[inline(always)]
fn beyond_step(poly: &Poly, low: usize, s: Seg, near: Bounds, d: i64) -> Option<Step>
    requires low { low < length poly.now }
    requires near { IsLeastBox (IsOn s) near }
    requires fits { FitsCore near }
    requires range { IsDistance d }
    ensures past { IfSome result (IsPast (λ es. ¬ (SomeEdge (λ e. IsReached e s d) es)) poly.now
        (rational_point_of s.a) low) }
    ensures stuck { IfNone result (SomeEdge (λ e. IsReached e s d) (outline poly.now)) }
{
    if let Some(step) = any_step(poly, low, s, near, d + 1) {
        Some(step)
    } else {
        far_step(poly, low, s, d)
    }
}

/// Whether some edge of the polygon is within d of the segment, or the segment begins inside.
pub(crate) fn is_reached(poly: &Poly, s: Seg, d: i64) -> bool
    requires { IsDistance d }
    ensures { IsTrue result ↔ (IsEnclosed poly.now (rational_point_of s.a)
        ⊎ SomeEdge (λ e. IsReached e s d) (outline poly.now)) }
{
    let corners = poly.corners();
    if poly.run_box(0, FIRST_RUN).is_none() {
        let from = before(corners, 0);
        return path_odd(from, corners, s.a) || path_within(from, corners, s, d);
    }
    let near = s.bounds();
    let all = corners.len();
    let mut low = 0;
    let mut odd = false;
    'steps: while low < all {
        match beyond_step(poly, low, s, near, d) {
            Some(step) => {
                odd = odd != step.odd;
                low = step.high;
            }
            None => return true,
        }
    }
    odd
}
