// Walks along the outline of a polygon, which pass over runs of edges that lie far away: where the
// polygon keeps the box of a run, and the box decides.

ghost use Rattle.std.specs.Prelude.{◌≡◌, ◌<◌, ◌≤◌, List, pos, IsTrue, length, take, drop};
ghost use Rattle.geo_seg.specs.Nearer.{IsUpTo, IsDistance};
ghost use Rattle.geo_seg.specs.declared.points.Seg.{Seg};
ghost use Rattle.geo_seg.specs.Points.{IsOn};
ghost use Rattle.geo_seg.specs.Boxes.{IsLeastBox, FitsCore};
ghost use Rattle.geo_seg.specs.Inside.{outline, EachEdge};
ghost use Rattle.geo_poly.specs.OutlineEdges.{IsApart};
ghost use Rattle.geo_poly.specs.EdgeRuns.{between, LiesClear};

use crate::edges::{before, path_apart};
use geo_seg::{Bounds, FIRST_RUN, FOURTH_RUN, Poly, SECOND_RUN, Seg, THIRD_RUN};

/// Where the run of `size` edges from `low` on ends, of so many in all.
pub(crate) fn end(low: usize, size: usize, all: usize) -> usize
    requires low { low < all }
    requires size { 0 < size }
    ensures after { low < result }
    ensures within { result ≤ all }
    ensures run { (es : List Seg) → length es ≡ all
        → take size (drop low es) ≡ between low result es }
{
    if all - low > size { low + size } else { all }
}

/// Whether the polygon keeps the box of the run of `size` edges from `low` on, and that box is clear
/// of `near`.
fn is_run_clear(poly: &Poly, low: usize, size: usize, near: Bounds, d: i64) -> bool
    requires fits { FitsCore near }
    requires range { IsUpTo (pos 2000000001) d }
    ensures { IsTrue result → EachEdge (LiesClear near d)
        (take size (drop low (outline poly.now))) }
{
    match poly.run_box(low, size) {
        Some(b) => b.is_clear(near, d),
        None => false,
    }
}

/// Where the longest such run from `low` on ends, or `low` where there is none.
fn clear_run(poly: &Poly, low: usize, near: Bounds, d: i64) -> usize
    requires low { low < length poly.now }
    requires fits { FitsCore near }
    requires range { IsUpTo (pos 2000000001) d }
    ensures after { low ≤ result }
    ensures within { result ≤ length poly.now }
    ensures clear { EachEdge (LiesClear near d) (between low result (outline poly.now)) }
{
    let all = poly.corners().len();
    if is_run_clear(poly, low, FOURTH_RUN, near, d) {
        end(low, FOURTH_RUN, all)
    } else if is_run_clear(poly, low, THIRD_RUN, near, d) {
        end(low, THIRD_RUN, all)
    } else if is_run_clear(poly, low, SECOND_RUN, near, d) {
        end(low, SECOND_RUN, all)
    } else if is_run_clear(poly, low, FIRST_RUN, near, d) {
        end(low, FIRST_RUN, all)
    } else {
        low
    }
}

/// Where the last of such runs ends, one behind another from `low` on, or `low` where there is none.
fn clear_end(poly: &Poly, low: usize, near: Bounds, d: i64) -> usize
    requires low { low < length poly.now }
    requires fits { FitsCore near }
    requires range { IsUpTo (pos 2000000001) d }
    ensures after { low ≤ result }
    ensures within { result ≤ length poly.now }
    ensures clear { EachEdge (LiesClear near d) (between low result (outline poly.now)) }
{
    let all = poly.corners().len();
    let mut at = low;
    'runs: while at < all {
        let next = clear_run(poly, at, near, d);
        if next == at {
            return at;
        }
        at = next;
    }
    at
}

/// The end of a run of edges from `low` on that all keep the distance `d` from the segment, whose box is `near`. It is `low` only
/// where some edge of the polygon does not keep it.
pub(crate) fn apart_until(poly: &Poly, low: usize, s: Seg, near: Bounds, d: i64) -> usize
    requires low { low < length poly.now }
    requires near { IsLeastBox (IsOn s) near }
    requires fits { FitsCore near }
    requires range { IsDistance d }
    ensures after { low ≤ result }
    ensures within { result ≤ length poly.now }
    ensures apart { EachEdge (λ e. IsApart e s d) (between low result (outline poly.now)) }
    ensures stuck { result ≡ low → ¬ (EachEdge (λ e. IsApart e s d) (outline poly.now)) }
{
    let clear = clear_end(poly, low, near, d);
    if clear > low {
        return clear;
    }
    let corners = poly.corners();
    let high = end(low, FIRST_RUN, corners.len());
    if path_apart(before(corners, low), &corners[low..high], s, d) {
        high
    } else {
        low
    }
}
