// How near points and segments are, with no rounding. Most pairs of a board are far apart, so boxes
// are compared first, and products are formed only where these do not decide.

ghost use Rattle.std.specs.Prelude.{◌≡◌, ◌≤◌, ◌*ℤ◌, true, unsigned_abs, IsTrue, ◌↔◌};
ghost use Rattle.geo_seg.specs.Points.{IsAt, IsOn};
ghost use Rattle.geo_seg.specs.Nearer.{IsDistance, square, AreApart, AreWithin, DoMeet};
ghost use Rattle.geo_seg.specs.Gap.{IsLeastGap, IsFramed, IsCrossing, IsEndReached, AreEndsApart};

use crate::points::{Point, Seg};
use crate::vectors::{between, cross, dot, large_product, product};

/// A squared distance, as the fraction top / under.
#[derive(Clone, Copy, Drop)]
struct Gap {
    top: i128,
    under: i64,
}

/// The least squared distance of a point and a segment.
fn least_gap(p: Point, s: Seg) -> Gap
    ensures least { IsLeastGap p s result.top result.under }
    ensures under_in_range { unsigned_abs result.under ≤ 8000000000000000000 }
{
    let way = between(s.a, s.b);
    let from_start = between(s.a, p);
    let along = dot(way, from_start);
    let length = dot(way, way);
    if along <= 0 {
        return Gap {
            top: dot(from_start, from_start) as i128,
            under: 1,
        };
    }
    if along >= length {
        let from_end = between(s.b, p);
        return Gap {
            top: dot(from_end, from_end) as i128,
            under: 1,
        };
    }
    let across = cross(way, from_start);
    Gap {
        top: large_product(across, across),
        under: length,
    }
}

/// The square of d, times the denominator of a gap.
fn limit(d: i64, under: i64) -> i128
    requires range { IsDistance d }
    requires under_in_range { unsigned_abs under ≤ 8000000000000000000 }
    ensures { result ≡ square d *ℤ under }
{
    large_product(product(d, d), under)
}

/// `point_apart` by products.
fn is_point_off(p: Point, s: Seg, d: i64) -> bool
    requires { IsDistance d }
    ensures { IsTrue result ↔ AreApart (IsAt p) (IsOn s) d }
{
    let gap = least_gap(p, s);
    gap.top >= limit(d, gap.under)
}

/// `point_within` by products.
fn is_point_close(p: Point, s: Seg, d: i64) -> bool
    requires { IsDistance d }
    ensures { IsTrue result ↔ AreWithin (IsAt p) (IsOn s) d }
{
    let gap = least_gap(p, s);
    gap.top <= limit(d, gap.under)
}

/// Whether no point of the segment is nearer to `p` than `d`, which is from 0 to 2,000,000,000 half
/// nanometres.
pub fn point_apart(p: Point, s: Seg, d: i64) -> bool
    requires { IsDistance d }
    ensures { IsTrue result ↔ AreApart (IsAt p) (IsOn s) d }
{
    p.bounds().is_clear(s.bounds(), d) || is_point_off(p, s, d)
}

/// Whether some point of the segment is at most `d` from `p`, for `d` from 0 to 2,000,000,000 half
/// nanometres.
pub fn point_within(p: Point, s: Seg, d: i64) -> bool
    requires { IsDistance d }
    ensures { IsTrue result ↔ AreWithin (IsAt p) (IsOn s) d }
{
    !p.bounds().is_clear(s.bounds(), d + 1) && is_point_close(p, s, d)
}

fn is_framed(whole: i64, part_a: i64, part_b: i64) -> bool
    ensures { IsTrue result ↔ IsFramed whole part_a part_b }
{
    0 < whole && 0 <= part_a && part_a <= whole && 0 <= part_b && part_b <= whole
}

/// Whether the segments are not parallel, and meet.
pub(crate) fn crosses(a: Seg, b: Seg) -> bool
    ensures { IsTrue result ↔ IsCrossing a b }
{
    let way_a = between(a.a, a.b);
    let way_b = between(b.a, b.b);
    let from_b = between(b.a, a.a);
    let whole = cross(way_a, way_b);
    let part_a = cross(way_b, from_b);
    let part_b = cross(way_a, from_b);
    is_framed(whole, part_a, part_b) || is_framed(-whole, -part_a, -part_b)
}

fn ends_within(ends: Seg, s: Seg, d: i64) -> bool
    requires { IsDistance d }
    ensures { IsTrue result ↔ IsEndReached ends s d }
{
    point_within(ends.a, s, d) || point_within(ends.b, s, d)
}

fn ends_apart(ends: Seg, s: Seg, d: i64) -> bool
    requires { IsDistance d }
    ensures { IsTrue result ↔ AreEndsApart ends s d }
{
    point_apart(ends.a, s, d) && point_apart(ends.b, s, d)
}

/// `seg_apart` by products.
fn are_off(a: Seg, b: Seg, d: i64) -> bool
    requires { IsDistance d }
    ensures { IsTrue result ↔ AreApart (IsOn a) (IsOn b) d }
{
    d == 0 || !crosses(a, b) && ends_apart(a, b, d) && ends_apart(b, a, d)
}

/// `seg_within` by products.
fn are_close(a: Seg, b: Seg, d: i64) -> bool
    requires { IsDistance d }
    ensures { IsTrue result ↔ AreWithin (IsOn a) (IsOn b) d }
{
    crosses(a, b) || ends_within(a, b, d) || ends_within(b, a, d)
}

/// Whether boxes alone tell that the segments are apart at d. Only a yes is sure.
pub(crate) fn boxes_apart(a: Seg, b: Seg, d: i64) -> bool
    requires { IsDistance d }
    ensures { result ≡ true → AreApart (IsOn a) (IsOn b) d }
{
    a.bounds().is_clear(b.bounds(), d)
}

/// Whether no point of `a` and point of `b` are nearer to each other than `d`, which is from 0 to
/// 2,000,000,000 half nanometres.
pub fn seg_apart(a: Seg, b: Seg, d: i64) -> bool
    requires { IsDistance d }
    ensures { IsTrue result ↔ AreApart (IsOn a) (IsOn b) d }
{
    a.bounds().is_clear(b.bounds(), d) || are_off(a, b, d)
}

/// Whether the distance between the two segments is at most `d`, for `d` from 0 to 2,000,000,000
/// half nanometres.
pub fn seg_within(a: Seg, b: Seg, d: i64) -> bool
    requires { IsDistance d }
    ensures { IsTrue result ↔ AreWithin (IsOn a) (IsOn b) d }
{
    !a.bounds().is_clear(b.bounds(), d + 1) && are_close(a, b, d)
}

/// Whether the segments share a point.
pub fn seg_meet(a: Seg, b: Seg) -> bool
    ensures { IsTrue result ↔ DoMeet (IsOn a) (IsOn b) }
{
    seg_within(a, b, 0)
}
