// Two shapes.

ghost use Rattle.std.specs.Prelude.{◌≡◌, ℤ, ◌≤ℤ◌, ◌+ℤ◌, ◌*ℤ◌, ◌⊎◌, pos, IsTrue, ◌↔◌};
ghost use Rattle.geo_seg.specs.Points.{IsOn};
ghost use Rattle.geo_seg.specs.Inside.{IsInside};
ghost use Rattle.geo_seg.specs.Cores.{IsPointOf};
ghost use Rattle.geo_seg.specs.Nearer.{IsUpTo, IsDistance, AreApart, AreWithin};
ghost use Rattle.geo_seg.specs.Distances.{Apart, Meet, IsGap};

use geo_poly::{poly_apart, poly_gap, poly_seg_apart, poly_seg_gap, poly_seg_within, poly_within};
use geo_seg::{Core, Poly, Seg, Shape, seg_apart, seg_gap, seg_within};

/// `cores_apart` for a segment and any core.
fn seg_core_apart(s: Seg, core: &Core, d: i64) -> bool
    requires { IsDistance d }
    ensures { IsTrue result ↔ AreApart (IsPointOf core.now) (IsOn s) d }
{
    match core {
        Core::Line(t) => seg_apart(*t, s, d),
        Core::Area(p) => poly_seg_apart(p, s, d),
    }
}

/// Whether a point of the segment and a point of the core are at most d half nanometres from each other.
fn seg_core_within(s: Seg, core: &Core, d: i64) -> bool
    requires { IsDistance d }
    ensures { IsTrue result ↔ AreWithin (IsPointOf core.now) (IsOn s) d }
{
    match core {
        Core::Line(t) => seg_within(*t, s, d),
        Core::Area(p) => poly_seg_within(p, s, d),
    }
}

fn poly_core_apart(poly: &Poly, core: &Core, d: i64) -> bool
    requires { IsDistance d }
    ensures { IsTrue result ↔ AreApart (IsInside poly.now) (IsPointOf core.now) d }
{
    match core {
        Core::Line(s) => poly_seg_apart(poly, *s, d),
        Core::Area(p) => poly_apart(poly, p, d),
    }
}

fn poly_core_within(poly: &Poly, core: &Core, d: i64) -> bool
    requires { IsDistance d }
    ensures { IsTrue result ↔ AreWithin (IsInside poly.now) (IsPointOf core.now) d }
{
    match core {
        Core::Line(s) => poly_seg_within(poly, *s, d),
        Core::Area(p) => poly_within(poly, p, d),
    }
}

/// Whether no points of the cores are nearer to each other than d.
fn cores_apart(a: &Core, b: &Core, d: i64) -> bool
    requires { IsDistance d }
    ensures { IsTrue result ↔ AreApart (IsPointOf a.now) (IsPointOf b.now) d }
{
    match a {
        Core::Line(s) => seg_core_apart(*s, b, d),
        Core::Area(p) => poly_core_apart(p, b, d),
    }
}

/// Whether some points of the cores are at most d apart.
fn cores_within(a: &Core, b: &Core, d: i64) -> bool
    requires { IsDistance d }
    ensures { IsTrue result ↔ AreWithin (IsPointOf a.now) (IsPointOf b.now) d }
{
    match a {
        Core::Line(s) => seg_core_within(*s, b, d),
        Core::Area(p) => poly_core_within(p, b, d),
    }
}

/// How far apart the cores are where the shapes are c apart.
fn reach(a: &Shape, b: &Shape, c: i64) -> i64
    requires { IsUpTo (pos 1000000000) c }
    ensures value { result ≡ a.now.radius +ℤ b.now.radius +ℤ c }
    ensures range { IsDistance result }
{
    a.radius + b.radius + c
}

/// Whether no points of the two cores are nearer to each other than the two radii and `c` together.
/// `c` is from 0 to 1,000,000,000 half nanometres.
pub fn apart(a: &Shape, b: &Shape, c: i64) -> bool
    requires { IsUpTo (pos 1000000000) c }
    ensures { IsTrue result ↔ Apart a.now b.now c }
{
    cores_apart(&a.core, &b.core, reach(a, b, c))
}

/// Whether the two touch or overlap. Touching counts.
pub fn meet(a: &Shape, b: &Shape) -> bool
    ensures { IsTrue result ↔ Meet a.now b.now }
{
    cores_within(&a.core, &b.core, reach(a, b, 0))
}

/// `cores_gap` for a segment and any core.
fn seg_core_gap(s: Seg, core: &Core, most: i64) -> i64
    requires { IsDistance most }
    ensures { IsGap (λ d. AreApart (IsPointOf core.now) (IsOn s) d) most result }
{
    match core {
        Core::Line(t) => seg_gap(*t, s, most),
        Core::Area(p) => poly_seg_gap(p, s, most),
    }
}

fn poly_core_gap(poly: &Poly, core: &Core, most: i64) -> i64
    requires { IsDistance most }
    ensures { IsGap (λ d. AreApart (IsInside poly.now) (IsPointOf core.now) d) most result }
{
    match core {
        Core::Line(s) => poly_seg_gap(poly, *s, most),
        Core::Area(p) => poly_gap(poly, p, most),
    }
}

/// The greatest whole number from 1 to `most` that is a distance at which no points of the cores are nearer to
/// each other, or 0.
fn cores_gap(a: &Core, b: &Core, most: i64) -> i64
    requires { IsDistance most }
    ensures { IsGap (λ d. AreApart (IsPointOf a.now) (IsPointOf b.now) d) most result }
{
    match a {
        Core::Line(s) => seg_core_gap(*s, b, most),
        Core::Area(p) => poly_core_gap(p, b, most),
    }
}

/// What a distance of the cores leaves between the shapes, in whole nanometres.
fn half_beyond(radii: i64, kept: i64) -> i64
    requires radii { IsUpTo (pos 1000000000) radii }
    requires kept { IsDistance kept }
    ensures from { pos 0 ≤ℤ result }
    ensures kept { (result ≡ pos 0) ⊎ (radii +ℤ pos 2 *ℤ result) ≤ℤ kept }
    ensures greatest { (g : ℤ) → pos 1 ≤ℤ g → (radii +ℤ pos 2 *ℤ g) ≤ℤ kept → g ≤ℤ result }
{
    if kept < radii {
        0
    } else {
        i64::from((kept - radii) as u32 / 2)
    }
}

/// The greatest whole number of nanometres from 1 to `below` that the two are apart, or 0 where there
/// is none. `below` is from 0 to 500,000,000 nanometres.
pub fn gap(a: &Shape, b: &Shape, below: i64) -> i64
    requires { IsUpTo (pos 500000000) below }
    ensures { IsGap (λ g. Apart a.now b.now (pos 2 *ℤ g)) below result }
{
    let kept = cores_gap(&a.core, &b.core, reach(a, b, 2 * below));
    half_beyond(a.radius + b.radius, kept)
}
