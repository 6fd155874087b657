// Boxes along the axes.

ghost use Rattle.std.specs.Prelude.{◌≡◌, ◌⊎◌, ℤ, ◌≤ℤ◌, ◌≤◌, ◌+ℤ◌, pos, unsigned_abs, IsTrue, ◌↔◌};
ghost use Rattle.geo_seg.specs.Boxes.{FitsWithin, IsUnion, IsClearOf, AreClear, FitsShape};
ghost use Rattle.geo_seg.specs.Nearer.{IsUpTo};

/// A box along the axes, in half nanometres. Its sides belong to it. As on a screen y grows
/// downward, so `top` is the least y.
#[derive(Clone, Copy, Debug, PartialEq, Eq, Drop)]
pub struct Bounds {
    pub left: i64,
    pub top: i64,
    pub right: i64,
    pub bottom: i64,
}

/// Whether the range that ends at `high` ends at least d before the one that begins at `low`.
fn is_before(high: i64, low: i64, d: i64) -> bool
    requires high { unsigned_abs high ≤ 1500000000 }
    requires range { IsUpTo (pos 2000000001) d }
    ensures { IsTrue result ↔ (high +ℤ d) ≤ℤ low }
{
    high + d <= low
}

/// The first box, made to reach as far left as the second.
fn to_left(a: Bounds, b: Bounds) -> Bounds
    ensures first { result.left ≤ℤ a.left }
    ensures second { result.left ≤ℤ b.left }
    ensures either { (result.left ≡ a.left) ⊎ (result.left ≡ b.left) }
    ensures others { result ≡ record a { left = result.left } }
{
    if a.left <= b.left {
        return a;
    }
    Bounds {
        left: b.left,
        top: a.top,
        right: a.right,
        bottom: a.bottom,
    }
}

/// The first box, made to reach as far up as the second.
fn to_top(a: Bounds, b: Bounds) -> Bounds
    ensures first { result.top ≤ℤ a.top }
    ensures second { result.top ≤ℤ b.top }
    ensures either { (result.top ≡ a.top) ⊎ (result.top ≡ b.top) }
    ensures others { result ≡ record a { top = result.top } }
{
    if a.top <= b.top {
        return a;
    }
    Bounds {
        left: a.left,
        top: b.top,
        right: a.right,
        bottom: a.bottom,
    }
}

/// The first box, made to reach as far right as the second.
fn to_right(a: Bounds, b: Bounds) -> Bounds
    ensures first { a.right ≤ℤ result.right }
    ensures second { b.right ≤ℤ result.right }
    ensures either { (result.right ≡ a.right) ⊎ (result.right ≡ b.right) }
    ensures others { result ≡ record a { right = result.right } }
{
    if b.right <= a.right {
        return a;
    }
    Bounds {
        left: a.left,
        top: a.top,
        right: b.right,
        bottom: a.bottom,
    }
}

/// The first box, made to reach as far down as the second.
fn to_bottom(a: Bounds, b: Bounds) -> Bounds
    ensures first { a.bottom ≤ℤ result.bottom }
    ensures second { b.bottom ≤ℤ result.bottom }
    ensures either { (result.bottom ≡ a.bottom) ⊎ (result.bottom ≡ b.bottom) }
    ensures others { result ≡ record a { bottom = result.bottom } }
{
    if b.bottom <= a.bottom {
        return a;
    }
    Bounds {
        left: a.left,
        top: a.top,
        right: a.right,
        bottom: b.bottom,
    }
}

impl Bounds {
    /// The least box that holds both.
    pub fn union(self, other: Bounds) -> Bounds
        ensures least { IsUnion self other result }
        ensures fits { (limit : ℤ) → FitsWithin limit self → FitsWithin limit other
            → FitsWithin limit result }
    {
        let columns = to_right(to_left(self, other), other);
        to_bottom(to_top(columns, other), other)
    }

    fn is_clear_in_x(self, other: Bounds, d: i64) -> bool
        requires first { FitsShape self }
        requires second { FitsShape other }
        requires range { IsUpTo (pos 2000000001) d }
        ensures { IsTrue result ↔ IsClearOf self.left self.right other.left other.right d }
    {
        is_before(self.right, other.left, d) || is_before(other.right, self.left, d)
    }

    fn is_clear_in_y(self, other: Bounds, d: i64) -> bool
        requires first { FitsShape self }
        requires second { FitsShape other }
        requires range { IsUpTo (pos 2000000001) d }
        ensures { IsTrue result ↔ IsClearOf self.top self.bottom other.top other.bottom d }
    {
        is_before(self.bottom, other.top, d) || is_before(other.bottom, self.top, d)
    }

    /// Whether the boxes are at least `d` apart in x or in y, for `d` from 0 to 2,000,000,001. Their sides
    /// are at most 1,500,000,000 from 0, as those of the bounds of a shape are.
    pub fn is_clear(self, other: Bounds, d: i64) -> bool
        requires first { FitsShape self }
        requires second { FitsShape other }
        requires range { IsUpTo (pos 2000000001) d }
        ensures { IsTrue result ↔ AreClear self other d }
    {
        self.is_clear_in_x(other, d) || self.is_clear_in_y(other, d)
    }
}
