//! Areas, and how far they are from an anchor. None of these calls takes memory.

ghost use Rattle.std.specs.Prelude.{◌≡◌, ◌<◌, ◌≤◌, ◌*◌, ◌≤ℤ◌, ℕ, ℤ, ◌-ℤ◌, unsigned_abs, length};
ghost use Rattle.ratsnest.specs.declared.anchor.Anchor.{Anchor};
ghost use Rattle.ratsnest.specs.NestOf.{square_of};
ghost use Rattle.ratsnest.specs.CoordinateRange.{IsInReach};
ghost use Rattle.ratsnest.specs.Forest.{Covers, IsLinkInside, indexed_anchor_at};

use crate::anchor::Anchor;
use crate::indexed_anchor::IndexedAnchor;
use crate::span::Span;

/// The places whose coordinates are in both spans.
#[derive(Clone, Copy, Drop)]
pub(crate) struct Area {
    pub(crate) x: Span,
    pub(crate) y: Span,
}

fn empty() -> Span {
    Span {
        low: 500_000_000,
        high: -500_000_000,
    }
}

fn lower(a: i64, b: i64) -> i64
    requires a { IsInReach a }
    requires b { IsInReach b }
    ensures reach { IsInReach result }
    ensures first { result ≤ℤ a }
    ensures second { result ≤ℤ b }
{
    if a < b { a } else { b }
}

fn higher(a: i64, b: i64) -> i64
    requires a { IsInReach a }
    requires b { IsInReach b }
    ensures reach { IsInReach result }
    ensures first { a ≤ℤ result }
    ensures second { b ≤ℤ result }
{
    if a < b { b } else { a }
}

/// The span with this coordinate.
fn with(span: Span, z: i64) -> Span
    requires { IsInReach z }
    ensures here { Covers result z }
    ensures rest { (w : ℤ) → Covers span w → Covers result w }
{
    Span {
        low: lower(span.low, z),
        high: higher(span.high, z),
    }
}

/// The area with this anchor.
fn with_anchor(area: Area, anchor: Anchor) -> Area
    ensures here { IsLinkInside result anchor }
    ensures rest { (a : Anchor) → IsLinkInside area a → IsLinkInside result a }
{
    Area {
        x: with(area.x, anchor.x),
        y: with(area.y, anchor.y),
    }
}

/// An area that holds the anchors from the place `low` up to `high`.
pub(crate) fn area_of(indexed_anchors: &[IndexedAnchor], low: usize, high: usize) -> Area
    ensures { (i : ℕ) → low ≤ i → i < high → i < length indexed_anchors.now
        → IsLinkInside result (indexed_anchor_at indexed_anchors.now i).anchor }
{
    let mut area = Area {
        x: empty(),
        y: empty(),
    };
    for i in low..high.min(indexed_anchors.len()) {
        area = with_anchor(area, indexed_anchors[i].anchor);
    }
    area
}

/// How wide a span is.
pub(crate) fn width(span: Span) -> i64 {
    span.high.saturating_sub(span.low)
}

/// How far a coordinate is from a span, at least.
fn gap(span: Span, z: i64) -> u64
    requires { IsInReach z }
    ensures least { (w : ℤ) → Covers span w → result ≤ unsigned_abs (z -ℤ w) }
    ensures bound { result ≤ 1000000000 }
{
    if z < span.low {
        z.abs_diff(span.low)
    } else if span.high < z {
        z.abs_diff(span.high)
    } else {
        0
    }
}

fn squared(n: u64) -> u64
    requires { n ≤ 1000000000 }
    ensures value { result ≡ n * n }
    ensures bound { result ≤ 1000000000000000000 }
{
    n * n
}

/// The square of the distance of an anchor from an area, at most: no anchor of the area is nearer.
pub(crate) fn square_from(anchor: Anchor, area: Area) -> u64
    ensures { (a : Anchor) → IsLinkInside area a → result ≤ square_of anchor a }
{
    squared(gap(area.x, anchor.x)) + squared(gap(area.y, anchor.y))
}
