//! The two ends of a track.

ghost use Rattle.std.specs.Prelude.{◌≡◌, ◌≢◌, ◌*ℤ◌, ℤ, pos, MatchOption, Some};
ghost use Rattle.ratsnest.specs.CoordinateRange.{IsInReach};
ghost use Rattle.net_groups.specs.Anchors.{core_end, copper_end, track_end, IsAnchorPoint};

use board_items::{Item, Nm, Part, What};
use geo_seg::{Core, Point};

/// A place on the board, in nanometres.
#[derive(Clone, Copy, Drop)]
pub(crate) struct AnchorPoint {
    pub(crate) x: Nm,
    pub(crate) y: Nm,
    ghost x_in_range: { IsInReach x },
    ghost y_in_range: { IsInReach y },
}

fn core_end(core: &Core) -> Option<Point>
    ensures { result ≡ core_end core.now }
{
    match core {
        Core::Line(line) => Some(line.b),
        Core::Area(_) => None,
    }
}

fn copper_end(parts: &[Part]) -> Option<Point>
    ensures { result ≡ copper_end parts.now }
{
    match parts.first() {
        Some(part) => core_end(&part.shape.core),
        None => None,
    }
}

fn track_end(item: &Item) -> Option<Point>
    ensures { result ≡ track_end item.now.what item.now.copper }
{
    match item.what {
        What::Track { .. } => copper_end(item.copper.as_slice()),
        _ => None,
    }
}

/// The half of a number that is even.
fn half(z: i64) -> Option<i64>
    ensures { MatchOption result ((x : ℤ) → pos 2 *ℤ x ≢ z) (λ x. pos 2 *ℤ x ≡ z) }
{
    if z % 2 == 0 { Some(z / 2) } else { None }
}

/// The point in nanometres. A point between two nanometres is none.
fn anchor_point_at(p: Point) -> Option<AnchorPoint>
    ensures { MatchOption result
        ((x y : ℤ) → ¬ (IsAnchorPoint (Some p) x y)) (λ anchor_point.
        IsAnchorPoint (Some p) anchor_point.x anchor_point.y) }
{
    let x = half(p.x)?;
    let y = half(p.y)?;
    Some(AnchorPoint { x, y })
}

/// The other end of a track; its position is the first.
pub(crate) fn far_end(item: &Item) -> Option<AnchorPoint>
    ensures { MatchOption result
        ((x y : ℤ)
        → ¬ (IsAnchorPoint (track_end item.now.what item.now.copper) x y)) (λ anchor_point.
        IsAnchorPoint (track_end item.now.what item.now.copper) anchor_point.x anchor_point.y) }
{
    match track_end(item) {
        Some(end) => anchor_point_at(end),
        None => None,
    }
}
