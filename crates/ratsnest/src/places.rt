//! Anchors and links by their places in a list of anchors. None of these calls takes memory.

ghost use Rattle.std.specs.Prelude.{◌≡◌, ◌<◌, ◌^◌, ◌↔◌, IsTrue, length, ◌≤◌, unsigned_abs, ◌-ℤ◌, ◌*◌};
ghost use Rattle.ratsnest.specs.CoordinateRange.{IsInReach};
ghost use Rattle.ratsnest.specs.NestOf.{group_at, group_count, square_of, square_between};
ghost use Rattle.ratsnest.specs.Grow.{rank, link_at, link_with_places};

use crate::anchor::Anchor;
use crate::link::Link;

#[tactic(auto, unfolding(crate::specs::NestOf::group_at))]
pub(crate) fn group_of(anchors: &[Anchor], i: usize) -> u32
    requires { i < length anchors.now }
    ensures { result ≡ group_at anchors.now i }
{
    anchors[i].group
}

/// The square of the difference.
fn square_apart(a: i64, b: i64) -> u64
    requires a { IsInReach a }
    requires b { IsInReach b }
    ensures value { result ≡ unsigned_abs (a -ℤ b) * unsigned_abs (a -ℤ b) }
    ensures bound { result ≤ 1000000000000000000 }
{
    let apart = a - b;
    (apart * apart) as u64
}

/// The square of the distance.
pub(crate) fn square(a: Anchor, b: Anchor) -> u64
    ensures { result ≡ square_of a b }
{
    square_apart(a.x, b.x) + square_apart(a.y, b.y)
}

#[tactic(auto, unfolding(crate::specs::NestOf::square_between))]
fn square_at(anchors: &[Anchor], i: usize, j: usize) -> u64
    requires i { i < length anchors.now }
    requires j { j < length anchors.now }
    ensures { result ≡ square_between anchors.now i j }
{
    square(anchors[i], anchors[j])
}

/// The link of two anchors.
#[tactic(auto, unfolding(crate::specs::Grow::link_at))]
pub(crate) fn link_of(anchors: &[Anchor], i: usize, j: usize) -> Link
    requires few { length anchors.now < 2 ^ 32 }
    requires i { i < length anchors.now }
    requires j { j < length anchors.now }
    ensures { result ≡ link_at anchors.now i j }
{
    let first = i.min(j);
    let second = i.max(j);
    Link {
        square: square_at(anchors, first, second),
        first: first as u32,
        second: second as u32,
    }
}

/// The link of two anchors, each given with its place.
pub(crate) fn link_with_places(a: Anchor, i: u32, b: Anchor, j: u32) -> Link
    ensures { result ≡ link_with_places a i b j }
{
    Link {
        square: square(a, b),
        first: i.min(j),
        second: i.max(j),
    }
}

/// Whether the link a stands before b.
pub(crate) fn precedes(a: Link, b: Link) -> bool
    ensures { IsTrue result ↔ (rank a < rank b) }
{
    a.square < b.square
        || a.square == b.square && (a.first < b.first || a.first == b.first && a.second < b.second)
}

/// Whether the link stands before all links of this square.
pub(crate) fn is_below(link: Link, square: u64) -> bool
    ensures { IsTrue result → rank link < square * 18446744073709551616 }
{
    link.square < square
}

/// How many groups there are.
#[tactic(auto, unfolding(crate::specs::NestOf::group_count))]
pub(crate) fn count_groups(anchors: &[Anchor]) -> usize
    ensures { result ≡ group_count anchors.now }
{
    let mut count = 0;
    for anchor in anchors {
        count = count.max(anchor.group as usize + 1);
    }
    count
}
