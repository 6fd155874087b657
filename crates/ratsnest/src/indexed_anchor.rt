//! Anchors with their places.

ghost use Rattle.std.specs.Prelude.{◌≡◌, ◌<◌, ◌≤◌, ◌^◌, ℕ, length, IfOk, IsTrue};
ghost use Rattle.ratsnest.specs.declared.link.Link.{Link};
ghost use Rattle.ratsnest.specs.Grow.{rank};
ghost use Rattle.ratsnest.specs.Forest.{link_between, indexed_anchor_at, IsIndexedAnchorOf, IsDrawn};

use crate::anchor::Anchor;
use crate::link::Link;
use crate::places::{is_below, link_with_places, precedes, square};
use std::alloc::{AllocError, Global};

/// An anchor, and its place in the list of anchors.
#[derive(Clone, Copy, Drop)]
pub(crate) struct IndexedAnchor {
    pub(crate) anchor: Anchor,
    pub(crate) place: u32,
}

/// Whether the distance alone says that the link is no less than the one that is kept.
fn is_farther(best: Link, from: &IndexedAnchor, to: &IndexedAnchor) -> bool
    ensures { IsTrue result → rank best ≤ rank (link_between from.now to.now) }
{
    is_below(best, square(from.anchor, to.anchor))
}

/// Keeps the link of the two if it is less.
#[tactic(auto, unfolding(crate::specs::Forest::link_between))]
pub(crate) fn draw(best: &mut Link, from: &IndexedAnchor, to: &IndexedAnchor)
    ensures { IsDrawn from.now to.now best.old best.new }
{
    if is_farther(*best, from, to) {
        return;
    }
    let link = link_with_places(from.anchor, from.place, to.anchor, to.place);
    if precedes(link, *best) {
        *best = link;
    }
}

/// Each anchor with its place.
pub(crate) fn all_indexed_anchors(
    alloc: Global,
    anchors: &[Anchor],
) -> Result<Vec<IndexedAnchor>, AllocError>
    requires few { length anchors.now < 2 ^ 32 }
    ensures len { IfOk result (λ v. length v.items ≡ length anchors.now) }
    ensures each { IfOk result (λ v. (k : ℕ) → k < length v.items
        → IsIndexedAnchorOf anchors.now k (indexed_anchor_at v.items k)) }
{
    let mut indexed_anchors = Vec::new(alloc);
    for place in 0..anchors.len() {
        indexed_anchors.push(IndexedAnchor {
            anchor: anchors[place],
            place: place as u32,
        })?;
    }
    Ok(indexed_anchors)
}
