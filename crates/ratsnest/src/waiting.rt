//! Anchors that are not reached yet, each with its least link from what is reached.

ghost use Rattle.std.specs.Prelude.{◌≡◌, ◌≢◌, ◌<◌, ◌≤◌, ◌^◌, ◌++◌, IsTrue, ℕ, length, OnOk, IfOk, All, [], slice_index_or};
ghost use Rattle.std.specs.List.Sorted.{IsPermutation};
ghost use Rattle.ratsnest.specs.declared.waiting.Waiting.{Waiting};
ghost use Rattle.ratsnest.specs.Grow.{rank, link_between, IsDrawn, IsDrawnToAll, IsDoubled, IsTold, IsReach, IsFromFirst, IsLed, AreFirst};

use crate::anchor::Anchor;
use crate::link::Link;
use crate::places::{is_below, link_of, link_with_places, precedes, square};
use std::alloc::{AllocError, Global};

/// Among so many that wait an anchor is looked for at the point of the next: an end of a track mostly stands at one of the last
/// before it.
const LAST: usize = 4;

/// An anchor that is not reached, its place in the list of anchors, and its least link from an anchor that is reached.
#[derive(Clone, Copy, Drop)]
pub(crate) struct Waiting {
    pub(crate) anchor: Anchor,
    pub(crate) place: u32,
    pub(crate) link: Link,
}

/// Whether the distance alone says that the link is no less than the one that is kept.
fn is_farther(held: &Waiting, from: &Waiting) -> bool
    ensures { IsTrue result → rank held.now.link ≤ rank (link_between from.now held.now) }
{
    is_below(held.link, square(from.anchor, held.anchor))
}

/// Keeps the link from this anchor if it is less.
#[tactic(auto, unfolding(crate::specs::Grow::link_between))]
fn draw(held: &mut Waiting, from: &Waiting)
    ensures { IsDrawn from.now held.old held.new }
{
    if is_farther(held, from) {
        return;
    }
    let link = link_with_places(from.anchor, from.place, held.anchor, held.place);
    if precedes(link, held.link) {
        held.link = link;
    }
}

fn draw_near(waiting: &mut [Waiting], from: &Waiting)
    ensures { (k : ℕ) (d : Waiting) → k < length waiting.new
        → IsDrawn from.now (slice_index_or waiting.old k d) (slice_index_or waiting.new k d) }
{
    for held in waiting.iter_mut() {
        draw(held, from);
    }
}

/// Whether the first stands at the point of the second, at a lower place in the list: then its links are less.
fn is_lower_twin(first: &Waiting, second: &Waiting) -> bool
    ensures { IsTrue result → (first.now.place < second.now.place)
        × (first.now.anchor.x ≡ second.now.anchor.x) × (first.now.anchor.y ≡ second.now.anchor.y) }
{
    first.anchor.x == second.anchor.x
        && first.anchor.y == second.anchor.y
        && first.place < second.place
}

/// Whether one of these anchors has lesser links than this one for that reason.
fn is_doubled(joined: &[Waiting], from: &Waiting) -> bool
    ensures { IsTrue result → IsDoubled joined.now from.now }
{
    for other in joined {
        if is_lower_twin(other, from) {
            return true;
        }
    }
    false
}

/// Keeps the links from one of these anchors, unless those from another of them are less. Ends of tracks often stand at the
/// point of another end; that is looked for only where it is far cheaper than to measure.
fn draw_once(waiting: &mut [Waiting], joined: &[Waiting], from: &Waiting)
    ensures { (k : ℕ) (d : Waiting) → k < length waiting.new
        → IsTold joined.now from.now (slice_index_or waiting.old k d)
        (slice_index_or waiting.new k d) }
{
    if joined.len() <= waiting.len() / 4 && is_doubled(joined, from) {
        return;
    }
    draw_near(waiting, from);
}

/// Keeps the least of the links from these anchors and the one that is kept.
fn draw_to_all(waiting: &mut [Waiting], joined: &[Waiting])
    ensures { (k : ℕ) (d : Waiting) → k < length waiting.new
        → IsDrawnToAll joined.now (slice_index_or waiting.old k d)
        (slice_index_or waiting.new k d) }
{
    for from in joined {
        draw_once(waiting, joined, from);
    }
}

/// Takes out the anchors of a group.
fn take_out(
    waiting: &mut Vec<Waiting>,
    joined: &mut Vec<Waiting>,
    group: u32,
) -> Result<(), AllocError>
    requires { joined.old.items ≡ [] }
    ensures all { OnOk result (IsPermutation waiting.old.items
        (joined.new.items ++ waiting.new.items)) }
    ensures joined { OnOk result (All (λ (w : Waiting). w.anchor.group ≡ group) joined.new.items) }
    ensures rest { OnOk result (All (λ (w : Waiting). w.anchor.group ≢ group) waiting.new.items) }
{
    let mut k = 0;
    while k < waiting.len() {
        if waiting[k].anchor.group == group {
            joined.push(waiting.swap_remove(k))?;
        } else {
            k += 1;
        }
    }
    Ok(())
}

/// The anchors of a group are reached: those that still wait keep their least links from them, too.
pub(crate) fn reach(
    waiting: &mut Vec<Waiting>,
    joined: &mut Vec<Waiting>,
    group: u32,
) -> Result<(), AllocError>
    ensures { OnOk result (IsReach group waiting.old.items waiting.new.items) }
{
    joined.clear();
    take_out(waiting, joined, group)?;
    draw_to_all(waiting, joined);
    Ok(())
}

/// The one that waits with the least link.
pub(crate) fn least(waiting: &[Waiting]) -> usize
    requires { 0 < length waiting.now }
    ensures within { result < length waiting.now }
    ensures least { (k : ℕ) (d : Waiting) → k < length waiting.now
        → rank (slice_index_or waiting.now result d).link
        ≤ rank (slice_index_or waiting.now k d).link }
{
    let mut least = 0;
    let mut link = waiting[0].link;
    for k in 1..waiting.len() {
        let other = waiting[k].link;
        if precedes(other, link) {
            least = k;
            link = other;
        }
    }
    least
}

/// Whether the one that waits is of the group of the anchor and at its point.
fn leads(held: &Waiting, anchor: Anchor) -> bool
    ensures { IsTrue result → (held.now.anchor.group ≡ anchor.group)
        × (held.now.anchor.x ≡ anchor.x) × (held.now.anchor.y ≡ anchor.y) }
{
    held.anchor.x == anchor.x && held.anchor.y == anchor.y && held.anchor.group == anchor.group
}

/// Whether one of the last that wait leads the anchor.
fn is_led(waiting: &[Waiting], anchor: Anchor) -> bool
    ensures { IsTrue result → IsLed waiting.now anchor }
{
    for k in waiting.len().saturating_sub(LAST)..waiting.len() {
        if leads(&waiting[k], anchor) {
            return true;
        }
    }
    false
}

/// The anchor with its link from the first.
fn first_of(anchors: &[Anchor], j: usize) -> Waiting
    requires few { length anchors.now < 2 ^ 32 }
    requires j { j < length anchors.now }
    ensures { IsFromFirst anchors.now j result }
{
    Waiting {
        anchor: anchors[j],
        place: j as u32,
        link: link_of(anchors, 0, j),
    }
}

/// The anchors with their links from the first, but for those that others just before them lead.
pub(crate) fn all_waiting(alloc: Global, anchors: &[Anchor]) -> Result<Vec<Waiting>, AllocError>
    requires few { length anchors.now < 2 ^ 32 }
    ensures { IfOk result (λ v. AreFirst anchors.now (length anchors.now) v.items) }
{
    let mut waiting = Vec::new(alloc);
    for j in 0..anchors.len() {
        if !is_led(&waiting, anchors[j]) {
            waiting.push(first_of(anchors, j))?;
        }
    }
    Ok(waiting)
}
