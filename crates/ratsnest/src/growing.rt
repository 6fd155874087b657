//! The nest of few anchors, found by growing one group: again and again the least link that leaves what is reached.
//!
//! Of each anchor that is not reached yet the least link from what is reached is kept. So each two anchors of different groups
//! are measured once: growing takes the square of the number of anchors in time, and memory linear in it.

ghost use Rattle.std.specs.Prelude.{◌≡◌, ◌<◌, ◌≤◌, ◌^◌, ◌+◌, ◌-◌, ◌≢◌, ℕ, length, OnOk, slice_index_or, ◌⊎◌, false, IfOk, All, replicate, []};
ghost use Rattle.ratsnest.specs.declared.link.Link.{Link};
ghost use Rattle.ratsnest.specs.NestOf.{group_count, AnchorsRise, GroupsOccur, IsNest, HasPlaces, IsLeast, JoinAll};
ghost use Rattle.ratsnest.specs.Grow.{rank, AreChosen, AreFirst, IsGrown};
ghost use Rattle.ratsnest.specs.declared.waiting.Waiting.{Waiting};
ghost use Rattle.ratsnest.specs.Mem.{Mem, Climbs};

use crate::anchor::Anchor;
use crate::link::Link;
use crate::links::{Links, Nest};
use crate::places::{count_groups, group_of, precedes};
use crate::rounds::join_groups;
use crate::waiting::{Waiting, all_waiting, least, reach};
use std::alloc::{AllocError, Global};

/// So many anchors are joined faster by growing one group, which needs no tree.
const FEW: usize = 800;

/// The place of a link in the order, found by halves.
fn place_for(links: &[Link], link: Link) -> usize
    requires { Climbs rank links.now }
    ensures within { result ≤ length links.now }
    ensures below { (k : ℕ) (d : Link) → k < result
        → rank (slice_index_or links.now k d) < rank link }
    ensures stop { (d : Link) → result < length links.now
        → rank link ≤ rank (slice_index_or links.now result d) }
{
    let mut low = 0;
    let mut high = links.len();
    'halves: while low < high {
        let middle = low + (high - low) / 2;
        if precedes(links[middle], link) {
            low = middle + 1;
        } else {
            high = middle;
        }
    }
    low
}

/// Puts a link where it belongs in the order.
fn add_link(links: &mut Vec<Link>, link: Link) -> Result<(), AllocError>
    requires climbs { Climbs rank links.old.items }
    requires other { (l : Link) → Mem l links.old.items → rank l ≢ rank link }
    ensures climbs { OnOk result (Climbs rank links.new.items) }
    ensures len { OnOk result (length links.new.items ≡ length links.old.items + 1) }
    ensures whole { OnOk result ((l : Link) → (Mem l links.old.items ⊎ (l ≡ link))
        → Mem l links.new.items) }
    ensures sound { OnOk result ((l : Link) → Mem l links.new.items
        → Mem l links.old.items ⊎ (l ≡ link)) }
{
    let place = place_for(links, link);
    links.insert(place, link)?;
    Ok(())
}

/// The group of what waits with the least link is reached, by that link.
fn take_in(
    anchors: &[Anchor],
    reached: &mut [bool],
    waiting: &mut Vec<Waiting>,
    joined: &mut Vec<Waiting>,
    links: &mut Vec<Link>,
) -> Result<(), AllocError>
    requires rise { AnchorsRise anchors.now }
    requires few { length anchors.now < 2 ^ 32 }
    requires grown { IsGrown anchors.now reached.old waiting.old.items links.old.items }
    requires some { 0 < length waiting.old.items }
    ensures grown { OnOk result
        (IsGrown anchors.now reached.new waiting.new.items links.new.items) }
    ensures len { OnOk result (length links.new.items ≡ length links.old.items + 1) }
{
    let next = waiting[least(waiting)];
    add_link(links, next.link)?;
    reached[next.anchor.group as usize] = true;
    reach(waiting, joined, next.anchor.group)?;
    Ok(())
}

/// Grows until all is reached.
fn grow_on(
    anchors: &[Anchor],
    reached: &mut [bool],
    waiting: &mut Vec<Waiting>,
    joined: &mut Vec<Waiting>,
    links: &mut Vec<Link>,
) -> Result<(), AllocError>
    requires rise { AnchorsRise anchors.now }
    requires occur { GroupsOccur anchors.now }
    requires few { length anchors.now < 2 ^ 32 }
    requires grown { IsGrown anchors.now reached.old waiting.old.items links.old.items }
    ensures { OnOk result (AreChosen anchors.now links.new.items) }
{
    'grow: while !waiting.is_empty() {
        take_in(anchors, reached, waiting, joined, links)?;
    }
    Ok(())
}

/// Reaches the first anchor's group, and no other.
fn start(
    anchors: &[Anchor],
    reached: &mut [bool],
    waiting: &mut Vec<Waiting>,
    joined: &mut Vec<Waiting>,
) -> Result<(), AllocError>
    requires few { length anchors.now < 2 ^ 32 }
    requires some { 0 < length anchors.now }
    requires reached { reached.old ≡ replicate (group_count anchors.now) false }
    requires first { AreFirst anchors.now (length anchors.now) waiting.old.items }
    ensures { OnOk result (IsGrown anchors.now reached.new waiting.new.items []) }
{
    let group = group_of(anchors, 0);
    reached[group as usize] = true;
    reach(waiting, joined, group)?;
    Ok(())
}

/// The links of the nest.
#[tactic(auto, using(crate::proofs::Grown::chosen_few, crate::proofs::Grown::some_anchor))]
fn grow(alloc: Global, anchors: &[Anchor]) -> Result<Vec<Link>, AllocError>
    requires rise { AnchorsRise anchors.now }
    requires occur { GroupsOccur anchors.now }
    requires few { length anchors.now < 2 ^ 32 }
    ensures { IfOk result (λ links. AreChosen anchors.now links.items) }
{
    let mut links = Vec::new(alloc);
    let count = count_groups(anchors);
    if count < 2 {
        return Ok(links);
    }
    let mut reached = vec![in alloc; false; count]?;
    let mut waiting = all_waiting(alloc, anchors)?;
    let mut joined = Vec::new(alloc);
    start(anchors, &mut reached, &mut waiting, &mut joined)?;
    grow_on(anchors, &mut reached, &mut waiting, &mut joined, &mut links)?;
    Ok(links)
}

/// The links of the nest, found by growing one group or in rounds, whichever is faster for so many anchors.
fn choose(alloc: Global, anchors: &[Anchor]) -> Result<Vec<Link>, AllocError>
    requires rise { AnchorsRise anchors.now }
    requires occur { GroupsOccur anchors.now }
    requires few { length anchors.now < 2 ^ 32 }
    ensures { IfOk result (λ links. AreChosen anchors.now links.items) }
{
    if anchors.len() <= FEW {
        grow(alloc, anchors)
    } else {
        join_groups(alloc, anchors)
    }
}

/// The nest of the anchors: in order, each link of two groups that all lesser links together leave apart. Links are ordered by
/// the square of their distance, then by id and number of the first anchor, then of the second.
///
/// The nest joins all groups, by one link less than there are groups, at the least sum of squares that does so. Anchors rise by
/// id and number, and each group from 0 to the greatest occurs. Only running out of memory refuses it.
/// Few anchors are each measured against all of other groups. Of more, each is asked in a few rounds for its least link in a tree
/// of areas: where they lie apart, that takes about as long as a few sorts.
pub fn nest(alloc: Global, anchors: &[Anchor]) -> Result<Nest, AllocError>
    requires rise { AnchorsRise anchors.now }
    requires occur { GroupsOccur anchors.now }
    requires few { length anchors.now < 2 ^ 32 }
    ensures nest { IfOk result (λ nest. IsNest anchors.now nest.links) }
    ensures places { IfOk result (λ nest. All (HasPlaces anchors.now) nest.links) }
    ensures count { IfOk result (λ nest. length nest.links ≡ group_count anchors.now - 1) }
    ensures joins { IfOk result (λ nest. JoinAll anchors.now nest.links) }
    ensures least { IfOk result (λ nest. IsLeast anchors.now nest.links) }
{
    let links = Links::of(choose(alloc, anchors)?);
    Ok(Nest { links })
}
