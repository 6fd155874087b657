//! The check of a nest: by the definition, all links in order, each kept where no chain of smaller ones joins its ends.
//! It shares no function with the search for the nest: it reads anchors, measures links and labels groups by functions of its own.

ghost use Rattle.std.specs.Prelude.{◌≡◌, ◌<◌, ◌≤◌, ◌^◌, ◌*◌, ◌↔◌, ◌-ℤ◌, ℕ, IsTrue, length, OnOk, slice_index, slice_index_or, unsigned_abs, IfOk, [], if◌then◌else◌, ◌==◌};
ghost use Rattle.ratsnest.specs.declared.link.Link.{Link};
ghost use Rattle.ratsnest.specs.NestOf.{AnchorsRise, IsNest, IsLink, group_at, group_count, square_between};
ghost use Rattle.ratsnest.specs.Grow.{rank, link_at, AreAllLinks, AreOwnLabels};
ghost use Rattle.ratsnest.specs.Mem.{Mem, Climbs};
ghost use Rattle.ratsnest.specs.CoordinateRange.{IsInReach};

use crate::anchor::Anchor;
use crate::link::Link;
use crate::links::Nest;
use std::alloc::{AllocError, Global};

#[tactic(auto, unfolding(crate::specs::NestOf::group_at))]
fn group_of(anchors: &[Anchor], i: usize) -> u32
    requires { i < length anchors.now }
    ensures { result ≡ group_at anchors.now i }
{
    anchors[i].group
}

/// How many groups there are.
#[tactic(auto, unfolding(crate::specs::NestOf::group_count))]
fn count_groups(anchors: &[Anchor]) -> usize
    ensures { result ≡ group_count anchors.now }
{
    let mut count = 0;
    for anchor in anchors {
        count = count.max(anchor.group as usize + 1);
    }
    count
}

/// Each group has a label of its own.
fn own_labels(alloc: Global, count: usize) -> Result<Vec<usize>, AllocError>
    ensures count { IfOk result (λ v. length v.items ≡ count) }
    ensures own { IfOk result (λ v. (g : ℕ) → g < length v.items → slice_index_or v.items g 0 ≡ g) }
{
    let mut labels = Vec::new(alloc);
    for g in 0..count {
        labels.push(g)?;
    }
    Ok(labels)
}

/// The square of how far two coordinates are apart.
fn square_apart(a: i64, b: i64) -> u64
    requires a { IsInReach a }
    requires b { IsInReach b }
    ensures value { result ≡ unsigned_abs (a -ℤ b) * unsigned_abs (a -ℤ b) }
    ensures bound { result ≤ 1000000000000000000 }
{
    let apart = a.abs_diff(b);
    apart * apart
}

#[tactic(auto, unfolding(crate::specs::NestOf::square_between))]
fn square_at(anchors: &[Anchor], i: usize, j: usize) -> u64
    requires i { i < length anchors.now }
    requires j { j < length anchors.now }
    ensures { result ≡ square_between anchors.now i j }
{
    square_apart(anchors[i].x, anchors[j].x) + square_apart(anchors[i].y, anchors[j].y)
}

/// The link of two anchors, of which the first stands before the second.
#[tactic(auto, unfolding(crate::specs::Grow::link_at))]
fn link_of(anchors: &[Anchor], i: usize, j: usize) -> Link
    requires few { length anchors.now < 2 ^ 32 }
    requires in_order { i < j }
    requires within { j < length anchors.now }
    ensures { result ≡ link_at anchors.now i j }
{
    Link {
        square: square_at(anchors, i, j),
        first: i as u32,
        second: j as u32,
    }
}

/// All links, the shorter second place first.
fn all_links(alloc: Global, anchors: &[Anchor]) -> Result<Vec<Link>, AllocError>
    requires few { length anchors.now < 2 ^ 32 }
    ensures sound { IfOk result (λ v. (l : Link) → Mem l v.items → IsLink anchors.now l) }
    ensures whole { IfOk result (λ v. (l : Link) → IsLink anchors.now l → Mem l v.items) }
{
    let mut links = Vec::new(alloc);
    for j in 0..anchors.len() {
        for i in 0..j {
            if group_of(anchors, i) != group_of(anchors, j) {
                links.push(link_of(anchors, i, j))?;
            }
        }
    }
    Ok(links)
}

/// Puts one label for another.
fn relabel(labels: &mut [usize], from: usize, to: usize)
    ensures { (k : ℕ) → k < length labels.new
        → slice_index labels.new k
        ≡ (if slice_index labels.old k == from then to else slice_index labels.old k) }
{
    for label in labels.iter_mut() {
        if *label == from {
            *label = to;
        }
    }
}

/// Puts the links in order, each once.
fn put_in_order(links: &mut Vec<Link>) -> Result<(), AllocError>
    requires fits { (l : Link) → Mem l links.old.items → (l.first < 2 ^ 32) × (l.second < 2 ^ 32) }
    ensures climbs { OnOk result (Climbs rank links.new.items) }
    ensures sound { OnOk result ((l : Link) → Mem l links.new.items → Mem l links.old.items) }
    ensures whole { OnOk result ((l : Link) → Mem l links.old.items → Mem l links.new.items) }
{
    links.sort()?;
    links.dedup();
    Ok(())
}

/// Joins the labels of the ends of each link in turn, and keeps each link whose ends had two.
fn join(
    anchors: &[Anchor],
    links: &[Link],
    labels: &mut [usize],
    nest: &mut Vec<Link>,
) -> Result<(), AllocError>
    requires rise { AnchorsRise anchors.now }
    requires few { length anchors.now < 2 ^ 32 }
    requires links { AreAllLinks anchors.now links.now }
    requires labels { AreOwnLabels anchors.now labels.old }
    requires nest { nest.old.items ≡ [] }
    ensures { OnOk result (IsNest anchors.now nest.new.items) }
{
    for link in links {
        let from = labels[group_of(anchors, link.first as usize) as usize];
        let to = labels[group_of(anchors, link.second as usize) as usize];
        if from != to {
            relabel(labels, from, to);
            nest.push(*link)?;
        }
    }
    Ok(())
}

fn by_chains(alloc: Global, anchors: &[Anchor]) -> Result<Vec<Link>, AllocError>
    requires rise { AnchorsRise anchors.now }
    requires few { length anchors.now < 2 ^ 32 }
    ensures { IfOk result (λ v. IsNest anchors.now v.items) }
{
    let mut links = all_links(alloc, anchors)?;
    put_in_order(&mut links)?;
    let mut labels = own_labels(alloc, count_groups(anchors))?;
    let mut nest = Vec::new(alloc);
    join(anchors, &links, &mut labels, &mut nest)?;
    Ok(nest)
}

/// Whether these are the links of the nest of the anchors, whoever made them: false exactly where they are not. Anchors rise by
/// id and number; nothing is asked of the nest. Only running out of memory refuses it.
///
/// It makes all links of the anchors, so it takes the square of their number in memory.
pub fn check_nest(alloc: Global, anchors: &[Anchor], nest: &Nest) -> Result<bool, AllocError>
    requires rise { AnchorsRise anchors.now }
    requires few { length anchors.now < 2 ^ 32 }
    ensures { IfOk result (λ yes. IsTrue yes ↔ IsNest anchors.now nest.now.links) }
{
    let links = by_chains(alloc, anchors)?;
    Ok(links.as_slice() == nest.links.as_slice())
}
