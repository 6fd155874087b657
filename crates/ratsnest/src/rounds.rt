//! The nest, found by joining: in each round the least link that leaves each label but the largest is taken, and joins two labels.
//!
//! Which link that is, is asked for each anchor of a tree of areas, which passes over what is too far or has the label.

ghost use Rattle.std.specs.Prelude.{◌≡◌, ◌<◌, ◌≤◌, ◌^◌, ◌+◌, ◌-◌, true, false, length, OnOk, IfOk, []};
ghost use Rattle.ratsnest.specs.declared.link.Link.{Link};
ghost use Rattle.ratsnest.specs.NestOf.{group_count, AnchorsRise, GroupsOccur};
ghost use Rattle.ratsnest.specs.Grow.{rank, AreChosen};
ghost use Rattle.ratsnest.specs.Forest.{AreIndexedAnchors, AreNodes, AreKept, IsForest, AreOne};
ghost use Rattle.ratsnest.specs.Mem.{Mem, Climbs};

use crate::anchor::Anchor;
use crate::joins::{Members, join_all, own_members};
use crate::labels::own_labels;
use crate::link::Link;
use crate::nearest::{all_best, largest};
use crate::places::count_groups;
use crate::tree::{Tree, tree_of};
use std::alloc::{AllocError, Global};

/// Whether the links are too few to join so many labels.
fn are_few(links: &[Link], labels: &[usize]) -> bool
    ensures { result ≡ false → length labels.now ≤ length links.now + 1 }
{
    links.len().saturating_add(1) < labels.len()
}

/// Takes the least link that leaves each label but the largest: those links join labels all the same. Answers whether there was
/// one, and more are wanted.
fn take_round(
    alloc: Global,
    anchors: &[Anchor],
    tree: &Tree,
    labels: &mut [usize],
    members: &mut [Members],
    links: &mut Vec<Link>,
) -> Result<bool, AllocError>
    requires rise { AnchorsRise anchors.now }
    requires occur { GroupsOccur anchors.now }
    requires few { length anchors.now < 2 ^ 32 }
    requires indexed_anchors { AreIndexedAnchors anchors.now tree.now.indexed_anchors.items }
    requires nodes { AreNodes tree.now.indexed_anchors.items tree.now.nodes.items }
    requires some { 0 < length labels.old }
    requires kept { AreKept labels.old members.old }
    requires forest { IsForest anchors.now labels.old links.old.items }
    ensures kept { OnOk result (AreKept labels.new members.new) }
    ensures forest { OnOk result (IsForest anchors.now labels.new links.new.items) }
    ensures more { IfOk result (λ yes. yes ≡ true
        → length links.old.items < length links.new.items) }
    ensures done { IfOk result (λ yes. yes ≡ false → AreOne labels.new) }
{
    let before = links.len();
    let skipped = largest(alloc, tree, labels)?;
    let best = all_best(alloc, tree, labels, skipped)?;
    join_all(alloc, anchors, &best, labels, members, links)?;
    Ok(before < links.len() && are_few(links, labels))
}

/// Takes rounds until all groups have one label.
fn take_rounds(
    alloc: Global,
    anchors: &[Anchor],
    tree: &Tree,
    labels: &mut [usize],
    members: &mut [Members],
    links: &mut Vec<Link>,
) -> Result<(), AllocError>
    requires rise { AnchorsRise anchors.now }
    requires occur { GroupsOccur anchors.now }
    requires few { length anchors.now < 2 ^ 32 }
    requires indexed_anchors { AreIndexedAnchors anchors.now tree.now.indexed_anchors.items }
    requires nodes { AreNodes tree.now.indexed_anchors.items tree.now.nodes.items }
    requires some { 0 < length labels.old }
    requires kept { AreKept labels.old members.old }
    requires forest { IsForest anchors.now labels.old links.old.items }
    ensures forest { OnOk result (IsForest anchors.now labels.new links.new.items) }
    ensures one { OnOk result (AreOne labels.new) }
{
    'rounds: while take_round(alloc, anchors, tree, labels, members, links)? {}
    Ok(())
}

/// Puts the links in order.
fn put_in_order(links: &mut Vec<Link>) -> Result<(), AllocError>
    requires fits { (l : Link) → Mem l links.old.items → (l.first < 2 ^ 32) × (l.second < 2 ^ 32) }
    ensures climbs { OnOk result (Climbs rank links.new.items) }
    ensures sound { OnOk result ((l : Link) → Mem l links.new.items → Mem l links.old.items) }
    ensures whole { OnOk result ((l : Link) → Mem l links.old.items → Mem l links.new.items) }
{
    links.sort()?;
    // no link is there twice: this says so
    links.dedup();
    Ok(())
}

/// Links that join all labels, in order.
fn join_from(
    alloc: Global,
    anchors: &[Anchor],
    labels: &mut [usize],
    members: &mut [Members],
) -> Result<Vec<Link>, AllocError>
    requires rise { AnchorsRise anchors.now }
    requires occur { GroupsOccur anchors.now }
    requires few { length anchors.now < 2 ^ 32 }
    requires some { 0 < group_count anchors.now }
    requires kept { AreKept labels.old members.old }
    requires forest { IsForest anchors.now labels.old [] }
    ensures { IfOk result (λ links. AreChosen anchors.now links.items) }
{
    let mut links = Vec::new(alloc);
    let tree = tree_of(alloc, anchors)?;
    take_rounds(alloc, anchors, &tree, labels, members, &mut links)?;
    put_in_order(&mut links)?;
    Ok(links)
}

/// The links of the nest. It takes memory linear in the number of anchors.
pub(crate) fn join_groups(alloc: Global, anchors: &[Anchor]) -> Result<Vec<Link>, AllocError>
    requires rise { AnchorsRise anchors.now }
    requires occur { GroupsOccur anchors.now }
    requires few { length anchors.now < 2 ^ 32 }
    ensures { IfOk result (λ links. AreChosen anchors.now links.items) }
{
    let count = count_groups(anchors);
    if count < 2 {
        return Ok(Vec::new(alloc));
    }
    let mut labels = own_labels(alloc, count)?;
    let mut members = own_members(alloc, count)?;
    join_from(alloc, anchors, &mut labels, &mut members)
}
