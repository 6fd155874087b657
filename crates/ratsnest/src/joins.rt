//! Groups that links have joined have one label.

ghost use Rattle.std.specs.Prelude.{◌≡◌, ◌≢◌, ◌<◌, ◌^◌, ◌⊎◌, ℕ, length, OnOk, IfOk, All, slice_index_or, ◌∷◌, []};
ghost use Rattle.ratsnest.specs.declared.joins.Members.{Members};
ghost use Rattle.ratsnest.specs.NestOf.{group_at};
ghost use Rattle.ratsnest.specs.Forest.{label_at, AreKept, IsRelabeled, IsForest, IsUsable, HasGrown, HaveGrown};

use crate::anchor::Anchor;
use crate::link::Link;
use crate::nearest::label_at;
use crate::places::group_of;
use std::alloc::{AllocError, Global};
use std::mem;

/// The groups that have a label.
#[derive(Drop)]
pub(crate) struct Members {
    pub(crate) groups: Vec<usize>,
}

/// Gives the label to these groups.
fn relabel(labels: &mut [usize], groups: &[usize], to: usize)
    requires { (k : ℕ) → k < length groups.now → slice_index_or groups.now k 0 < length labels.old }
    ensures given { (k : ℕ) → k < length groups.now
        → label_at labels.new (slice_index_or groups.now k 0) ≡ to }
    ensures others { (g : ℕ) → ((k : ℕ) → k < length groups.now → slice_index_or groups.now k 0 ≢ g)
        → label_at labels.new g ≡ label_at labels.old g }
{
    for group in groups {
        labels[*group] = to;
    }
}

/// Those of one label have the other.
fn merge(
    alloc: Global,
    labels: &mut [usize],
    members: &mut [Members],
    from: usize,
    to: usize,
) -> Result<(), AllocError>
    requires kept { AreKept labels.old members.old }
    requires from { from < length labels.old }
    requires to { to < length labels.old }
    requires apart { from ≢ to }
    ensures relabeled { OnOk result (IsRelabeled from to labels.old labels.new) }
    ensures kept { OnOk result (AreKept labels.new members.new) }
{
    let mut moved = mem::replace(&mut members[from].groups, Vec::new(alloc));
    relabel(labels, &moved, to);
    members[to].groups.append(&mut moved)?;
    Ok(())
}

/// Merges the label of fewer groups into the other.
fn merge_smaller(
    alloc: Global,
    labels: &mut [usize],
    members: &mut [Members],
    a: usize,
    b: usize,
) -> Result<(), AllocError>
    requires kept { AreKept labels.old members.old }
    requires a { a < length labels.old }
    requires b { b < length labels.old }
    requires apart { a ≢ b }
    ensures relabeled { OnOk result (IsRelabeled a b labels.old labels.new
        ⊎ IsRelabeled b a labels.old labels.new) }
    ensures kept { OnOk result (AreKept labels.new members.new) }
{
    if members[a].groups.len() < members[b].groups.len() {
        merge(alloc, labels, members, a, b)?;
        Ok(())
    } else {
        merge(alloc, labels, members, b, a)?;
        Ok(())
    }
}

/// The label of the group of an anchor.
fn label_of(anchors: &[Anchor], labels: &[usize], place: u32) -> usize
    requires { place < length anchors.now }
    ensures { result ≡ label_at labels.now (group_at anchors.now place) }
{
    label_at(labels, group_of(anchors, place as usize) as usize)
}

/// Joins the labels of the ends of a link, if it has two.
fn join(
    alloc: Global,
    anchors: &[Anchor],
    labels: &mut [usize],
    members: &mut [Members],
    links: &mut Vec<Link>,
    link: Link,
) -> Result<(), AllocError>
    requires few { length anchors.now < 2 ^ 32 }
    requires kept { AreKept labels.old members.old }
    requires forest { IsForest anchors.now labels.old links.old.items }
    requires usable { IsUsable anchors.now link }
    ensures kept { OnOk result (AreKept labels.new members.new) }
    ensures forest { OnOk result (IsForest anchors.now labels.new links.new.items) }
    ensures grown { OnOk result (HasGrown anchors.now link labels.old links.old.items labels.new
        links.new.items) }
{
    if link.square == u64::MAX {
        return Ok(());
    }
    let a = label_of(anchors, labels, link.first);
    let b = label_of(anchors, labels, link.second);
    if a == b {
        return Ok(());
    }
    links.push(link)?;
    merge_smaller(alloc, labels, members, a, b)?;
    Ok(())
}

/// Joins the labels of the ends of each link, where it still has two.
pub(crate) fn join_all(
    alloc: Global,
    anchors: &[Anchor],
    best: &[Link],
    labels: &mut [usize],
    members: &mut [Members],
    links: &mut Vec<Link>,
) -> Result<(), AllocError>
    requires few { length anchors.now < 2 ^ 32 }
    requires kept { AreKept labels.old members.old }
    requires forest { IsForest anchors.now labels.old links.old.items }
    requires usable { All (IsUsable anchors.now) best.now }
    ensures kept { OnOk result (AreKept labels.new members.new) }
    ensures forest { OnOk result (IsForest anchors.now labels.new links.new.items) }
    ensures grown { OnOk result (HaveGrown anchors.now best.now
        (length best.now) labels.old links.old.items labels.new links.new.items) }
{
    for link in best {
        join(alloc, anchors, labels, members, links, *link)?;
    }
    Ok(())
}

fn only_member(alloc: Global, group: usize) -> Result<Members, AllocError>
    ensures { IfOk result (λ m. m.groups.items ≡ group ∷ []) }
{
    let mut groups = Vec::new(alloc);
    groups.push(group)?;
    Ok(Members { groups })
}

/// Each group is the only member of its label.
pub(crate) fn own_members(alloc: Global, count: usize) -> Result<Vec<Members>, AllocError>
    ensures count { IfOk result (λ v. length v.items ≡ count) }
    ensures own { IfOk result (λ v. (g : ℕ) (d : Members) → g < length v.items
        → (slice_index_or v.items g d).groups.items ≡ g ∷ []) }
{
    let mut members = Vec::new(alloc);
    for group in 0..count {
        members.push(only_member(alloc, group)?)?;
    }
    Ok(members)
}
