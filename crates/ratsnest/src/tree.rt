//! Anchors in an order that keeps near ones together, and the areas of its halves, their halves, and so on.

ghost use Rattle.std.specs.Prelude.{◌≡◌, ◌<◌, ◌≤◌, ◌+◌, ◌^◌, false, length, IfOk};
ghost use Rattle.std.specs.List.Sorted.{IsPermutation};
ghost use Rattle.ratsnest.specs.Forest.{IsNode, AreNodes, AreHalves, AreIndexedAnchors};

use crate::anchor::Anchor;
use crate::area::{Area, area_of, width};
use crate::indexed_anchor::{IndexedAnchor, all_indexed_anchors};
use std::alloc::{AllocError, Global};

/// Parts of at most so many anchors have no halves.
const FEW: usize = 8;

/// The anchors from `low` on, before `high`. `node` is the place of its node, if it has one.
#[derive(Clone, Copy, Drop)]
pub(crate) struct Part {
    pub(crate) low: usize,
    pub(crate) high: usize,
    pub(crate) node: usize,
}

/// The area of a part.
#[derive(Clone, Copy, Drop)]
pub(crate) struct Node {
    pub(crate) low: usize,
    pub(crate) high: usize,
    pub(crate) area: Area,
}

/// Anchors, near ones together, with the areas of their parts.
#[derive(Drop)]
pub(crate) struct Tree {
    pub(crate) indexed_anchors: Vec<IndexedAnchor>,
    pub(crate) nodes: Vec<Node>,
}

/// The halves of a part.
#[derive(Clone, Copy, Drop)]
pub(crate) struct Halves {
    pub(crate) left: Part,
    pub(crate) right: Part,
}

/// Whether the part is too small to have halves.
pub(crate) fn is_small(low: usize, high: usize) -> bool
    ensures { result ≡ false → low + 1 < high }
{
    high <= low || high - low <= FEW
}

/// The place in the middle.
fn middle(low: usize, high: usize) -> usize
    requires { low + 1 < high }
    ensures past { low < result }
    ensures before { result < high }
{
    low + (high - low) / 2
}

/// The halves of a part.
pub(crate) fn halves_of(part: Part) -> Halves
    requires { part.low + 1 < part.high }
    ensures { AreHalves part result.left result.right }
{
    let mid = middle(part.low, part.high);
    let node = part.node.saturating_mul(2);
    Halves {
        left: Part {
            low: part.low,
            high: mid,
            node: node.saturating_add(1),
        },
        right: Part {
            low: mid,
            high: part.high,
            node: node.saturating_add(2),
        },
    }
}

/// Puts the anchors in the order of one coordinate: that in which they lie farther apart.
fn sort_part(indexed_anchors: &mut [IndexedAnchor])
    ensures { IsPermutation indexed_anchors.old indexed_anchors.new }
{
    let area = area_of(indexed_anchors, 0, indexed_anchors.len());
    if width(area.x) > width(area.y) {
        indexed_anchors.sort_unstable_by_key(|indexed_anchor| indexed_anchor.anchor.x);
    } else {
        indexed_anchors.sort_unstable_by_key(|indexed_anchor| indexed_anchor.anchor.y);
    }
}

/// Puts near ones together.
fn put_together(indexed_anchors: &mut [IndexedAnchor], low: usize, high: usize)
    requires { high ≤ length indexed_anchors.old }
    ensures { IsPermutation indexed_anchors.old indexed_anchors.new }
{
    if is_small(low, high) {
        return;
    }
    sort_part(&mut indexed_anchors[low..high]);
    let mid = middle(low, high);
    put_together(indexed_anchors, low, mid);
    put_together(indexed_anchors, mid, high);
}

fn node_of(indexed_anchors: &[IndexedAnchor], low: usize, high: usize) -> Node
    ensures { IsNode indexed_anchors.now result }
{
    Node {
        low,
        high,
        area: area_of(indexed_anchors, low, high),
    }
}

/// The part of a place of a node: the half of the part of another.
fn part_at(nodes: &[Node], node: usize) -> Option<Part> {
    let parent = nodes.get(node.saturating_sub(1) / 2)?;
    if is_small(parent.low, parent.high) {
        return None;
    }
    let halves = halves_of(Part {
        low: parent.low,
        high: parent.high,
        node,
    });
    if node % 2 == 1 {
        Some(halves.left)
    } else {
        Some(halves.right)
    }
}

/// The node of a place. Where it has no part it is empty.
fn next_node(indexed_anchors: &[IndexedAnchor], nodes: &[Node], node: usize) -> Node
    ensures { IsNode indexed_anchors.now result }
{
    match part_at(nodes, node) {
        Some(part) => node_of(indexed_anchors, part.low, part.high),
        None => node_of(indexed_anchors, 0, 0),
    }
}

/// How many nodes there are for so many anchors: as if each part had halves of the greater length.
fn count_nodes(len: usize) -> usize {
    let mut count: usize = 1;
    let mut left = len;
    while left > FEW {
        count = count.saturating_mul(2).saturating_add(1);
        left -= left / 2;
    }
    count
}

fn all_nodes(alloc: Global, indexed_anchors: &[IndexedAnchor]) -> Result<Vec<Node>, AllocError>
    ensures { IfOk result (λ v. AreNodes indexed_anchors.now v.items) }
{
    let mut nodes = Vec::new(alloc);
    nodes.push(node_of(indexed_anchors, 0, indexed_anchors.len()))?;
    for node in 1..count_nodes(indexed_anchors.len()) {
        let next = next_node(indexed_anchors, &nodes, node);
        nodes.push(next)?;
    }
    Ok(nodes)
}

/// The tree of the anchors.
pub(crate) fn tree_of(alloc: Global, anchors: &[Anchor]) -> Result<Tree, AllocError>
    requires few { length anchors.now < 2 ^ 32 }
    ensures indexed_anchors { IfOk result (λ tree.
        AreIndexedAnchors anchors.now tree.indexed_anchors.items) }
    ensures nodes { IfOk result (λ tree. AreNodes tree.indexed_anchors.items tree.nodes.items) }
{
    let mut indexed_anchors = all_indexed_anchors(alloc, anchors)?;
    let len = indexed_anchors.len();
    put_together(&mut indexed_anchors, 0, len);
    let nodes = all_nodes(alloc, &indexed_anchors)?;
    Ok(Tree {
        indexed_anchors,
        nodes,
    })
}
