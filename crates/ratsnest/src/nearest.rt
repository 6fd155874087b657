//! For each label but one, the least link that leaves the groups that have it.

ghost use Rattle.std.specs.Prelude.{◌≡◌, ◌+◌, ◌<◌, ◌≤◌, ℕ, length, slice_index_or, IsTrue, IfOk, IfSome, Some, None, Option, replicate};
ghost use Rattle.ratsnest.specs.declared.tree.Node.{Node};
ghost use Rattle.ratsnest.specs.Forest.{AreNodes, AreNames, AreHalves, IsNamed, IsPassed, IsLooked, AreBestTo, label_at, label_of, no_link};

use crate::area::square_from;
use crate::indexed_anchor::{IndexedAnchor, draw};
use crate::link::Link;
use crate::places::is_below;
use crate::tree::{Halves, Node, Part, Tree, halves_of, is_small};
use std::alloc::{AllocError, Global};

/// Longer than each link.
pub(crate) fn no_link() -> Link
    ensures { result ≡ no_link }
{
    Link {
        square: u64::MAX,
        first: 0,
        second: 0,
    }
}

/// The label of a group.
pub(crate) fn label_at(labels: &[usize], group: usize) -> usize
    ensures { result ≡ label_at labels.now group }
{
    match labels.get(group) {
        Some(label) => *label,
        None => 0,
    }
}

fn label_of(labels: &[usize], indexed_anchor: &IndexedAnchor) -> usize
    ensures { result ≡ label_of labels.now indexed_anchor.now }
{
    label_at(labels, indexed_anchor.anchor.group as usize)
}

/// The label that all of a part have, unless it is the one that is passed over: none asks for that.
fn name_of_all(
    tree: &Tree,
    labels: &[usize],
    skipped: usize,
    low: usize,
    high: usize,
) -> Option<usize>
    ensures { IfSome result (IsNamed tree.now.indexed_anchors.items labels.now low high) }
{
    let first = label_of(labels, tree.indexed_anchors.get(low)?);
    if first == skipped {
        return None;
    }
    for i in low..high.min(tree.indexed_anchors.len()) {
        if label_of(labels, &tree.indexed_anchors[i]) != first {
            return None;
        }
    }
    Some(first)
}

fn name_at(names: &[Option<usize>], node: usize) -> Option<usize>
    ensures { result ≡ slice_index_or names.now node None }
{
    match names.get(node) {
        Some(name) => *name,
        None => None,
    }
}

fn node_at(tree: &Tree, node: usize) -> Option<&Node>
    ensures { IfSome result (λ n. (node < length tree.now.nodes.items)
        × ((d : Node) → slice_index_or tree.now.nodes.items node d ≡ n.now)) }
{
    tree.nodes.get(node)
}

/// Whether the node is that of the part.
fn is_of(node: &Node, low: usize, high: usize) -> bool
    ensures { IsTrue result → (node.now.low ≡ low) × (node.now.high ≡ high) }
{
    node.low == low && node.high == high
}

/// The name of a node whose part is all of the parts of two nodes.
fn name_of_both(
    tree: &Tree,
    labels: &[usize],
    names: &[Option<usize>],
    node: usize,
    left: usize,
    right: usize,
) -> Option<usize>
    requires { AreNames tree.now.indexed_anchors.items labels.now tree.now.nodes.items names.now }
    ensures { IfSome result (λ c. (d : Node) → IsNamed tree.now.indexed_anchors.items labels.now
        (slice_index_or tree.now.nodes.items node d).low
        (slice_index_or tree.now.nodes.items node d).high c) }
{
    let whole = node_at(tree, node)?;
    let a = node_at(tree, left)?;
    let b = node_at(tree, right)?;
    let name = name_at(names, left)?;
    let other = name_at(names, right)?;
    if other == name && is_of(a, whole.low, b.low) && is_of(b, a.high, whole.high) {
        Some(name)
    } else {
        None
    }
}

/// The name of a node.
fn name_of(
    tree: &Tree,
    labels: &[usize],
    skipped: usize,
    names: &[Option<usize>],
    node: usize,
) -> Option<usize>
    requires { AreNames tree.now.indexed_anchors.items labels.now tree.now.nodes.items names.now }
    ensures { IfSome result (λ c. (d : Node) → IsNamed tree.now.indexed_anchors.items labels.now
        (slice_index_or tree.now.nodes.items node d).low
        (slice_index_or tree.now.nodes.items node d).high c) }
{
    let part = node_at(tree, node)?;
    if is_small(part.low, part.high) {
        name_of_all(tree, labels, skipped, part.low, part.high)
    } else {
        let twice = node.saturating_mul(2);
        name_of_both(
            tree,
            labels,
            names,
            node,
            twice.saturating_add(1),
            twice.saturating_add(2),
        )
    }
}

/// The names of all nodes.
pub(crate) fn all_names(
    alloc: Global,
    tree: &Tree,
    labels: &[usize],
    skipped: usize,
) -> Result<Vec<Option<usize>>, AllocError>
    ensures { IfOk result (λ v.
        AreNames tree.now.indexed_anchors.items labels.now tree.now.nodes.items v.items) }
{
    let mut names = vec![in alloc; None; tree.nodes.len()]?;
    for node in (0..tree.nodes.len()).rev() {
        let name = name_of(tree, labels, skipped, &names, node);
        names[node] = name;
    }
    Ok(names)
}

/// Whether all of the part of a node have the label.
fn is_named(names: &[Option<usize>], node: usize, label: usize) -> bool
    ensures { IsTrue result → slice_index_or names.now node None ≡ Some label }
{
    match name_at(names, node) {
        Some(name) => name == label,
        None => false,
    }
}

/// Whether no anchor of the part has a lesser link than the one that is kept.
fn is_passed(
    tree: &Tree,
    labels: &[usize],
    names: &[Option<usize>],
    from: &IndexedAnchor,
    own: usize,
    part: Part,
    best: Link,
) -> bool
    requires nodes { AreNodes tree.now.indexed_anchors.items tree.now.nodes.items }
    requires names { AreNames tree.now.indexed_anchors.items labels.now tree.now.nodes.items
        names.now }
    ensures { IsTrue result
        → IsPassed tree.now.indexed_anchors.items labels.now from.now own part.low part.high best }
{
    match node_at(tree, part.node) {
        Some(node) => {
            is_of(node, part.low, part.high)
                && (is_named(names, part.node, own)
                    || is_below(best, square_from(from.anchor, node.area)))
        }
        None => false,
    }
}

/// Looks at each anchor of a part.
fn look_at_each(
    tree: &Tree,
    labels: &[usize],
    from: &IndexedAnchor,
    own: usize,
    low: usize,
    high: usize,
    best: &mut Link,
)
    requires { high ≤ length tree.now.indexed_anchors.items }
    ensures { IsLooked tree.now.indexed_anchors.items labels.now from.now own low high best.old
        best.new }
{
    for i in low..high {
        let to = tree.indexed_anchors[i];
        if label_of(labels, &to) != own {
            draw(best, from, &to);
        }
    }
}

fn square_of_part(tree: &Tree, from: &IndexedAnchor, part: Part) -> u64 {
    match node_at(tree, part.node) {
        Some(node) => square_from(from.anchor, node.area),
        None => 0,
    }
}

/// The halves of a part, the nearer one first.
fn nearer_first(tree: &Tree, from: &IndexedAnchor, part: Part) -> Halves
    requires { part.low + 1 < part.high }
    ensures { AreHalves part result.left result.right }
{
    let halves = halves_of(part);
    if square_of_part(tree, from, halves.right) < square_of_part(tree, from, halves.left) {
        Halves {
            left: halves.right,
            right: halves.left,
        }
    } else {
        halves
    }
}

/// Keeps the least link to an anchor of the part that has another label, if it is less than the one that is kept.
fn look(
    tree: &Tree,
    labels: &[usize],
    names: &[Option<usize>],
    from: &IndexedAnchor,
    own: usize,
    part: Part,
    best: &mut Link,
)
    requires nodes { AreNodes tree.now.indexed_anchors.items tree.now.nodes.items }
    requires names { AreNames tree.now.indexed_anchors.items labels.now tree.now.nodes.items
        names.now }
    requires fits { part.high ≤ length tree.now.indexed_anchors.items }
    ensures { IsLooked tree.now.indexed_anchors.items labels.now from.now own part.low part.high
        best.old best.new }
{
    if is_passed(tree, labels, names, from, own, part, *best) {
        return;
    }
    if is_small(part.low, part.high) {
        look_at_each(tree, labels, from, own, part.low, part.high, best);
        return;
    }
    let halves = nearer_first(tree, from, part);
    look(tree, labels, names, from, own, halves.left, best);
    look(tree, labels, names, from, own, halves.right, best);
}

/// Counts the anchors of each label.
fn count_each(tree: &Tree, labels: &[usize], counts: &mut [usize])
    requires labels { (g : ℕ) → label_at labels.now g < length counts.old }
{
    for i in 0..tree.indexed_anchors.len() {
        let label = label_of(labels, &tree.indexed_anchors[i]);
        counts[label] = counts[label].saturating_add(1);
    }
}

/// The place of the greatest count.
fn greatest(counts: &[usize]) -> usize {
    let mut place = 0;
    let mut most: usize = 0;
    for i in 0..counts.len() {
        if most < counts[i] {
            most = counts[i];
            place = i;
        }
    }
    place
}

/// The label that most anchors have.
pub(crate) fn largest(alloc: Global, tree: &Tree, labels: &[usize]) -> Result<usize, AllocError>
    requires labels { (g : ℕ) → label_at labels.now g < length labels.now }
{
    let mut counts = vec![in alloc; 0; labels.len()]?;
    count_each(tree, labels, &mut counts);
    Ok(greatest(&counts))
}

/// For each label but one the least link that leaves it.
fn seek(tree: &Tree, labels: &[usize], names: &[Option<usize>], skipped: usize, best: &mut [Link])
    requires nodes { AreNodes tree.now.indexed_anchors.items tree.now.nodes.items }
    requires names { AreNames tree.now.indexed_anchors.items labels.now tree.now.nodes.items
        names.now }
    requires labels { (g : ℕ) → label_at labels.now g < length best.old }
    requires none { best.old ≡ replicate (length best.old) no_link }
    ensures { AreBestTo tree.now.indexed_anchors.items labels.now skipped
        (length tree.now.indexed_anchors.items) best.new }
{
    let whole = Part {
        low: 0,
        high: tree.indexed_anchors.len(),
        node: 0,
    };
    for i in 0..tree.indexed_anchors.len() {
        let from = tree.indexed_anchors[i];
        let own = label_of(labels, &from);
        if own != skipped {
            look(tree, labels, names, &from, own, whole, &mut best[own]);
        }
    }
}

/// For each label but one the least link that leaves it.
pub(crate) fn all_best(
    alloc: Global,
    tree: &Tree,
    labels: &[usize],
    skipped: usize,
) -> Result<Vec<Link>, AllocError>
    requires nodes { AreNodes tree.now.indexed_anchors.items tree.now.nodes.items }
    requires labels { (g : ℕ) → label_at labels.now g < length labels.now }
    ensures len { IfOk result (λ v. length v.items ≡ length labels.now) }
    ensures best { IfOk result (λ v. AreBestTo tree.now.indexed_anchors.items labels.now skipped
        (length tree.now.indexed_anchors.items) v.items) }
{
    let names = all_names(alloc, tree, labels, skipped)?;
    let mut best = vec![in alloc; no_link(); labels.len()]?;
    seek(tree, labels, &names, skipped, &mut best);
    Ok(best)
}
