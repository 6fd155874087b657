//! Labels: the search that gives each item of a net the number of its group.

ghost use Rattle.std.specs.Prelude.{◌≡◌, ◌+◌, ◌<◌, ◌^◌, ℕ, false, IsTrue, [], Option, None, Some, IfOk, IfSome, OnOk, length, slice_index};
ghost use Rattle.net_groups.specs.Touching.{TouchOn};
ghost use Rattle.net_groups.specs.ConnectedClasses.{Rises};
ghost use Rattle.geo_seg.specs.Boxes.{FitsIndex};
ghost use Rattle.box_index.specs.Tiles.{margin};
ghost use Rattle.net_groups.specs.ItemBoxes.{AreItemBoxes, AreBoxRuns, HoldsItemBoxes, IsItemBoxAt};
ghost use Rattle.net_groups.specs.Asking.{is_asked, asked_in, IsVisitedWhole};
ghost use Rattle.net_groups.specs.Labels.{label_at, IsLabelled, IsVisited, AreLabels};

use crate::item_boxes::Conductors;
use crate::pairs::is_asked;
use crate::runs::next_met;
use crate::spreading::{index_of, spread_out};
use crate::touch::touch_on;
use box_index::{Entry, TileIndex};
use std::alloc::{AllocError, Global};

/// So few item boxes are each held against all others, run by run, faster than tiles are made for them.
const FEW: usize = 256;

/// The label of each place, and how many labels there are.
#[derive(Drop)]
pub(crate) struct Labels {
    pub labels: Vec<Option<u32>>,
    pub count: u32,
}

/// Whether the other place has no label yet and the place touches it.
fn newly_touched(net: &Conductors<'_>, labels: &[Option<u32>], place: usize, other: usize) -> bool
    requires places { length labels.now ≡ length net.now.ids.now }
    requires place { place < length net.now.ids.now }
    requires other { other < length net.now.ids.now }
    ensures touch { IsTrue result
        → TouchOn net.now.board.now (slice_index net.now.ids.now place)
        (slice_index net.now.ids.now other) }
    ensures free { IsTrue result → label_at labels.now other ≡ None }
    ensures over { result ≡ false
        → TouchOn net.now.board.now (slice_index net.now.ids.now place)
        (slice_index net.now.ids.now other) → IsLabelled labels.now other }
{
    labels[other].is_none() && touch_on(net.board, net.ids[place], net.ids[other])
}

/// `visit` without an index: the item boxes of all places from the first on are gone through.
fn visit_item_boxes(
    net: &Conductors<'_>,
    first: usize,
    place: usize,
    label: u32,
    labels: &mut [Option<u32>],
    stack: &mut Vec<usize>,
) -> Result<(), AllocError>
    requires rises { Rises net.now.ids.now }
    requires item_boxes { AreItemBoxes (TouchOn net.now.board.now) net.now.ids.now
        net.now.item_boxes.now }
    requires runs { AreBoxRuns net.now.item_boxes.now net.now.runs.now }
    requires places { length labels.old ≡ length net.now.ids.now }
    requires place { place < length net.now.ids.now }
    requires first { (i : ℕ) → i < first → IsLabelled labels.old i }
    ensures { OnOk result (IsVisitedWhole (TouchOn net.now.board.now) net.now.ids.now
        place label labels.old labels.new stack.old.items stack.new.items) }
{
    let own = net.item_boxes[place];
    let mut other = next_met(net.item_boxes, net.runs, own, first);
    'others: while other < net.ids.len() {
        if newly_touched(net, labels, place, other) {
            labels[other] = Some(label);
            stack.push(other)?;
        }
        other = next_met(net.item_boxes, net.runs, own, other + 1);
    }
    Ok(())
}

/// Whether the pair is asked for in this tile, and the other has no label yet and touches the first.
fn newly_asked(
    net: &Conductors<'_>,
    index: &TileIndex,
    labels: &[Option<u32>],
    tile: u32,
    own: Entry,
    other: Entry,
) -> bool
    requires places { length labels.now ≡ length net.now.ids.now }
    requires own_place { own.id < length net.now.ids.now }
    requires other_place { other.id < length net.now.ids.now }
    requires own { FitsIndex own.bounds }
    requires other { FitsIndex other.bounds }
    ensures asked { IsTrue result → IsTrue (is_asked (margin index.now) tile own other) }
    ensures touch { IsTrue result
        → TouchOn net.now.board.now (slice_index net.now.ids.now own.id)
        (slice_index net.now.ids.now other.id) }
    ensures free { IsTrue result → label_at labels.now other.id ≡ None }
    ensures over { result ≡ false → IsTrue (is_asked (margin index.now) tile own other)
        → TouchOn net.now.board.now (slice_index net.now.ids.now own.id)
        (slice_index net.now.ids.now other.id) → IsLabelled labels.now other.id }
{
    // most have a label when they are met again
    if labels[other.id as usize].is_some() {
        return false;
    }
    is_asked(index, tile, own, other)
        && newly_touched(net, labels, own.id as usize, other.id as usize)
}

/// Labels those of a tile's entries that are asked for there and that the place touches, and puts the new ones on the stack.
fn visit_tile(
    net: &Conductors<'_>,
    index: &TileIndex,
    tile: u32,
    own: Entry,
    label: u32,
    labels: &mut [Option<u32>],
    stack: &mut Vec<usize>,
) -> Result<(), AllocError>
    requires holds { HoldsItemBoxes net.now.item_boxes.now index.now }
    requires rises { Rises net.now.ids.now }
    requires many { length net.now.item_boxes.now ≡ length net.now.ids.now }
    requires places { length labels.old ≡ length net.now.ids.now }
    requires place { own.id < length net.now.ids.now }
    requires own { FitsIndex own.bounds }
    ensures { OnOk result (IsVisited (TouchOn net.now.board.now) net.now.ids.now
        (asked_in net.now.ids.now index.now tile own)
        own.id label labels.old labels.new stack.old.items stack.new.items) }
{
    for other in index.near(tile) {
        let found = other.id as usize;
        if newly_asked(net, index, labels, tile, own, *other) {
            labels[found] = Some(label);
            stack.push(found)?;
        }
    }
    Ok(())
}

/// Visits a place in each tile that its item box meets.
fn visit_tiles(
    net: &Conductors<'_>,
    index: &TileIndex,
    own: Entry,
    label: u32,
    labels: &mut [Option<u32>],
    stack: &mut Vec<usize>,
) -> Result<(), AllocError>
    requires holds { HoldsItemBoxes net.now.item_boxes.now index.now }
    requires rises { Rises net.now.ids.now }
    requires item_boxes { AreItemBoxes (TouchOn net.now.board.now) net.now.ids.now
        net.now.item_boxes.now }
    requires places { length labels.old ≡ length net.now.ids.now }
    requires own { IsItemBoxAt net.now.item_boxes.now own }
    ensures { OnOk result (IsVisitedWhole (TouchOn net.now.board.now) net.now.ids.now
        own.id label labels.old labels.new stack.old.items stack.new.items) }
{
    let area = index.area(own.bounds);
    let end = area.end();
    let mut tile = area.first();
    'tiles: while tile < end {
        visit_tile(net, index, tile as u32, own, label, labels, stack)?;
        tile = area.after(tile);
    }
    Ok(())
}

/// Labels all that the place touches, and puts the new ones on the stack. Each place before the first has a label.
fn visit(
    net: &Conductors<'_>,
    index: Option<&TileIndex>,
    first: usize,
    place: usize,
    label: u32,
    labels: &mut [Option<u32>],
    stack: &mut Vec<usize>,
) -> Result<(), AllocError>
    requires holds { IfSome index (λ held. HoldsItemBoxes net.now.item_boxes.now held.now) }
    requires rises { Rises net.now.ids.now }
    requires item_boxes { AreItemBoxes (TouchOn net.now.board.now) net.now.ids.now
        net.now.item_boxes.now }
    requires runs { AreBoxRuns net.now.item_boxes.now net.now.runs.now }
    requires few { length net.now.ids.now < 2 ^ 32 }
    requires places { length labels.old ≡ length net.now.ids.now }
    requires place { place < length net.now.ids.now }
    requires first { (i : ℕ) → i < first → IsLabelled labels.old i }
    ensures { OnOk result (IsVisitedWhole (TouchOn net.now.board.now) net.now.ids.now
        place label labels.old labels.new stack.old.items stack.new.items) }
{
    match index {
        None => visit_item_boxes(net, first, place, label, labels, stack),
        Some(held) => {
            let own = Entry {
                id: place as u32,
                bounds: net.item_boxes[place],
            };
            visit_tiles(net, held, own, label, labels, stack)
        }
    }
}

/// Gives the label to all that chains of touches join with the place.
fn spread(
    net: &Conductors<'_>,
    index: Option<&TileIndex>,
    start: usize,
    label: u32,
    labels: &mut [Option<u32>],
    stack: &mut Vec<usize>,
) -> Result<(), AllocError>
    requires holds { IfSome index (λ held. HoldsItemBoxes net.now.item_boxes.now held.now) }
    requires rises { Rises net.now.ids.now }
    requires item_boxes { AreItemBoxes (TouchOn net.now.board.now) net.now.ids.now
        net.now.item_boxes.now }
    requires runs { AreBoxRuns net.now.item_boxes.now net.now.runs.now }
    requires few { length net.now.ids.now < 2 ^ 32 }
    requires labels { AreLabels (TouchOn net.now.board.now) net.now.ids.now start label labels.old }
    requires start { start < length net.now.ids.now }
    requires free { label_at labels.old start ≡ None }
    requires empty { stack.old.items ≡ [] }
    ensures labels { OnOk result
        (AreLabels (TouchOn net.now.board.now) net.now.ids.now (start + 1) (label + 1) labels.new) }
    ensures empty { OnOk result (stack.new.items ≡ []) }
{
    labels[start] = Some(label);
    stack.push(start)?;
    'spreading: while let Some(place) = stack.pop() {
        visit(net, index, start, place, label, labels, stack)?;
    }
    Ok(())
}

/// Labels the places of all groups, in the order of their first places. What touches is found by the index, where there is one.
fn label_all(
    alloc: Global,
    net: &Conductors<'_>,
    index: Option<&TileIndex>,
) -> Result<Labels, AllocError>
    requires holds { IfSome index (λ held. HoldsItemBoxes net.now.item_boxes.now held.now) }
    requires rises { Rises net.now.ids.now }
    requires item_boxes { AreItemBoxes (TouchOn net.now.board.now) net.now.ids.now
        net.now.item_boxes.now }
    requires runs { AreBoxRuns net.now.item_boxes.now net.now.runs.now }
    requires few { length net.now.ids.now < 2 ^ 32 }
    ensures { IfOk result (λ found.
        AreLabels (TouchOn net.now.board.now) net.now.ids.now
        (length net.now.ids.now) found.count found.labels.items) }
{
    let mut labels = vec![in alloc; None; net.ids.len()]?;
    let mut count: u32 = 0;
    let mut stack = Vec::new(alloc);
    for start in 0..net.ids.len() {
        if labels[start].is_none() {
            spread(net, index, start, count, &mut labels, &mut stack)?;
            count += 1;
        }
    }
    Ok(Labels { labels, count })
}

/// Labels the places of all groups, in the order of their first places.
pub(crate) fn label_groups(alloc: Global, net: &Conductors<'_>) -> Result<Labels, AllocError>
    requires rises { Rises net.now.ids.now }
    requires item_boxes { AreItemBoxes (TouchOn net.now.board.now) net.now.ids.now
        net.now.item_boxes.now }
    requires runs { AreBoxRuns net.now.item_boxes.now net.now.runs.now }
    requires few { length net.now.ids.now < 2 ^ 32 }
    ensures { IfOk result (λ found.
        AreLabels (TouchOn net.now.board.now) net.now.ids.now
        (length net.now.ids.now) found.count found.labels.items) }
{
    if net.ids.len() <= FEW {
        return label_all(alloc, net, None);
    }
    let item_boxes = spread_out(alloc, net.item_boxes)?;
    let index = index_of(alloc, &item_boxes)?;
    let none = Vec::new(alloc);
    let wide = Conductors {
        board: net.board,
        ids: net.ids,
        item_boxes: &item_boxes,
        runs: &none,
    };
    label_all(alloc, &wide, Some(&index))
}
