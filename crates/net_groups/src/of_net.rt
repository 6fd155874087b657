//! The groups of a net.

ghost use Rattle.std.specs.Prelude.{◌<◌, ◌^◌, IfOk, All, length};
ghost use Rattle.board_items.specs.Boards.{IsSound};
ghost use Rattle.net_groups.specs.NetGroups.{AreGroups, HasItem};
ghost use Rattle.board_index.specs.IndexedItems.{HoldsItems};
ghost use Rattle.net_groups.specs.Labels.{AreConductors};
ghost use Rattle.net_groups.specs.ItemBoxes.{AreItemBoxes};
ghost use Rattle.net_groups.specs.Touching.{TouchOn};

use crate::gather::gather;
use crate::group::Group;
use crate::item_boxes::{Conductors, copper_item_box};
use crate::labels::label_groups;
use crate::runs::runs_of;
use board_items::Board;
use box_index::TileIndex;
use geo_seg::Bounds;
use std::alloc::{AllocError, Global};

/// Items of a net with copper: their ids, rising, and an item box of each.
#[derive(Drop)]
struct WithItemBoxes {
    ids: Vec<u32>,
    item_boxes: Vec<Bounds>,
}

/// All items of the net with copper.
fn conductors(alloc: Global, board: &Board, net: u32) -> Result<WithItemBoxes, AllocError>
    ensures sound { IsSound board.now }
    ensures ids { IfOk result (λ found. AreConductors board.now net found.ids.items) }
    ensures few { IfOk result (λ found. length found.ids.items < 2 ^ 32) }
    ensures item_boxes { IfOk result (λ found.
        AreItemBoxes (TouchOn board.now) found.ids.items found.item_boxes.items) }
{
    board.soundness();
    let all = board.of_net(net);
    let mut ids = Vec::with_capacity(alloc, all.len())?;
    let mut item_boxes = Vec::with_capacity(alloc, all.len())?;
    if net == 0 {
        return Ok(WithItemBoxes { ids, item_boxes });
    }
    for id in all {
        if let Some(item_box) = copper_item_box(board, *id) {
            ids.push(*id)?;
            item_boxes.push(item_box)?;
        }
    }
    Ok(WithItemBoxes { ids, item_boxes })
}

/// The groups of a net: all its items with copper, two in one group exactly where a chain of touches joins them.
///
/// Items of one net touch where their copper meets on a layer, and net 0 is no net: it has no groups. Members rise, and
/// groups stand by their least member. Up to 256 items are each held against all others, and more are put into tiles of an
/// index of their own. Only running out of memory refuses it.
pub fn groups_of(alloc: Global, board: &Board, net: u32) -> Result<Vec<Group>, AllocError>
    ensures groups { IfOk result (λ groups. AreGroups board.now net groups.items) }
    ensures filled { IfOk result (λ groups. All (λ group. 0 < length group) groups.items) }
    ensures placed { IfOk result (λ groups. All (All (HasItem board.now)) groups.items) }
{
    let all = conductors(alloc, board, net)?;
    let runs = runs_of(alloc, &all.item_boxes)?;
    let own = Conductors {
        board,
        ids: &all.ids,
        item_boxes: &all.item_boxes,
        runs: &runs,
    };
    let found = label_groups(alloc, &own)?;
    gather(alloc, &all.ids, &found.labels, found.count)
}

/// The groups of a net, for a caller that has an index of all items of the board that have bounds: those of [`groups_of`], which
/// needs no index. Only running out of memory refuses it.
pub fn groups(
    alloc: Global,
    board: &Board,
    net: u32,
    index: &TileIndex,
) -> Result<Vec<Group>, AllocError>
    requires { HoldsItems board.now index.now }
    ensures groups { IfOk result (λ groups. AreGroups board.now net groups.items) }
    ensures filled { IfOk result (λ groups. All (λ group. 0 < length group) groups.items) }
    ensures placed { IfOk result (λ groups. All (All (HasItem board.now)) groups.items) }
{
    groups_of(alloc, board, net)
}
