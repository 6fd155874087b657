//! The items that an edit may concern.

ghost use Rattle.std.specs.Prelude.{◌≡◌, ◌↔◌, IsTrue, Some, OnOk, IfOk, IfSome};
ghost use Rattle.std.specs.Option.{option_copied};
ghost use Rattle.geo_seg.specs.Boxes.{FitsIndex};
ghost use Rattle.one_item.specs.declared.item.Item.{Item};
ghost use Rattle.board_items.specs.Boards.{item_at};
ghost use Rattle.one_item.specs.ItemParts.{parts_of};
ghost use Rattle.one_item.specs.Extents.{AreBoundsOf};
ghost use Rattle.board_index.specs.IndexedItems.{HoldsItems};
ghost use Rattle.kept_facts.specs.FactUpdates.{GiveSame};
ghost use Rattle.kept_facts.specs.ConcernedItems.{HasNear, HasOthers, HasConcerned, AreAsked};

use crate::marks::{give_same, mark_at, mark_of};
use board_items::{Board, Item};
use box_index::{TileIndex, push_ids_near, put_in_order};
use geo_seg::Bounds;
use std::alloc::{AllocError, Global};

/// The bounds, which the index takes.
fn bounds_of(item: &Item) -> Option<Bounds>
    ensures least { AreBoundsOf (parts_of item.now) result }
    ensures fits { IfSome result FitsIndex }
{
    item.bounds()
}

/// Appends the ids of the entries whose boxes meet that of the area or body.
fn push_near(index: &TileIndex, mark: Option<&Item>, ids: &mut Vec<u32>) -> Result<(), AllocError>
    ensures { OnOk result
        (HasNear index.now (option_copied mark.entry) ids.old.items ids.new.items) }
{
    match mark {
        None => Ok(()),
        Some(mark) => match bounds_of(mark) {
            None => Ok(()),
            Some(bounds) => push_ids_near(index, bounds, ids),
        },
    }
}

/// Whether the item of the id, if there is one, has the same name from the area or body `before` as from the one `now`, or none from both.
fn is_unconcerned(board: &Board, id: u32, before: Option<&Item>, now: Option<&Item>) -> bool
    ensures { IsTrue result
        ↔ ((item : Item) → item_at board.now.items id ≡ Some item
        → GiveSame item (option_copied before.entry) (option_copied now.entry)) }
{
    match board.get(id) {
        None => true,
        Some(item) => give_same(item, before, now),
    }
}

/// Appends those of the ids whose items have another name from the area or body `before` than from the one `now`.
fn push_others(
    board: &Board,
    near: &[u32],
    before: Option<&Item>,
    now: Option<&Item>,
    asked: &mut Vec<u32>,
) -> Result<(), AllocError>
    ensures { OnOk result
        (HasOthers board.now near.now (option_copied before.entry)
        (option_copied now.entry) asked.old.items asked.new.items) }
{
    for id in near {
        if !is_unconcerned(board, *id, before, now) {
            asked.push(*id)?;
        }
    }
    Ok(())
}

/// Appends the ids of all items that have another name from an area or a body than before. `near` is room for ids.
fn push_concerned(
    board: &Board,
    index: &TileIndex,
    near: &mut Vec<u32>,
    before: Option<&Item>,
    now: Option<&Item>,
    asked: &mut Vec<u32>,
) -> Result<(), AllocError>
    requires { HoldsItems board.now index.now }
    ensures { OnOk result
        (HasConcerned board.now (option_copied before.entry)
        (option_copied now.entry) asked.old.items asked.new.items) }
{
    near.clear();
    push_near(index, before, near)?;
    push_near(index, now, near)?;
    put_in_order(near);
    push_others(board, near, before, now, asked)
}

/// These ids, and those of all items that have another name from an area or a body of theirs than before; rising. `before` are the
/// areas and bodies as they were.
pub(crate) fn asked_for(
    alloc: Global,
    board: &Board,
    index: &TileIndex,
    ids: &[u32],
    before: &[Option<Item>],
) -> Result<Vec<u32>, AllocError>
    requires { HoldsItems board.now index.now }
    ensures { IfOk result (λ asked. AreAsked board.now ids.now before.now asked.items) }
{
    let mut near = Vec::new(alloc);
    let mut asked = Vec::new(alloc);
    asked.extend_from_slice(ids)?;
    for place in 0..ids.len() {
        let was = mark_of(before, place);
        let is = mark_at(board, ids[place]);
        push_concerned(board, index, &mut near, was, is, &mut asked)?;
    }
    put_in_order(&mut asked);
    Ok(asked)
}
