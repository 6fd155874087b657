//! The areas and bodies near an item. An index of boxes tells them, so that an item is not asked against all of them.

ghost use Rattle.std.specs.Prelude.{◌≡◌, [], filter, IfOk, OnOk, IfSome};
ghost use Rattle.geo_seg.specs.Boxes.{FitsIndex};
ghost use Rattle.one_item.specs.ItemKinds.{is_mark};
ghost use Rattle.board_items.specs.Boards.{IsSound, marks_of};
ghost use Rattle.one_item.specs.ItemParts.{parts_of};
ghost use Rattle.one_item.specs.Extents.{AreBoundsOf};
ghost use Rattle.box_index.specs.Tiles.{IsAbsent};
ghost use Rattle.item_facts.specs.NearItems.{is_mark_of, HoldsMarks, IsMarked, AreEnough};

use board_items::{Board, Item, What};
use box_index::{LANES, TileIndex, push_ids_near, put_in_order};
use geo_seg::Bounds;
use std::alloc::{AllocError, Global};

fn is_mark(what: &What) -> bool
    ensures { result ≡ is_mark what.now }
{
    matches!(what, What::Area { .. } | What::Body { .. })
}

/// The bounds, which the index takes.
fn bounds_of(item: &Item) -> Option<Bounds>
    ensures least { AreBoundsOf (parts_of item.now) result }
    ensures fits { IfSome result FitsIndex }
{
    item.bounds()
}

/// Puts the item into the index, if it is an area or a body and has bounds.
fn put_mark(index: &mut TileIndex, id: u32, item: &Item) -> Result<(), AllocError>
    requires { IsAbsent id index.old.entries }
    ensures { OnOk result (IsMarked id item.now index.old index.new) }
{
    if !is_mark(&item.what) {
        return Ok(());
    }
    match bounds_of(item) {
        None => Ok(()),
        Some(bounds) => index.insert(id, bounds),
    }
}

/// An index of the areas and bodies of the board, by their bounds. Only running out of memory refuses it.
pub(crate) fn index_marks(alloc: Global, board: &Board) -> Result<TileIndex, AllocError>
    ensures { IfOk result (λ index. HoldsMarks board.now.items index) }
{
    let mut index = TileIndex::new(alloc, 0)?;
    board.soundness();
    for id in board.marks() {
        if let Some(item) = board.get(*id) {
            put_mark(&mut index, *id, item)?;
        }
    }
    Ok(index)
}

/// Whether the id is that of an area or a body.
fn is_mark_of(board: &Board, id: u32) -> bool
    ensures { result ≡ is_mark_of board.now.items id }
{
    match board.get(id) {
        None => false,
        Some(item) => is_mark(&item.what),
    }
}

/// Leaves those of the ids that are areas or bodies.
fn keep_marks(board: &Board, ids: &mut Vec<u32>)
    ensures { ids.new.items ≡ filter (λ id. is_mark_of board.now.items id) ids.old.items }
{
    ids.retain(|id| is_mark_of(board, *id));
}

/// Whether the box meets more tiles than this. It decides how the areas and bodies near it are found, and not which: no clause needs
/// more of it.
fn spans_more(index: &TileIndex, bounds: Bounds, count: usize) -> bool
    requires { FitsIndex bounds }
{
    let area = index.area(bounds);
    let first = area.first();
    let last = area.end() - 1;
    let rows = (last / LANES).abs_diff(first / LANES);
    let columns = (last % LANES).abs_diff(first % LANES);
    rows.saturating_add(1)
        .saturating_mul(columns.saturating_add(1))
        > count
}

/// Puts the ids of all areas and bodies of the board.
fn push_marks(board: &Board, ids: &mut Vec<u32>) -> Result<(), AllocError>
    requires { ids.old.items ≡ [] }
    ensures marks { OnOk result (ids.new.items ≡ marks_of board.now.items) }
    ensures sound { IsSound board.now }
{
    board.soundness();
    ids.extend_from_slice(board.marks())?;
    Ok(())
}

/// Leaves in `ids` those of the areas and bodies whose boxes meet that of the item, and maybe others; rising. An item without
/// bounds meets none. Where its box meets more tiles than the board has areas and bodies, they are all of these.
///
/// The index has all areas and bodies of the board, and may have other items. What `ids` had before is let go first. Only running out of
/// memory refuses it, and `ids` is then of no use.
pub(crate) fn marks_near(
    board: &Board,
    index: &TileIndex,
    item: &Item,
    ids: &mut Vec<u32>,
) -> Result<(), AllocError>
    requires { HoldsMarks board.now.items index.now }
    ensures { OnOk result (AreEnough item.now board.now.items ids.new.items) }
{
    ids.clear();
    if board.marks().is_empty() {
        return push_marks(board, ids);
    }
    match bounds_of(item) {
        None => Ok(()),
        Some(bounds) => {
            if spans_more(index, bounds, board.marks().len()) {
                return push_marks(board, ids);
            }
            push_ids_near(index, bounds, ids)?;
            keep_marks(board, ids);
            put_in_order(ids);
            Ok(())
        }
    }
}
