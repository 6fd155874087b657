//! The items that an operation touches.

ghost use Rattle.std.specs.Prelude.{◌≡◌, not, filter, IfOk};
ghost use Rattle.board_items.specs.Back.{entries_of};
ghost use Rattle.one_item.specs.ItemKinds.{is_note};
ghost use Rattle.board_items.specs.UnitMoves.{moves};
ghost use Rattle.board_items.specs.BoardIterators.{unit_left};
ghost use Rattle.board_edits.specs.Operations.{shift};
ghost use Rattle.board_edits.specs.Fitting.{plain_operation};
ghost use Rattle.board_edits.specs.Making.{ids_of};
ghost use Rattle.board_edits.specs.TouchedItems.{ids_touched};

use crate::operation::Operation;
use board_items::{Board, Item, Nm, UnitIter, What};
use std::alloc::{AllocError, Global};

/// The ids of these items of a unit.
fn ids_in(alloc: Global, items: UnitIter<'_>) -> Result<Vec<u32>, AllocError>
    ensures { IfOk result (λ ids. ids.items ≡ ids_of (unit_left items.entry)) }
{
    let mut ids = Vec::new(alloc);
    for (id, _) in items {
        ids.push(id)?;
    }
    Ok(ids)
}

/// Whether the item is a note, which does not move with its unit.
fn is_note(item: &Item) -> bool
    ensures { result ≡ is_note item.now.what }
{
    matches!(item.what, What::Note { .. })
}

/// The ids of those that are no notes.
fn moving_in(alloc: Global, items: UnitIter<'_>) -> Result<Vec<u32>, AllocError>
    ensures { IfOk result (λ ids. ids.items ≡ ids_of (filter (λ entry. not (is_note entry.1.what))
        (unit_left items.entry))) }
{
    let mut ids = Vec::new(alloc);
    for (id, item) in items {
        if !is_note(item) {
            ids.push(id)?;
        }
    }
    Ok(ids)
}

/// The ids of the unit's items, rising.
pub(crate) fn ids_of_unit(alloc: Global, board: &Board, unit: u32) -> Result<Vec<u32>, AllocError>
    ensures { IfOk result (λ ids. ids.items ≡ ids_of (entries_of unit board.now.items)) }
{
    ids_in(alloc, board.of_unit(unit))
}

/// The ids of the unit's items that move with it.
fn moving_of_unit(alloc: Global, board: &Board, unit: u32) -> Result<Vec<u32>, AllocError>
    ensures { IfOk result (λ ids. ids.items ≡ ids_of (filter (λ entry. moves unit entry.1)
        board.now.items)) }
{
    moving_in(alloc, board.of_unit(unit))
}

/// The ids of the items that a move of the unit moves.
fn shifted_ids(
    alloc: Global,
    board: &Board,
    unit: u32,
    dx: Nm,
    dy: Nm,
) -> Result<Vec<u32>, AllocError>
    ensures { IfOk result (λ ids. ids.items ≡ ids_touched board.now (shift unit dx dy)) }
{
    if dx == 0 && dy == 0 {
        return Ok(Vec::new(alloc));
    }
    moving_of_unit(alloc, board, unit)
}

/// The ids of the items of the board that the operation takes out or moves, rising. A move by nothing moves none. Only running out of
/// memory refuses it.
pub fn ids_touched(
    alloc: Global,
    board: &Board,
    operation: &Operation,
) -> Result<Vec<u32>, AllocError>
    ensures { IfOk result (λ ids.
        ids.items ≡ ids_touched board.now (plain_operation operation.now)) }
{
    match operation {
        Operation::TakeOut { unit } => ids_of_unit(alloc, board, *unit),
        Operation::Shift { unit, dx, dy } => shifted_ids(alloc, board, *unit, *dx, *dy),
        Operation::Nothing | Operation::Append { .. } | Operation::PutBack { .. } => Ok(Vec::new(
            alloc,
        )),
    }
}
