//! Operations that are done.

ghost use Rattle.std.specs.Prelude.{◌≡◌, ◌≢◌, ◌≤◌, true, [], map, IfOk, OnOk, unsigned_abs};
ghost use Rattle.board_items.specs.Back.{kept_entry, FitsBack};
ghost use Rattle.board_items.specs.Boards.{IsSound};
ghost use Rattle.board_items.specs.UnitMoves.{unit_stays};
ghost use Rattle.part_read.specs.Ready.{AreReady};
ghost use Rattle.board_edits.specs.Operations.{After, nothing, append, put_back, take_out, shift};
ghost use Rattle.board_edits.specs.Fitting.{plain_operation, OperationFits, IsInverseOperation, GivesNothing, AddsNone};
ghost use Rattle.board_edits.specs.Making.{ids_of, without_added, without_put, shifted_back, IsMade};
ghost use Rattle.board_edits.specs.TouchedItems.{ids_touched, AreEdited, AreKnown};

use crate::operation::Operation;
use crate::touching::ids_of_unit;
use board_items::laws::{moved_back, moved_by_nothing, moved_nowhere};
use board_items::{Board, Item, Kept, Nm};
use board_laws::laws;
use pcb_read::add_items;
use std::alloc::{AllocError, Global};

/// What was done: the ids of the items that were added, put back, taken out or moved, rising, and the inverse operation.
#[derive(Drop)]
pub struct Made {
    pub ids: Vec<u32>,
    pub back: Operation,
}

// ---- items that are added

/// The operation that takes out what is added in this unit.
fn without_added(unit: u32, items: &[Item]) -> Operation
    ensures { plain_operation result ≡ without_added unit items.now }
{
    if items.is_empty() {
        Operation::Nothing
    } else {
        Operation::TakeOut { unit }
    }
}

/// Appends the items, which are of the next unit.
fn append(alloc: Global, board: &mut Board, items: Vec<Item>) -> Result<Made, AllocError>
    requires { AreReady board.old board.old.next_unit items.items }
    ensures { IfOk result (IsMade (append items.items) board.old board.new) }
{
    laws::added();
    board.soundness();
    let unit = board.next_unit();
    let back = without_added(unit, &items);
    if add_items(board, unit, items).is_err() {
        return Err(AllocError);
    }
    board.soundness();
    let ids = ids_of_unit(alloc, board, unit)?;
    Ok(Made { ids, back })
}

// ---- items that are put back

/// The ids of items that are kept.
fn ids_kept(alloc: Global, items: &[Kept]) -> Result<Vec<u32>, AllocError>
    ensures { IfOk result (λ ids. ids.items ≡ ids_of (map kept_entry items.now)) }
{
    let mut ids = Vec::new(alloc);
    for kept in items {
        ids.push(kept.id)?;
    }
    Ok(ids)
}

/// The operation that takes them out again. They are of one unit.
fn without_put(items: &[Kept]) -> Operation
    ensures { plain_operation result ≡ without_put (map kept_entry items.now) }
{
    match items.first() {
        None => Operation::Nothing,
        Some(kept) => Operation::TakeOut {
            unit: kept.item.unit,
        },
    }
}

/// Puts the items back under their ids.
fn put_back(alloc: Global, board: &mut Board, items: Vec<Kept>) -> Result<Made, AllocError>
    requires { FitsBack board.old (map kept_entry items.items) }
    ensures { IfOk result (IsMade (put_back (map kept_entry items.items)) board.old board.new) }
{
    laws::put_back();
    board.soundness();
    let ids = ids_kept(alloc, &items)?;
    let back = without_put(&items);
    let mut left = items;
    board.put_back(&mut left)?;
    board.soundness();
    Ok(Made { ids, back })
}

// ---- units that are taken out

/// Takes the unit out. `ids` are those of its items.
fn take_out(board: &mut Board, unit: u32, ids: Vec<u32>) -> Result<Made, AllocError>
    requires { ids.items ≡ ids_touched board.old (take_out unit) }
    ensures { IfOk result (IsMade (take_out unit) board.old board.new) }
{
    laws::taken_out();
    board.soundness();
    let items = board.taken(unit)?;
    board.soundness();
    Ok(Made {
        ids,
        back: Operation::PutBack { items },
    })
}

// ---- units that are moved

/// The operation that moves the unit back. `ids` are those of its items that were moved, each from one place on the board to another; where
/// there are none, nothing is moved back.
fn shifted_back(unit: u32, dx: Nm, dy: Nm, ids: &[u32]) -> Operation
    requires { ids.now ≢ [] → (unsigned_abs dx ≤ 1000000000) × (unsigned_abs dy ≤ 1000000000) }
    ensures { plain_operation result ≡ shifted_back unit dx dy ids.now }
{
    if ids.is_empty() {
        return Operation::Nothing;
    }
    Operation::Shift {
        unit,
        dx: -dx,
        dy: -dy,
    }
}

/// Moves the unit, which stays on the board. `ids` are those of its items that move.
fn shift(board: &mut Board, unit: u32, dx: Nm, dy: Nm, ids: Vec<u32>) -> Made
    requires stays { unit_stays unit dx dy board.old.items ≡ true }
    requires ids { ids.items ≡ ids_touched board.old (shift unit dx dy) }
    ensures { IsMade (shift unit dx dy) board.old board.new result }
{
    laws::moved();
    moved_back();
    moved_by_nothing();
    moved_nowhere();
    board.soundness();
    board.shift_unit(unit, dx, dy);
    board.soundness();
    let back = shifted_back(unit, dx, dy, &ids);
    Made { ids, back }
}

// ---- all operations

/// Does the operation, with all that is said of it.
fn done(
    alloc: Global,
    board: &mut Board,
    operation: Operation,
    touched: Vec<u32>,
) -> Result<Made, AllocError>
    requires fits { OperationFits board.old (plain_operation operation) }
    requires touched { touched.items ≡ ids_touched board.old (plain_operation operation) }
    ensures { IfOk result (IsMade (plain_operation operation) board.old board.new) }
{
    match operation {
        Operation::Nothing => {
            board.soundness();
            Ok(Made {
                ids: touched,
                back: Operation::Nothing,
            })
        }
        Operation::Append { items } => append(alloc, board, items),
        Operation::PutBack { items } => put_back(alloc, board, items),
        Operation::TakeOut { unit } => take_out(board, unit, touched),
        Operation::Shift { unit, dx, dy } => Ok(shift(board, unit, dx, dy, touched)),
    }
}

/// Does the operation to a board that takes it. `touched` are the ids that [`ids_touched`](crate::ids_touched) gives of it. Only running
/// out of memory fails it, and the board may then hold a part of what was to be added. An operation that gives nothing has nothing as its
/// inverse.
pub fn make(
    alloc: Global,
    board: &mut Board,
    operation: Operation,
    touched: Vec<u32>,
) -> Result<Made, AllocError>
    requires fits { OperationFits board.old (plain_operation operation) }
    requires touched { touched.items ≡ ids_touched board.old (plain_operation operation) }
    ensures after { OnOk result (After board.old (plain_operation operation) board.new) }
    ensures sound { IsSound board.old × IsSound board.new }
    ensures back { IfOk result (λ made.
        IsInverseOperation (plain_operation made.back) board.new board.old ×
        AddsNone (plain_operation made.back)) }
    ensures none { IfOk result (λ made. GivesNothing (plain_operation operation)
        → plain_operation made.back ≡ nothing) }
    ensures edited { IfOk result (λ made. AreEdited board.old board.new made.ids.items) }
    ensures known { IfOk result (λ made.
        AreKnown board.old (ids_touched board.old (plain_operation operation))
        made.ids.items) }
{
    board.soundness();
    let made = done(alloc, board, operation, touched);
    board.soundness();
    made
}
