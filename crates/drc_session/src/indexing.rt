//! The index after an edit.

ghost use Rattle.std.specs.Prelude.{◌≡◌, ◌∷◌, [], OnOk};
ghost use Rattle.board_items.specs.Boards.{PlainBoard};
ghost use Rattle.board_index.specs.IndexedItems.{IsIndexOfItems};
ghost use Rattle.board_laws.specs.Edits.{IsEdit};
ghost use Rattle.drc_session.specs.Looks.{IsUpdated};

use crate::looking::box_of;
use board_items::Board;
use box_index::TileIndex;
use std::alloc::AllocError;

/// Takes out the entry of the id, and puts in that of the item of the id as it is now, if it has bounds.
#[tactic(auto, using(crate::proofs::Entries::absent_after, crate::proofs::Entries::updated_gone, crate::proofs::Entries::updated_put))]
fn update_entry(board: &Board, index: &mut TileIndex, id: u32) -> Result<(), AllocError>
    ensures updated { OnOk result (IsUpdated board.now (id ∷ []) index.old index.new) }
    ensures reach { index.new.reach ≡ index.old.reach }
{
    index.remove(id);
    match box_of(board, id) {
        None => Ok(()),
        Some(bounds) => index.insert(id, bounds),
    }
}

/// Takes out the entry of each of these ids, and puts in that of the item of the id as it is now, if it has bounds.
fn update_entries(board: &Board, index: &mut TileIndex, ids: &[u32]) -> Result<(), AllocError>
    ensures updated { OnOk result (IsUpdated board.now ids.now index.old index.new) }
    ensures reach { index.new.reach ≡ index.old.reach }
{
    for id in ids {
        update_entry(board, index, *id)?;
    }
    Ok(())
}

/// Makes the index of a board's items before an edit of these ids that of the board as it is now. Only running out of memory fails it, and
/// the index is then of no use.
#[tactic(auto, using(crate::proofs::Entries::updated_index))]
pub(crate) fn update_index(
    board: &Board,
    index: &mut TileIndex,
    ids: &[u32],
) -> Result<(), AllocError>
    ensures items { (old : PlainBoard) → IsEdit old board.now ids.now → IsIndexOfItems old index.old
        → OnOk result (IsIndexOfItems board.now index.new) }
    ensures reach { index.new.reach ≡ index.old.reach }
{
    update_entries(board, index, ids)
}
