//! Items at hand: those of a tile, looked up once, so that a pair takes no look at the board.

ghost use Rattle.std.specs.Prelude.{◌≡◌, None, All, IfOk, MatchOption};
ghost use Rattle.board_items.specs.Boards.{item_at};
ghost use Rattle.pair_check.specs.CheckViews.{checked_by, IsWholeView};
ghost use Rattle.row_check.specs.Operands.{StandsAt};

use box_index::Entry;
use pair_check::{CheckView, Single, single_at};
use std::alloc::{AllocError, Global};

/// An item with its facts, under its id.
#[derive(Clone, Copy)]
pub(crate) struct Operand<'a> {
    pub(crate) id: u32,
    pub(crate) single: Single<'a>,
}

/// The item of the id, looked up.
pub(crate) fn operand_of<'a>(view: &CheckView<'a>, id: u32) -> Option<Operand<'a>>
    requires { IsWholeView view.now }
    ensures { MatchOption result (item_at (checked_by view.now).board.items id ≡ None)
        (λ operand. (operand.id ≡ id) × StandsAt (checked_by view.now) operand) }
{
    let single = single_at(view, id)?;
    Some(Operand { id, single })
}

/// The items of the entries, in their order. Only running out of memory refuses it.
pub(crate) fn operands_of<'a>(
    alloc: Global,
    view: &CheckView<'a>,
    entries: &[Entry],
) -> Result<Vec<Operand<'a>>, AllocError>
    requires { IsWholeView view.now }
    ensures { IfOk result (λ operands. All (StandsAt (checked_by view.now)) operands.items) }
{
    let mut operands = Vec::with_capacity(alloc, entries.len())?;
    for entry in entries {
        // each entry has its item
        let Some(operand) = operand_of(view, entry.id) else {
            return Ok(operands);
        };
        operands.push(operand)?;
    }
    Ok(operands)
}

/// The item of the id: that of so many from the end, where it is the one, and else looked up.
pub(crate) fn operand_at<'a>(
    view: &CheckView<'a>,
    operands: &[Operand<'a>],
    count: usize,
    id: u32,
) -> Option<Operand<'a>>
    requires view { IsWholeView view.now }
    requires operands { All (StandsAt (checked_by view.now)) operands.now }
    ensures { MatchOption result (item_at (checked_by view.now).board.items id ≡ None)
        (λ operand. (operand.id ≡ id) × StandsAt (checked_by view.now) operand) }
{
    match operands.get(operands.len().wrapping_sub(count)) {
        Some(operand) if operand.id == id => Some(*operand),
        _ => operand_of(view, id),
    }
}
