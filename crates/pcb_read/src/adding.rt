//! Items that go into a board. What makes and adds the one item of a track or a via is inlined, so that it is made where it stays.

ghost use Rattle.std.specs.Prelude.{◌≡◌, ◌<◌, ◌≤◌, suc, true, OnOk, OnErr, IfOk, IfErr, Result};
ghost use Rattle.board_items.specs.Boards.{with_item, is_admitted};
ghost use Rattle.board_items.specs.ItemRefusals.{capacity_of};
ghost use Rattle.sexpr_read.specs.TreeViews.{tree_of};
ghost use Rattle.board_errors.specs.declared.errors.BoardError.{BoardError};
ghost use Rattle.one_item.specs.declared.item.Item.{Item};
ghost use Rattle.part_read.specs.NodeResults.{Gives};
ghost use Rattle.part_read.specs.Graphics.{one_item};
ghost use Rattle.part_read.specs.Ready.{IsReady, AreReady};
ghost use Rattle.pcb_read.specs.RelatedResults.{LeavesSome};
ghost use Rattle.pcb_read.specs.ItemsOf.{in_capacity};
ghost use Rattle.pcb_read.specs.BoardOf.{with_items, with_found, HasFirstOf};

use board_items::{Board, BoardError, Item};
use list_read::place;
use sexpr_read::Node;

/// Appends an item that the board takes, as was tested when it was read.
#[inline(always)]
fn add_item(board: &mut Board, item: Item) -> Result<(), BoardError>
    requires unit { item.unit < 4294967295 }
    requires admitted { is_admitted board.old item ≡ true }
    requires capacity { 0 < capacity_of board.old }
    ensures added { OnOk result (board.new ≡ with_item board.old item) }
    ensures unchanged { OnErr result (board.new ≡ board.old) }
    ensures only { IfErr result (λ e. e ≡ BoardError.OutOfMemory) }
{
    board.push_admitted(item)?;
    Ok(())
}

/// Appends the items of a unit in order. They are items that the board takes, one after another, as the readers give them.
/// Running out of memory is the one refusal; the board then has the first of them, or none, behind the items that it had, and is
/// else as it was.
pub fn add_items(board: &mut Board, unit: u32, items: Vec<Item>) -> Result<(), BoardError>
    requires { AreReady board.old unit items.items }
    ensures added { OnOk result (board.new ≡ with_items board.old items.items) }
    ensures kept { OnErr result (HasFirstOf items.items board.old board.new) }
    ensures copper { OnOk result (board.new.copper ≡ board.old.copper) }
    ensures only { IfErr result (λ e. e ≡ BoardError.OutOfMemory) }
{
    for item in items {
        add_item(board, item)?;
    }
    Ok(())
}

/// Appends the one item that was read of a list, where there is room for it.
#[inline(always)]
pub(crate) fn add_one(
    board: &mut Board,
    unit: u32,
    node: Node<'_, '_>,
    answer: Result<Item, BoardError>,
) -> Result<(), BoardError>
    requires { IfOk answer (IsReady board.old unit) }
    ensures read { (said : Result Item BoardError) → Gives answer said → LeavesSome result board.new
        (λ left. left ≡ with_found board.old (in_capacity board.old unit (tree_of node.entry)
        (one_item said))) }
    ensures copper { OnOk result (board.new.copper ≡ board.old.copper) }
    ensures not_below { OnOk result (board.old.next_unit ≤ board.new.next_unit) }
    ensures one_at_most { OnOk result (unit ≡ board.old.next_unit
        → board.new.next_unit ≤ suc board.old.next_unit) }
{
    // A match moves the item less often than `?` does.
    match answer {
        Err(error) => Err(error),
        Ok(item) => {
            if board.left() == 0 || unit == u32::MAX {
                drop(item);
                return Err(BoardError::TooMany { at: place(node) });
            }
            add_item(board, item)
        }
    }
}
