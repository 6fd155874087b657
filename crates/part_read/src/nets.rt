//! The net of an item, which the board must have declared.

ghost use Rattle.std.specs.Prelude.{◌≡◌, true, is_some, IfOk, option_map};
ghost use Rattle.board_items.specs.Boards.{name_of};
ghost use Rattle.sexpr_read.specs.TreeViews.{tree_of};
ghost use Rattle.part_read.specs.ElementResults.{given_or};
ghost use Rattle.part_read.specs.NetsOf.{declared_in};

use crate::atoms::first_atom;
use crate::numbers::number_in;
use board_items::{Board, BoardError};
use list_read::place;
use sexpr_read::Node;

/// The number of `(net NUMBER)`, which was declared before.
#[tactic(auto, unfolding(crate::specs::NetsOf::declared_in))]
fn declared_in(board: &Board, list: Node<'_, '_>) -> Result<u32, BoardError>
    ensures net { result ≡ declared_in board.now (tree_of list.entry) }
    ensures declared { IfOk result (λ net. is_some (name_of board.now net) ≡ true) }
{
    let atom = first_atom(list)?;
    let number = number_in(atom)?;
    match board.net_name(number) {
        Some(_) => Ok(number),
        None => Err(BoardError::UnknownNet { at: place(atom) }),
    }
}

/// The net of an item by its element, or 0, which is none.
pub fn net_of(board: &Board, found: Option<Node<'_, '_>>) -> Result<u32, BoardError>
    ensures net { result ≡ given_or 0 (declared_in board.now) (option_map tree_of found.entry) }
    ensures declared { is_some (name_of board.now 0) ≡ true
        → IfOk result (λ net. is_some (name_of board.now net) ≡ true) }
{
    match found {
        None => Ok(0),
        Some(list) => declared_in(board, list),
    }
}
