//! Laws of operations. The functions do nothing: each clause holds for all boards.

ghost use Rattle.std.specs.Prelude.{◌≡◌, Result};
ghost use Rattle.board_items.specs.Boards.{PlainBoard};
ghost use Rattle.edit_script.specs.Commands.{PlainCommand};
ghost use Rattle.board_edits.specs.declared.refusal.Refusal.{Refusal};
ghost use Rattle.board_edits.specs.Operations.{PlainOperation, Does, After};

use board_items::laws::one_move;
use pcb_read::laws::one_list;

/// A command does one thing to a board.
pub fn one_operation()
    ensures { (board : PlainBoard) (command : PlainCommand) (a b : Result PlainOperation Refusal) →
        Does board command a → Does board command b → a ≡ b }
{
    one_list();
}

/// An operation makes one board of another.
pub fn one_board()
    ensures { (old : PlainBoard) (operation : PlainOperation) (a b : PlainBoard)
        → After old operation a →
        After old operation b → a ≡ b }
{
    one_move();
}
