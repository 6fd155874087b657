//! Laws of what texts say. The functions do nothing: each clause holds for all texts.

ghost use Rattle.std.specs.Prelude.{◌≡◌, ℕ, List, Result};
ghost use Rattle.board_errors.specs.declared.errors.BoardError.{BoardError};
ghost use Rattle.board_items.specs.Boards.{PlainBoard};
ghost use Rattle.one_item.specs.declared.item.Item.{Item};
ghost use Rattle.pcb_read.specs.BoardText.{BoardSays};
ghost use Rattle.pcb_read.specs.ItemText.{SaysItem};

use sexpr_read::laws::one_tree;

/// No text says two things.
pub fn one_reading()
    ensures { (text : List ℕ) (a b : Result PlainBoard BoardError) → BoardSays text a
        → BoardSays text b →
        a ≡ b }
{
    one_tree();
}

/// No text of a list that is added says two things.
pub fn one_list()
    ensures { (board : PlainBoard) (unit : ℕ) (text : List ℕ) (at : ℕ) (a b : Result (List Item)
        BoardError) → SaysItem board unit text at a → SaysItem board unit text at b → a ≡ b }
{
    one_tree();
}
