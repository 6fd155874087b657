//! Laws of footprints. The functions do nothing: each clause holds for all boards and lists.

ghost use Rattle.std.specs.Prelude.{◌≡◌, ℕ, List, Result};
ghost use Rattle.sexpr_read.specs.Tree.{Tree};
ghost use Rattle.board_errors.specs.declared.errors.BoardError.{BoardError};
ghost use Rattle.one_item.specs.declared.item.Item.{Item};
ghost use Rattle.board_items.specs.Boards.{PlainBoard};
ghost use Rattle.footprint_read.specs.FootprintOf.{FootprintSays};

/// A list says one thing: it gives these items, or this refusal.
pub fn one_answer()
    ensures { (board : PlainBoard) (unit : ℕ) (tree : Tree) (a b : Result (List Item) BoardError)
        → FootprintSays board unit tree a → FootprintSays board unit tree b → a ≡ b }
{}
