//! Laws of boards, and that of items that are moved by nothing. The functions do nothing: each clause holds for all boards.

ghost use Rattle.std.specs.Prelude.{◌≡◌, ℕ, ℤ, pos, neg_ℤ};
ghost use Rattle.board_items.specs.Boards.{PlainBoard};
ghost use Rattle.board_items.specs.UnitMoves.{IsMoved};

pub use one_item::laws::moved_by_nothing;

/// A unit that is moved gives one board.
pub fn one_move()
    ensures { (unit : ℕ) (dx dy : ℤ) (old a b : PlainBoard) → IsMoved unit dx dy old a →
        IsMoved unit dx dy old b → a ≡ b }
{}

/// A move by nothing changes nothing.
pub fn moved_nowhere()
    ensures { (unit : ℕ) (old new : PlainBoard) → IsMoved unit (pos 0) (pos 0) old new → new ≡ old }
{}

/// A move is undone by the move that is opposite.
pub fn moved_back()
    ensures { (unit : ℕ) (dx dy : ℤ) (old new : PlainBoard) → IsMoved unit dx dy old new →
        IsMoved unit (neg_ℤ dx) (neg_ℤ dy) new old }
{}
