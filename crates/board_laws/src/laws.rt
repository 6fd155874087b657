//! Laws of edits. The functions do nothing: each clause holds for all boards.

ghost use Rattle.std.specs.Prelude.{◌≡◌, ◌≤◌, ℕ, ℤ, nat_eq, true, List, All, Contains};
ghost use Rattle.std.specs.List.{fold};
ghost use Rattle.one_item.specs.declared.item.Item.{Item};
ghost use Rattle.board_items.specs.Boards.{PlainBoard, IsSound, with_item};
ghost use Rattle.board_items.specs.Units.{without_unit};
ghost use Rattle.board_items.specs.UnitMoves.{moves, IsMoved};
ghost use Rattle.board_items.specs.Back.{IsPutBack};
ghost use Rattle.board_laws.specs.Edits.{IsEdit, other_entries};

/// A unit that is taken out is an edit of the ids of its items.
pub fn taken_out()
    ensures { (board : PlainBoard) (unit : ℕ) (ids : List ℕ) → IsSound board →
        IsSound (without_unit board unit) → ((e : ℕ × Item) → Contains board.items e →
        nat_eq e.1.unit unit ≡ true → Contains ids e.0) →
        IsEdit board (without_unit board unit) ids }
{}

/// Items that are put back are an edit of their ids.
pub fn put_back()
    ensures { (board new : PlainBoard) (items : List (ℕ × Item)) (ids : List ℕ) → IsSound board →
        IsSound new → IsPutBack items board new → All (λ e. Contains ids e.0) items →
        IsEdit board new ids }
{}

/// Items that are added one after another are an edit of their ids.
pub fn added()
    ensures { (board : PlainBoard) (items : List Item) (ids : List ℕ) → IsSound board →
        IsSound (fold with_item board items) →
        ((e : ℕ × Item) → Contains (fold with_item board items).items e → board.next_id ≤ e.0 →
        Contains ids e.0) → IsEdit board (fold with_item board items) ids }
{}

/// A move of a unit is an edit of the ids of its items that move.
pub fn moved()
    ensures { (unit : ℕ) (dx dy : ℤ) (old new : PlainBoard) (ids : List ℕ) → IsSound old
        → IsSound new →
        IsMoved unit dx dy old new → ((e : ℕ × Item) → Contains old.items e →
        moves unit e.1 ≡ true → Contains ids e.0) → IsEdit old new ids }
{}

/// A move that is taken back is an edit of the same ids.
pub fn moved_back()
    ensures { (unit : ℕ) (dx dy : ℤ) (old new : PlainBoard) (ids : List ℕ) → IsSound old
        → IsSound new →
        IsMoved unit dx dy old new → ((e : ℕ × Item) → Contains old.items e →
        moves unit e.1 ≡ true → Contains ids e.0) → IsEdit new old ids }
{}

/// An edit turned round is an edit of the same ids.
pub fn turned_round()
    ensures { (old new : PlainBoard) (ids : List ℕ) → IsEdit old new ids → IsEdit new old ids }
{}

/// The entries of other ids are the same list, before and after.
pub fn rest_same()
    ensures { (old new : PlainBoard) (ids : List ℕ) → IsEdit old new ids
        → other_entries ids new.items
        ≡ other_entries ids old.items }
{}
