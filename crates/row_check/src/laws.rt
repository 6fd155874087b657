//! Laws of rows. The functions do nothing: each clause holds for all that is checked and for all rows.

ghost use Rattle.std.specs.Prelude.{◌≡◌, ◌⊎◌, ℕ, List, All, Contains};
ghost use Rattle.std.specs.List.Sorted.{IsStrictlyIncreasing, IsPermutation};
ghost use Rattle.box_index.specs.Tiles.{PlainIndex, IsSoundIndex};
ghost use Rattle.pair_check.specs.PlainRow.{PlainRow};
ghost use Rattle.pair_check.specs.Rows.{Checked, IsRow, IsRowOfTwo, AreRows, HasItems, HasSource};
ghost use Rattle.row_check.specs.RowsOfTile.{IsIndexOf, AreBatches, end_to_end};
ghost use Rattle.row_check.specs.Whole.{AreOnceWhere, AreInOrder, AreEnough, IsAskedInOne, IsOfTiles};

/// A board has one list of rows under the classes of a project and rules.
pub fn one_list()
    ensures { (c : Checked) (a b : List PlainRow) → AreRows c a → AreRows c b → a ≡ b }
{}

/// The items of a board's rows are on it.
pub fn rows_have_items()
    ensures { (c : Checked) (rows : List PlainRow) → AreRows c rows → All (HasItems c.board) rows }
{}

/// Where a rule asks for what a row says, it is one of the rules.
pub fn rows_have_sources()
    ensures { (c : Checked) (rows : List PlainRow) → AreRows c rows → All (HasSource c.rules) rows }
{}

/// Where the tiles have all those that hold an entry that changed, one of them answers for each pair that breaks something and has
/// an item that changed.
pub fn enough_answer()
    ensures { (c : Checked) (index : PlainIndex) → IsSoundIndex index → IsIndexOf c index
        → (changed tiles : List ℕ) → AreEnough index changed tiles
        → (row : PlainRow) → IsRowOfTwo c row → Contains changed row.first
        ⊎ Contains changed row.second → IsAskedInOne index tiles changed row.first row.second }
{}

/// The rows of tiles, put end to end, have each row once.
pub fn tiles_once()
    ensures { (c : Checked) (index : PlainIndex) → IsSoundIndex index → IsIndexOf c index
        → (tiles changed : List ℕ) → IsStrictlyIncreasing tiles
        → (batches : List (List PlainRow)) → AreBatches c index tiles changed batches
        → AreOnceWhere (IsOfTiles c index tiles changed) (end_to_end batches) }
{}

/// The rows of a board that stand there once each, in any order, are its rows once they are put in order.
pub fn once_in_order()
    ensures { (c : Checked) (rows sorted : List PlainRow) → AreOnceWhere (IsRow c) rows
        → IsPermutation rows sorted → AreInOrder sorted → AreRows c sorted }
{}
