//! Laws of rows that are kept. The functions do nothing: each clause holds for all that is checked.

ghost use Rattle.std.specs.Prelude.{ℕ, List};
ghost use Rattle.box_index.specs.Tiles.{PlainIndex, IsSoundIndex};
ghost use Rattle.pair_check.specs.PlainRow.{PlainRow};
ghost use Rattle.pair_check.specs.Rows.{Checked, AreRows};
ghost use Rattle.row_check.specs.RowsOfTile.{IsIndexOf};
ghost use Rattle.row_check.specs.Whole.{AreEnough};
ghost use Rattle.kept_rows.specs.CheckChanges.{IsCheckChange, AreUpdated};

/// The rows after a change are those that it left, those of each item that changed alone, and those of the tiles that hold such an
/// item, put in order.
pub fn rows_updated()
    ensures { (old new : Checked) (index : PlainIndex) → IsSoundIndex index → IsIndexOf new index
        → (changed tiles : List ℕ) → IsCheckChange old new changed → AreEnough index changed tiles
        → (rows after : List PlainRow) → AreRows old rows
        → AreUpdated new index tiles changed rows after → AreRows new after }
{}
