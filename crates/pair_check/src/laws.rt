//! Laws of rows. The functions do nothing: each clause holds for all values.

ghost use Rattle.std.specs.Prelude.{◌≡◌, ◌↔◌, IsTrue};
ghost use Rattle.pair_check.specs.PlainRow.{PlainRow};
ghost use Rattle.pair_check.specs.SameRows.{same_rows};

/// `==` holds of two rows exactly where they are the same.
pub fn one_row()
    ensures { (p q : PlainRow) → (IsTrue (same_rows p q) ↔ (p ≡ q)) }
{}
