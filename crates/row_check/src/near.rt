//! Laws of what is near: two items that break something together have parts, and their boxes meet after widening.

ghost use Rattle.std.specs.Prelude.{◌≢◌, ℤ, ◌+ℤ◌, IsTrue, [], Some};
ghost use Rattle.geo_seg.specs.declared.boxes.Bounds.{Bounds};
ghost use Rattle.geo_seg.specs.Boxes.{are_near};
ghost use Rattle.one_item.specs.ItemParts.{parts_of};
ghost use Rattle.one_item.specs.Extents.{AreBoundsOf};
ghost use Rattle.rule_pick.specs.Reach.{IsReach};
ghost use Rattle.pair_check.specs.PlainRow.{PlainRow};
ghost use Rattle.pair_check.specs.Rows.{Checked, IsRowOfTwo};

/// Two items break something together only where their boxes meet, once the one is widened by the reach. Boxes are half
/// nanometres and the reach is nanometres, so it counts twice.
pub fn broken_near()
    ensures { (c : Checked) (row : PlainRow) (n : ℤ) → IsReach c.board c.classes c.rules n
        → (two : IsRowOfTwo c row) (box_a box_b : Bounds)
        → AreBoundsOf (parts_of two.pair.a) (Some box_a)
        → AreBoundsOf (parts_of two.pair.b) (Some box_b)
        → IsTrue (are_near (n +ℤ n) box_a box_b) }
{}

/// Two items that break something together both have parts.
pub fn broken_has_parts()
    ensures { (c : Checked) (row : PlainRow) → (two : IsRowOfTwo c row) → (parts_of two.pair.a ≢ [])
        × (parts_of two.pair.b ≢ []) }
{}
