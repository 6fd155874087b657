//! Laws of sessions. The functions do nothing: each clause holds for all boards and facts.

ghost use Rattle.std.specs.Prelude.{◌++◌, ℕ, false, List, Option};
ghost use Rattle.geo_seg.specs.declared.boxes.Bounds.{Bounds};
ghost use Rattle.board_items.specs.Boards.{PlainBoard};
ghost use Rattle.rule_pick.specs.declared.facts.Facts.{Facts};
ghost use Rattle.box_index.specs.Tiles.{PlainIndex, dirty_of};
ghost use Rattle.row_check.specs.RowsOfTile.{IsIndexOf};
ghost use Rattle.row_check.specs.Whole.{AreEnough};
ghost use Rattle.pair_check.specs.Rows.{Checked};
ghost use Rattle.drc_state.specs.DirtyBoxes.{AreBoxesOf};
ghost use Rattle.drc_session.specs.Looks.{AreBoxesIn, IsNotedEdit};

/// The boxes that an edit's ids had, and those that all changed ids have now, are those of all that differs.
pub fn boxes_of()
    ensures { (old : Checked) (new : PlainBoard) (ids changed : List ℕ)
        (kept now : List (Option Facts))
        → IsNotedEdit old.board new old.classes ids kept now changed → (was is : List Bounds)
        → AreBoxesIn old.board ids was → AreBoxesIn new changed is
        → AreBoxesOf old (record old { board = new }) (was ++ is) }
{}

/// The tiles that the boxes of what changed find are enough: each tile with an entry that changed is among them.
pub fn enough_tiles()
    ensures { (c : Checked) (index : PlainIndex) → IsIndexOf c index
        → (changed : List ℕ) (was_boxes is_boxes : List Bounds)
        → AreBoxesIn c.board changed is_boxes
        → AreEnough index changed (dirty_of index (was_boxes ++ is_boxes) false) }
{}
