//! Laws of states. The functions do nothing: each clause holds for all states and commands.

ghost use Rattle.std.specs.Prelude.{◌≡◌, ◌⊎◌, ℕ, ℤ, Bool, true, false, List, Result};
ghost use Rattle.geo_seg.specs.declared.boxes.Bounds.{Bounds};
ghost use Rattle.box_index.specs.Tiles.{PlainIndex, dirty_of};
ghost use Rattle.row_check.specs.RowsOfTile.{IsIndexOf};
ghost use Rattle.pair_check.specs.Rows.{Checked};
ghost use Rattle.edit_script.specs.Commands.{PlainCommand};
ghost use Rattle.drc_state.specs.declared.error.EditError.{EditError};
ghost use Rattle.drc_state.specs.States.{State};
ghost use Rattle.drc_state.specs.CommandSteps.{Answers};
ghost use Rattle.drc_state.specs.StateChanges.{PlainChange, Makes};
ghost use Rattle.drc_state.specs.Recheck.{IsFarthest, AreHeld, ReachDiffers, AreRechecked};
ghost use Rattle.drc_state.specs.DirtyBoxes.{AreBoxesOf};

use board_edits::laws::{one_board, one_operation};
use board_index::{one_list_of_tiles, tiles_held};
use rule_text::laws::one_list_reading;

/// A command has one answer.
pub fn one_answer()
    ensures { (s : State) (command : PlainCommand) (a b : Result State EditError)
        → Answers s command a → Answers s command b → a ≡ b }
{
    one_operation();
    one_board();
    one_list_reading();
}

/// A change makes one state of another.
pub fn one_state()
    ensures { (change : PlainChange) (old a b : State) → Makes change old a → Makes change old b
        → a ≡ b }
{
    one_board();
}

/// What is checked has one reach, and one list of tiles that hold an item.
pub fn one_list_held()
    ensures reach { (c : Checked) (a b : ℤ) → IsFarthest c a → IsFarthest c b → a ≡ b }
    ensures tiles { (c : Checked) (tiles others : List ℕ) → AreHeld c tiles → AreHeld c others
        → tiles ≡ others }
{
    one_list_of_tiles();
}

/// After a change one list of tiles is rechecked.
pub fn one_recheck()
    ensures { (old new : Checked) (replaced : Bool) (tiles others : List ℕ)
        → AreRechecked old new replaced tiles → AreRechecked old new replaced others
        → tiles ≡ others }
{
    one_list_held();
}

/// The tiles that an index of what is checked now finds by the boxes of all that differs are those that are rechecked.
pub fn near_tiles()
    ensures { (old new : Checked) (index : PlainIndex) → IsIndexOf new index
        → IsFarthest old index.reach → (boxes : List Bounds) → AreBoxesOf old new boxes
        → AreRechecked old new false (dirty_of index boxes false) }
{}

/// Where the rules were replaced or the reach differs, the tiles that are rechecked are all that hold an item.
pub fn all_tiles()
    ensures { (old new : Checked) (index : PlainIndex) → IsIndexOf new index
        → (boxes : List Bounds) (replaced : Bool) → (replaced ≡ true) ⊎ ReachDiffers old new
        → AreRechecked old new replaced (dirty_of index boxes true) }
{
    tiles_held();
}
