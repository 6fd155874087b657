//! Laws of the rows of tiles. The functions do nothing: each clause holds for all that is checked.

ghost use Rattle.std.specs.Prelude.{◌≡◌, ℕ, List};
ghost use Rattle.pair_check.specs.PlainRow.{PlainRow};
ghost use Rattle.tile_pool.specs.NumberedValues.{AreAnswers};
ghost use Rattle.tile_rows.specs.Work.{AreRowsAt};

use crate::work::AskedTiles;
use tile_pool::laws::one_list_of_answers;

/// The work has one list of answers: so workers make the same, however many they are.
pub fn one_value(work: &AskedTiles<'_>)
    ensures { (count : ℕ) (answers others : List (List PlainRow))
        → AreAnswers (AreRowsAt work.now.tiles) count answers
        → AreAnswers (AreRowsAt work.now.tiles) count others → answers ≡ others }
{
    one_list_of_answers(work);
}
