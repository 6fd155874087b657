//! Laws of boards that are written. The functions do nothing: each clause holds for all texts and commands.

ghost use Rattle.std.specs.Prelude.{◌≡◌, ℕ, List};
ghost use Rattle.edit_script.specs.Commands.{PlainCommand};
ghost use Rattle.board_write.specs.WriteResults.{Outcome};

use board_edits::laws::{one_board, one_operation};
use pcb_read::laws::one_reading;
use sexpr_read::laws::one_tree;

/// A text and commands have one outcome.
pub fn one_outcome()
    ensures { (text : List ℕ) (commands : List PlainCommand) (m n : ℕ) (a : Outcome text commands m)
        (b : Outcome text commands n) → (m ≡ n) × (a.out ≡ b.out) }
{
    one_tree();
    one_reading();
    one_operation();
    one_board();
}
