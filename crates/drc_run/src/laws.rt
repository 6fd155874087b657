//! Laws of the output. The functions do nothing: each clause holds for all words and files.

ghost use Rattle.std.specs.Prelude.{◌≡◌, ◌++◌, ℕ, List, Some};
ghost use Rattle.run_words.specs.Calls.{PlainCall};
ghost use Rattle.run_output.specs.Output.{Output, IsOutputFor, IsBegunFor};

use board_write::laws::one_outcome;
use drc_state::laws::{one_answer, one_list_held, one_recheck};
use edit_script::laws::one_reading as one_script_reading;
use net_groups::one_list_of_parts;
use pcb_read::laws::one_reading;
use row_check::laws::one_list;
use rule_text::laws::one_reading as one_rules_reading;
use undo_log::laws::one_step;
use what_if::laws::{one_survey, one_trial};

/// Both laws below.
fn both_laws()
    ensures { ((call : PlainCall) (files : List (List ℕ × List ℕ)) (a b : Output) → IsOutputFor call
        (Some files) a → IsOutputFor call (Some files) b → a ≡ b)
        × ((call : PlainCall) (files : List (List ℕ × List ℕ)) (text : List ℕ) (out : Output) →
        IsBegunFor call (Some files) text → IsOutputFor call (Some files) out → (rest : List ℕ) ×
        (out.text ≡ text ++ rest)) }
{
    one_reading();
    one_rules_reading();
    one_script_reading();
    one_list();
    one_list_of_parts();
    one_list_held();
    one_answer();
    one_recheck();
    one_step();
    one_trial();
    one_survey();
    one_outcome();
}

/// The words and the files have one output at most.
pub fn one_output()
    ensures { (call : PlainCall) (files : List (List ℕ × List ℕ)) (a b : Output) → IsOutputFor call
        (Some files) a → IsOutputFor call (Some files) b → a ≡ b }
{
    both_laws();
}

/// What the output begins with after some of the commands is a prefix of it, where there is an output.
pub fn begun_is_prefix()
    ensures { (call : PlainCall) (files : List (List ℕ × List ℕ)) (text : List ℕ) (out : Output) →
        IsBegunFor call (Some files) text → IsOutputFor call (Some files) out → (rest : List ℕ) ×
        (out.text ≡ text ++ rest) }
{
    both_laws();
}
