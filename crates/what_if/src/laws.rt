//! Laws of trials and surveys. The functions do nothing: each clause holds for all states and commands.

ghost use Rattle.std.specs.Prelude.{◌≡◌, ℕ, false, List, Option, Ok};
ghost use Rattle.edit_script.specs.Commands.{PlainCommand};
ghost use Rattle.pair_check.specs.PlainRow.{PlainRow};
ghost use Rattle.drc_state.specs.declared.error.EditError.{EditError};
ghost use Rattle.drc_state.specs.States.{State};
ghost use Rattle.drc_state.specs.CommandSteps.{Answers};
ghost use Rattle.drc_state.specs.StateChanges.{PlainChange, Makes, IsInverseChange};
ghost use Rattle.what_if.specs.Trials.{LeadTo, StopsAt, IsDifference, IsSurvey};
ghost use Rattle.what_if.specs.TrialScratches.{adds};

use drc_state::laws::{one_answer, one_state};
use row_check::laws::one_list;

/// Commands lead from a state to one state, or one of them is the first that is refused, and not both. Two states have one difference.
pub fn one_trial()
    ensures last { (s : State) (commands : List PlainCommand) (a b : State) → LeadTo s commands a
        → LeadTo s commands b → a ≡ b }
    ensures place { (s : State) (commands : List PlainCommand) (a b : ℕ) (why other : EditError)
        → StopsAt s commands a why → StopsAt s commands b other → (a ≡ b) × (why ≡ other) }
    ensures either { (s : State) (commands : List PlainCommand) (last : State) (place : ℕ)
        (why : EditError) → LeadTo s commands last → StopsAt s commands place why → ⊥ }
    ensures rows { (before after : State) (come others gone lost : List PlainRow)
        → IsDifference before after come gone → IsDifference before after others lost
        → (come ≡ others) × (gone ≡ lost) }
{
    one_answer();
}

/// Commands have one survey of a state: so workers give the same, however many they are.
pub fn one_survey()
    ensures { (s : State) (commands : List PlainCommand) (counts others : List (Option ℕ))
        (least other : Option ℕ) → IsSurvey s commands counts least
        → IsSurvey s commands others other → (counts ≡ others) × (least ≡ other) }
{
    one_answer();
    one_list();
}

/// After a command that adds no list, the inverse change makes the state from before, with the same numbers that come next.
pub fn turned_back()
    ensures { (s next last : State) (command : PlainCommand) (change : PlainChange)
        → adds command ≡ false → Answers s command (Ok next) → IsInverseChange change next s
        → Makes change next last → last ≡ s }
{
    one_state();
}
