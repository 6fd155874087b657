//! Laws of the past. The functions do nothing: each clause holds for all states and steps.

ghost use Rattle.std.specs.Prelude.{◌≡◌, ◌≤◌, ℕ, true, false, List, [], ◌∷◌, Result, Ok};
ghost use Rattle.board_items.specs.Back.{IsPutBack, entries_of};
ghost use Rattle.board_items.specs.Boards.{PlainBoard, Rise};
ghost use Rattle.board_items.specs.Units.{without_unit};
ghost use Rattle.edit_script.specs.Commands.{PlainCommand, PlainStep, edit, undo, redo};
ghost use Rattle.drc_state.specs.States.{State};
ghost use Rattle.drc_state.specs.CommandSteps.{is_rules, Answers};
ghost use Rattle.drc_state.specs.StateChanges.{PlainChange, is_replace, Makes, returned};
ghost use Rattle.drc_session.specs.Sessions.{PlainSession, IsChecked};
ghost use Rattle.undo_log.specs.declared.error.HistoryError.{HistoryError};
ghost use Rattle.undo_log.specs.Past.{Past, ArePastsEqualUpToNumbers, is_again, edited, undone, redone, StepAnswers, AreStepsTo};
ghost use Rattle.undo_log.specs.Ways.{PlainHistory, IsEdited, LeadsTo, AreWays, IsPastOf};
ghost use Rattle.undo_log.specs.HistoryCalls.{AreCalls};

use drc_state::laws::{one_answer, one_state};
use net_groups::one_list_of_parts;
use row_check::laws::one_list;

// ---- steps

/// A step has one answer.
pub fn one_step()
    ensures { (past : Past) (step : PlainStep) (a b : Result Past HistoryError)
        → StepAnswers past step a → StepAnswers past step b → a ≡ b }
{
    one_answer();
}

/// Steps lead to one past.
pub fn one_past_of_steps()
    ensures { (past : Past) (steps : List PlainStep) (a b : Past) → AreStepsTo past steps a
        → AreStepsTo past steps b → a ≡ b }
{
    one_step();
}

/// The id and the unit number that come next never fall, so that none is given twice.
pub fn numbers_rise()
    ensures { (past next : Past) (step : PlainStep) → StepAnswers past step (Ok next)
        → (past.now.board.next_id ≤ next.now.board.next_id)
        × (past.now.board.next_unit ≤ next.now.board.next_unit) }
{}

/// A step that is undone leaves the state from before, but for the numbers that come next; one that is done again leaves the state
/// that was undone.
pub fn there_and_back()
    ensures edit { (past next last : Past) (command : PlainCommand) (at : ℕ)
        → is_again command ≡ false → StepAnswers past (edit command) (Ok next)
        → StepAnswers next (undo at) (Ok last) → last.now ≡ returned past.now next.now }
    ensures redo { (past next last : Past) (at place : ℕ) → StepAnswers past (undo at) (Ok next)
        → StepAnswers next (redo place) (Ok last) → last.now ≡ returned past.now next.now }
{}

/// A session that comes back to a state has the board from before, but for the numbers that come next, and the rows and the nets.
pub fn same_report()
    ensures { (before after : PlainSession) (now : State) → IsChecked before → IsChecked after
        → after.state ≡ returned before.state now → (after.rows ≡ before.rows)
        × (after.nets ≡ before.nets) }
{
    one_list();
    one_list_of_parts();
}

// ---- changes

/// A unit that was taken out and is put back leaves the board as it was.
pub fn taken_and_back()
    ensures { (board new : PlainBoard) (unit : ℕ) → Rise 0 board.next_id board.items
        → IsPutBack (entries_of unit board.items) (without_unit board unit) new → new ≡ board }
{}

/// What a history keeps after an edit leads through its past.
pub fn one_edit()
    ensures { (old new : State) (command : PlainCommand) (change : PlainChange)
        (back on : List PlainChange) (past : Past) → AreWays old back on past
        → IsEdited old command new → LeadsTo change new old (is_rules command)
        → AreWays new (change ∷ back) [] (edited past command new) }
{}

/// A report again leaves the state as it is.
pub fn one_again()
    ensures { (old new : State) (command : PlainCommand) → is_again command ≡ true
        → Answers old command (Ok new) → new ≡ old }
{}

/// What a history keeps after what was done last is undone leads through its past.
pub fn one_undo()
    ensures { (old new : State) (change other : PlainChange) (back on : List PlainChange)
        (past : Past) → AreWays old (change ∷ back) on past → Makes change old new
        → LeadsTo other new old (is_replace change) → (next : Past) × (undone past ≡ Ok next)
        × AreWays new back (other ∷ on) next }
{
    one_state();
}

/// What a history keeps after what was undone last is done again leads through its past.
pub fn one_redo()
    ensures { (old new : State) (change other : PlainChange) (back on : List PlainChange)
        (past : Past) → AreWays old back (change ∷ on) past → Makes change old new
        → LeadsTo other new old (is_replace change) → (next : Past) × (redone past ≡ Ok next)
        × AreWays new (other ∷ back) on next }
{
    one_state();
}

/// A history has one past, but for the numbers that come next in the states that were passed.
pub fn one_past()
    ensures { (history : PlainHistory) (past other : Past) → IsPastOf history past
        → IsPastOf history other → ArePastsEqualUpToNumbers past other }
{
    one_state();
}

// ---- calls

/// After any calls of a history that has not stopped, its session is at the state to which the steps lead from the past that it had,
/// and what it keeps leads through the past that it then has.
pub fn all_calls()
    ensures { (old new : PlainHistory) (steps : List PlainStep) (past : Past) → IsPastOf old past
        → AreCalls old steps new → new.stopped ≡ false → (last : Past) × AreStepsTo past steps last
        × IsPastOf new last }
{}
