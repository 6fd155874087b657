//! What a command asks for, found before anything is changed.

ghost use Rattle.std.specs.Prelude.{◌≡◌, ◌⊎◌, ◌≢◌, ◌<◌, IfOk, IfErr, Result, Ok, Err};
ghost use Rattle.plain_types.specs.Limits.{AreCounted, IsInText, IsReadable};
ghost use Rattle.rule_text.specs.declared.error.RuleError.{RuleError};
ghost use Rattle.rule_text.specs.ListText.{SaysList};
ghost use Rattle.rule_text.specs.RuleValues.{plain_rules};
ghost use Rattle.edit_script.specs.Commands.{plain_command};
ghost use Rattle.edit_script.specs.Fits.{Fits};
ghost use Rattle.board_edits.specs.Operations.{GivesNoItem};
ghost use Rattle.drc_state.specs.declared.error.EditError.{EditError};
ghost use Rattle.drc_state.specs.States.{State};
ghost use Rattle.drc_state.specs.CommandSteps.{is_rules, Answers};
ghost use Rattle.drc_state.specs.StateChanges.{plain_edit, is_replace, ChangesNothing, Makes, ChangeFits};

use crate::change::Edit;
use crate::error::EditError;
use board_edits::operation_of;
use board_items::Board;
use edit_script::Command;
use rule_text::{RuleError, Rules, read_rule_list};
use sexpr_read::laws::spans_in_order;
use std::alloc::Global;

/// The rules of a list, of at most 33,554,432 bytes, that begins at this place. A text has no more rules than bytes.
fn rules_in(alloc: Global, text: &[u8], at: u32) -> Result<Rules, EditError>
    requires text { IsReadable text.now }
    requires at { IsInText at }
    ensures says { IfOk result (λ rules. SaysList text.now at (Ok (plain_rules rules))) }
    ensures few { IfOk result (λ rules. AreCounted (plain_rules rules).rules) }
    ensures refused { IfErr result (λ why. (why ≡ EditError.OutOfMemory)
        ⊎ ((error : RuleError) × (why ≡ EditError.Rules error)
        × SaysList text.now at (Err error))) }
{
    spans_in_order();
    match read_rule_list(alloc, text, at) {
        Ok(rules) => Ok(rules),
        Err(RuleError::OutOfMemory) => Err(EditError::OutOfMemory),
        Err(error) => Err(EditError::Rules(error)),
    }
}

/// What the command does to a state with this board, or why it is refused. The board stays as it is.
pub fn edit_of(alloc: Global, board: &Board, command: &Command<'_>) -> Result<Edit, EditError>
    requires { Fits (plain_command command.now) }
    ensures made { (old new : State) → old.board ≡ board.now
        → IfOk result (λ e. Makes (plain_edit e) old new
        → Answers old (plain_command command.now) (Ok new)) }
    ensures fits { (old : State) → old.board ≡ board.now
        → IfOk result (λ e. ChangeFits old (plain_edit e)) }
    ensures kind { IfOk result (λ e. is_replace (plain_edit e)
        ≡ is_rules (plain_command command.now)) }
    ensures none { IfOk result (λ e. GivesNoItem board.now (plain_command command.now)
        → ChangesNothing (plain_edit e)) }
    ensures refused { (old : State) → old.board ≡ board.now
        → IfErr result (λ why. (why ≡ EditError.OutOfMemory)
        ⊎ Answers old (plain_command command.now) (Err why)) }
    ensures never { IfErr result (λ why. why ≢ EditError.Stopped) }
{
    match command {
        Command::Rules { text, at } => {
            let rules = rules_in(alloc, text, *at)?;
            Ok(Edit::Rules(rules))
        }
        _ => Ok(Edit::Board(operation_of(alloc, board, command)?)),
    }
}
