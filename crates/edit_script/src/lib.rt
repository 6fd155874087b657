//! Scripts: the commands that change a board under check, read from their text.
//!
//! A script is a row of forms, one for each command, with comment lines. Numbers are millimetres in the text and whole nanometres
//! here, cut toward zero. What a script says is defined in `specs/CommandsOf`.
#![tactic(auto)]

ghost use Rattle.std.specs.Prelude.{◌≡◌, ◌≤◌, ◌⊎◌, List, length, map, sum_by, All, IfOk, MatchResult, Result, Ok, Err};
ghost use Rattle.plain_types.specs.Limits.{IsReadable};
ghost use Rattle.edit_script.specs.declared.error.ScriptError.{ScriptError};
ghost use Rattle.edit_script.specs.Commands.{PlainCommand, PlainStep, plain_command, plain_step};
ghost use Rattle.edit_script.specs.Fits.{Fits, StepFits, AreShallow, IsShallowStep, IsNearIfMoved, IsNearStep, added_by, added_by_step};
ghost use Rattle.edit_script.specs.ScriptText.{ScriptSays, SaysSteps};

mod command;
mod error;
mod forms;
pub mod laws;
mod reading;

use crate::laws::one_reading;
use crate::reading::{commands_in, steps_in};
pub use command::{Command, Nm, Step};
pub use error::ScriptError;
use plain_types::crosses_threads;
use sexpr_read::laws::spans_in_order;
use sexpr_read::{TextError, parse_all};
use std::alloc::Global;

/// The commands of the text of a script, of at most 33,554,432 bytes, in their order, or the first reason why there are none, with its
/// place. The reasons are those of [`ScriptError`], exactly where `specs/ScriptText` has them; running out of memory alone is free. Each
/// command fits the calls that carry commands out, by `Fits` of `specs/Fits`. Beside that no added list has more than 63 levels, no move
/// is by more than 10^12 nanometres, and all added lists together have no more bytes than the script.
#[tactic(auto, unfolding(crate::specs::CommandsOf::commands_of))]
pub fn read_script<'t>(alloc: Global, text: &'t [u8]) -> Result<Vec<Command<'t>>, ScriptError>
    requires { IsReadable text.now }
    ensures says { MatchResult result
        (λ commands. ScriptSays text.entry.now (Ok (map plain_command commands.items)))
        (λ e. (e ≡ ScriptError.OutOfMemory) ⊎ ScriptSays text.entry.now (Err e)) }
    ensures only { (answer : Result (List PlainCommand) ScriptError)
        → ScriptSays text.entry.now answer
        → MatchResult result (λ commands. answer ≡ Ok (map plain_command commands.items))
        (λ e. (e ≡ ScriptError.OutOfMemory) ⊎ (answer ≡ Err e)) }
    ensures fit { IfOk result (λ commands. All Fits (map plain_command commands.items)) }
    ensures shallow { IfOk result (λ commands. AreShallow (map plain_command commands.items)) }
    ensures near { IfOk result (λ commands. All IsNearIfMoved (map plain_command commands.items)) }
    ensures together { IfOk result
        (λ commands. sum_by added_by (map plain_command commands.items) ≤ length text.entry.now) }
{
    one_reading();
    spans_in_order();
    match parse_all(alloc, text) {
        Ok(doc) => commands_in(alloc, text, doc.root().children()),
        Err(TextError::OutOfMemory) => Err(ScriptError::OutOfMemory),
        Err(error) => Err(ScriptError::Text(error)),
    }
}

/// The steps of the text of a script in which `(undo)` and `(redo)` are forms too, of at most 33,554,432 bytes, in their order, or the
/// first reason why there are none, with its place. The reasons are those of [`ScriptError`], exactly where `specs/ScriptText` has them;
/// running out of memory alone is free. Each step fits the calls that carry steps out, by `StepFits` of `specs/Fits`. Beside that no added
/// list has more than 63 levels, no move is by more than 10^12 nanometres, and all added lists together have no more bytes than the script.
/// How this reader and `read_script` agree is a law, `steps_and_commands`.
#[tactic(auto, unfolding(crate::specs::CommandsOf::steps_of))]
pub fn read_steps<'t>(alloc: Global, text: &'t [u8]) -> Result<Vec<Step<'t>>, ScriptError>
    requires { IsReadable text.now }
    ensures says { MatchResult result
        (λ steps. SaysSteps text.entry.now (Ok (map plain_step steps.items)))
        (λ e. (e ≡ ScriptError.OutOfMemory) ⊎ SaysSteps text.entry.now (Err e)) }
    ensures only { (answer : Result (List PlainStep) ScriptError) → SaysSteps text.entry.now answer
        → MatchResult result (λ steps. answer ≡ Ok (map plain_step steps.items))
        (λ e. (e ≡ ScriptError.OutOfMemory) ⊎ (answer ≡ Err e)) }
    ensures fit { IfOk result (λ steps. All StepFits (map plain_step steps.items)) }
    ensures shallow { IfOk result (λ steps. All IsShallowStep (map plain_step steps.items)) }
    ensures near { IfOk result (λ steps. All IsNearStep (map plain_step steps.items)) }
    ensures together { IfOk result
        (λ steps. sum_by added_by_step (map plain_step steps.items) ≤ length text.entry.now) }
{
    one_reading();
    spans_in_order();
    match parse_all(alloc, text) {
        Ok(doc) => steps_in(alloc, text, doc.root().children()),
        Err(TextError::OutOfMemory) => Err(ScriptError::OutOfMemory),
        Err(error) => Err(ScriptError::Text(error)),
    }
}

fn all_cross() {
    crosses_threads::<ScriptError>();
    crosses_threads::<Command<'static>>();
    crosses_threads::<Step<'static>>();
}
