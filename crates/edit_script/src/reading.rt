//! The command of a form, and the commands and steps of a script.

ghost use Rattle.std.specs.Prelude.{◌≡◌, ◌≤◌, length, map, sum_by, IfOk, All};
ghost use Rattle.plain_types.specs.Limits.{IsInText, IsReadable};
ghost use Rattle.sexpr_read.specs.Tree.{parts};
ghost use Rattle.sexpr_read.specs.TreeViews.{tree_of, trees_left};
ghost use Rattle.list_read.specs.ListHeads.{place};
ghost use Rattle.list_read.specs.FirstRefusals.{each_of};
ghost use Rattle.edit_script.specs.Commands.{again, plain_command, plain_step};
ghost use Rattle.edit_script.specs.CommandsOf.{standing, added, deleted, moved, alone, command_of, step_of};
ghost use Rattle.edit_script.specs.Fits.{IsRead, IsReadStep, added_by, added_by_step, size_of, StandsIn, FormStandsIn, FormsStandIn, HaveCapacity, AllShallow, FormsShallow};
ghost use Rattle.edit_script.specs.ScriptValues.{Gives};

use crate::command::{Command, Step};
use crate::error::ScriptError;
use crate::forms::{as_atom, as_list, bad, no_more, shift_of};
use list_read::{behind_head, has_word_head, name_from, place};
use sexpr_read::{Children, Node};
use std::alloc::Global;

/// The part of the script that the node stands on.
fn standing<'t>(text: &'t [u8], node: Node<'_, '_>) -> &'t [u8]
    requires { StandsIn 0 (length text.now) (tree_of node) }
    ensures value { result.now ≡ standing text.entry.now (tree_of node.entry) }
    ensures size { length result.now ≡ size_of (tree_of node.entry) }
{
    let span = node.span();
    &text[span.at as usize..span.end as usize]
}

/// `(add LIST)`.
#[tactic(auto, unfolding(crate::specs::CommandsOf::added, list_read::specs::ListHeads::behind_head))]
fn added<'t>(text: &'t [u8], form: Node<'_, '_>) -> Result<Command<'t>, ScriptError>
    requires size { IsReadable text.now }
    requires form { FormStandsIn (length text.now) (tree_of form) }
    requires shallow { AllShallow text.now (parts (tree_of form)) }
    ensures read { Gives plain_command result (added text.entry.now (tree_of form.entry)) }
    ensures known { IfOk result (λ command. IsRead (plain_command command)) }
    ensures size { IfOk result
        (λ command. added_by (plain_command command) ≤ size_of (tree_of form.entry)) }
{
    let mut parts = behind_head(form);
    let Some(part) = parts.next() else {
        return Err(bad(form));
    };
    let list = as_list(part)?;
    no_more(parts)?;
    Ok(Command::Add {
        text: standing(text, list),
        at: place(list),
    })
}

/// `(delete NAME)`.
#[tactic(auto, unfolding(crate::specs::CommandsOf::deleted))]
fn deleted<'t>(alloc: Global, form: Node<'_, '_>) -> Result<Command<'t>, ScriptError>
    requires { IsInText (place (tree_of form)) }
    ensures read { Gives plain_command result (deleted (tree_of form.entry)) }
    ensures known { IfOk result (λ command. IsRead (plain_command command)) }
    ensures adds_nothing { IfOk result (λ command. added_by (plain_command command) ≡ 0) }
{
    let mut parts = behind_head(form);
    let Some(part) = parts.next() else {
        return Err(bad(form));
    };
    let atom = as_atom(part)?;
    no_more(parts)?;
    let name = name_from(alloc, atom)?;
    Ok(Command::Delete {
        name,
        at: place(form),
    })
}

/// `(move NAME DX DY)`.
#[tactic(auto, unfolding(crate::specs::CommandsOf::moved))]
fn moved<'t>(alloc: Global, form: Node<'_, '_>) -> Result<Command<'t>, ScriptError>
    requires { IsInText (place (tree_of form)) }
    ensures read { Gives plain_command result (moved (tree_of form.entry)) }
    ensures known { IfOk result (λ command. IsRead (plain_command command)) }
    ensures adds_nothing { IfOk result (λ command. added_by (plain_command command) ≡ 0) }
{
    let mut parts = behind_head(form);
    let Some(part) = parts.next() else {
        return Err(bad(form));
    };
    let Some(right) = parts.next() else {
        return Err(bad(form));
    };
    let Some(down) = parts.next() else {
        return Err(bad(form));
    };
    let atom = as_atom(part)?;
    let dx = shift_of(right)?;
    let dy = shift_of(down)?;
    no_more(parts)?;
    let name = name_from(alloc, atom)?;
    Ok(Command::Move {
        name,
        dx,
        dy,
        at: place(form),
    })
}

/// `(again)`.
fn again<'t>(form: Node<'_, '_>) -> Result<Command<'t>, ScriptError>
    requires { IsInText (place (tree_of form)) }
    ensures read { Gives plain_command result
        (alone (again (place (tree_of form.entry))) (tree_of form.entry)) }
    ensures known { IfOk result (λ command. IsRead (plain_command command)) }
    ensures adds_nothing { IfOk result (λ command. added_by (plain_command command) ≡ 0) }
{
    no_more(behind_head(form))?;
    Ok(Command::Again { at: place(form) })
}

/// The command of a form.
#[tactic(auto, unfolding(crate::specs::CommandsOf::command_of))]
fn command_of<'t>(
    alloc: Global,
    text: &'t [u8],
    form: Node<'_, '_>,
) -> Result<Command<'t>, ScriptError>
    requires size { IsReadable text.now }
    requires form { FormStandsIn (length text.now) (tree_of form) }
    requires shallow { AllShallow text.now (parts (tree_of form)) }
    ensures read { Gives plain_command result (command_of text.entry.now (tree_of form.entry)) }
    ensures known { IfOk result (λ command. IsRead (plain_command command)) }
    ensures size { IfOk result
        (λ command. added_by (plain_command command) ≤ size_of (tree_of form.entry)) }
{
    if has_word_head(form, b"add") {
        added(text, form)
    } else if has_word_head(form, b"delete") {
        deleted(alloc, form)
    } else if has_word_head(form, b"move") {
        moved(alloc, form)
    } else if has_word_head(form, b"rules") {
        Ok(Command::Rules {
            text: standing(text, form),
            at: place(form),
        })
    } else if has_word_head(form, b"again") {
        again(form)
    } else {
        Err(bad(form))
    }
}

/// The step of a form.
#[tactic(auto, unfolding(crate::specs::CommandsOf::step_of))]
fn step_of<'t>(alloc: Global, text: &'t [u8], form: Node<'_, '_>) -> Result<Step<'t>, ScriptError>
    requires size { IsReadable text.now }
    requires form { FormStandsIn (length text.now) (tree_of form) }
    requires shallow { AllShallow text.now (parts (tree_of form)) }
    ensures read { Gives plain_step result (step_of text.entry.now (tree_of form.entry)) }
    ensures known { IfOk result (λ step. IsReadStep (plain_step step)) }
    ensures size { IfOk result
        (λ step. added_by_step (plain_step step) ≤ size_of (tree_of form.entry)) }
{
    if has_word_head(form, b"undo") {
        no_more(behind_head(form))?;
        return Ok(Step::Undo { at: place(form) });
    }
    if has_word_head(form, b"redo") {
        no_more(behind_head(form))?;
        return Ok(Step::Redo { at: place(form) });
    }
    match command_of(alloc, text, form) {
        Ok(command) => Ok(Step::Edit(command)),
        Err(error) => Err(error),
    }
}

/// The commands of the forms.
#[tactic(auto, using(crate::proofs::OneByOne::from_start), unfolding(crate::proofs::OneByOne::read_on))]
pub(crate) fn commands_in<'t>(
    alloc: Global,
    text: &'t [u8],
    forms: Children<'_, '_>,
) -> Result<Vec<Command<'t>>, ScriptError>
    requires size { IsReadable text.now }
    requires forms { FormsStandIn (length text.now) (trees_left forms) }
    requires shallow { FormsShallow text.now (trees_left forms) }
    requires capacity { HaveCapacity (length text.now) (trees_left forms) }
    ensures read { Gives (λ commands. map plain_command commands.items) result
        (each_of (command_of text.entry.now) (trees_left forms.entry)) }
    ensures known { IfOk result (λ commands. All IsRead (map plain_command commands.items)) }
    ensures together { IfOk result
        (λ commands. sum_by added_by (map plain_command commands.items) ≤ length text.entry.now) }
{
    let mut commands = Vec::new(alloc);
    for form in forms {
        match command_of(alloc, text, form) {
            Ok(command) => commands.push(command)?,
            Err(error) => return Err(error),
        }
    }
    Ok(commands)
}

/// The steps of the forms.
#[tactic(auto, using(crate::proofs::OneByOne::from_start), unfolding(crate::proofs::OneByOne::read_on))]
pub(crate) fn steps_in<'t>(
    alloc: Global,
    text: &'t [u8],
    forms: Children<'_, '_>,
) -> Result<Vec<Step<'t>>, ScriptError>
    requires size { IsReadable text.now }
    requires forms { FormsStandIn (length text.now) (trees_left forms) }
    requires shallow { FormsShallow text.now (trees_left forms) }
    requires capacity { HaveCapacity (length text.now) (trees_left forms) }
    ensures read { Gives (λ steps. map plain_step steps.items) result
        (each_of (step_of text.entry.now) (trees_left forms.entry)) }
    ensures known { IfOk result (λ steps. All IsReadStep (map plain_step steps.items)) }
    ensures together { IfOk result
        (λ steps. sum_by added_by_step (map plain_step steps.items) ≤ length text.entry.now) }
{
    let mut steps = Vec::new(alloc);
    for form in forms {
        match step_of(alloc, text, form) {
            Ok(step) => steps.push(step)?,
            Err(error) => return Err(error),
        }
    }
    Ok(steps)
}
