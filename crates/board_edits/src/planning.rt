//! What a command does to a board, found before anything is changed.

ghost use Rattle.std.specs.Prelude.{◌≡◌, ◌⊎◌, MatchResult, IfOk, Result, Ok, Err};
ghost use Rattle.plain_types.specs.Limits.{IsInText, IsReadable};
ghost use Rattle.edit_script.specs.Commands.{plain_command, add};
ghost use Rattle.edit_script.specs.Fits.{Fits};
ghost use Rattle.board_edits.specs.declared.refusal.Refusal.{Refusal};
ghost use Rattle.board_edits.specs.Operations.{PlainOperation, Does, to_unit, take_out, shifted};
ghost use Rattle.board_edits.specs.Fitting.{plain_operation, OperationFits};
ghost use Rattle.board_edits.specs.Planning.{plain_answer, IsFound, refusal_in, unit_in};

use crate::laws::one_operation;
use crate::operation::Operation;
use crate::refusal::Refusal;
use board_items::{Board, BoardError, Found, Nm};
use edit_script::Command;
use pcb_read::read_item;
use std::alloc::Global;

/// Why an added list is refused.
fn refused(error: BoardError) -> Refusal
    ensures { result ≡ refusal_in error }
{
    match error {
        BoardError::OutOfMemory => Refusal::OutOfMemory,
        error => Refusal::Item(error),
    }
}

/// The items of an added list.
fn appended(alloc: Global, board: &Board, text: &[u8], at: u32) -> Result<Operation, Refusal>
    requires text { IsReadable text.now }
    requires at { IsInText at }
    ensures found { IsFound board.now (add text.now at) result }
    ensures fits { IfOk result (λ operation. OperationFits board.now (plain_operation operation)) }
{
    match read_item(alloc, text, at, board, board.next_unit()) {
        Ok(items) => Ok(Operation::Append { items }),
        Err(error) => Err(refused(error)),
    }
}

/// The unit that a name stands for, or why it stands for none.
fn unit_in(found: Found) -> Result<u32, Refusal>
    ensures { result ≡ unit_in found }
{
    match found {
        Found::None => Err(Refusal::NoSuchItem),
        Found::Shared => Err(Refusal::SharedName),
        Found::Inside => Err(Refusal::PartOfFootprint),
        Found::Unit(unit) => Ok(unit),
    }
}

/// The operation that takes the unit out, or why there is none.
fn taken_out(found: Found) -> Result<Operation, Refusal>
    ensures answer { plain_answer result ≡ to_unit found (λ unit. Ok (take_out unit)) }
{
    let unit = unit_in(found)?;
    Ok(Operation::TakeOut { unit })
}

/// The operation that moves the unit, where all of it stays on the board, or why there is none. `at` is the place of the command.
fn shifted(board: &Board, found: Found, dx: Nm, dy: Nm, at: u32) -> Result<Operation, Refusal>
    ensures answer { plain_answer result ≡ to_unit found (shifted board.now dx dy at) }
    ensures fits { IfOk result (λ operation. OperationFits board.now (plain_operation operation)) }
{
    let unit = unit_in(found)?;
    if board.unit_stays(unit, dx, dy) {
        Ok(Operation::Shift { unit, dx, dy })
    } else {
        Err(Refusal::Item(BoardError::OutOfBoard { at }))
    }
}

/// What the command does to the board, or why it is refused. The board stays as it is. The refusals are those of [`Refusal`], exactly
/// where `specs/Operations` has them; running out of memory alone is free.
pub fn operation_of(
    alloc: Global,
    board: &Board,
    command: &Command<'_>,
) -> Result<Operation, Refusal>
    requires { Fits (plain_command command.now) }
    ensures does { MatchResult result (λ operation. Does board.now (plain_command command.now)
        (Ok (plain_operation operation))) (λ why. (why ≡ Refusal.OutOfMemory) ⊎
        Does board.now (plain_command command.now) (Err why)) }
    ensures only { (answer : Result PlainOperation Refusal)
        → Does board.now (plain_command command.now) answer →
        MatchResult result (λ operation. answer ≡ Ok (plain_operation operation))
        (λ why. (why ≡ Refusal.OutOfMemory) ⊎ (answer ≡ Err why)) }
    ensures fits { IfOk result (λ operation. OperationFits board.now (plain_operation operation)) }
{
    one_operation();
    match command {
        Command::Add { text, at } => appended(alloc, board, text, *at),
        Command::Delete { name, .. } => taken_out(board.find(name)),
        Command::Move { name, dx, dy, at } => shifted(board, board.find(name), *dx, *dy, *at),
        Command::Rules { .. } | Command::Again { .. } => Ok(Operation::Nothing),
    }
}
