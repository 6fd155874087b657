//! Commands that are carried out on a board, with what becomes of its units.

ghost use Rattle.std.specs.Prelude.{◌≡◌, ◌<◌, ◌≤◌, [], length, map, All, Ok, IfOk, OnOk};
ghost use Rattle.board_items.specs.Boards.{IsSound};
ghost use Rattle.edit_script.specs.Commands.{plain_command};
ghost use Rattle.edit_script.specs.Fits.{Fits};
ghost use Rattle.board_edits.specs.Fitting.{plain_operation, OperationFits};
ghost use Rattle.board_write.specs.EditState.{is_nil, IsListNoted, IsNoted, CanNote, LeftBy, IsOnEditState, IsCommandStep, Reached};

use crate::marks::{Mark, note_gone, note_move};
use board_edits::{Operation, Refusal, ids_touched, make, operation_of};
use board_items::{Board, Item};
use edit_script::Command;
use sexpr_read::{Doc, parse_all};
use std::alloc::{AllocError, Global};

/// A list that was added, and its unit where it gave items.
#[derive(Drop)]
pub(crate) struct AddedList<'t> {
    pub doc: Doc<'t>,
    pub unit: Option<u32>,
}

/// What commands have made of a board.
#[derive(Drop)]
pub(crate) struct EditState<'t> {
    pub board: Board,
    /// What became of each unit, by its number; also of those that came in.
    pub marks: Vec<Mark>,
    /// The lists that were added, in order.
    pub added: Vec<AddedList<'t>>,
    /// How many commands were refused.
    pub refused: u32,
}

/// Whether a list gives no items.
fn is_nil(items: &[Item]) -> bool
    ensures { result ≡ is_nil items.now }
{
    items.is_empty()
}

/// Notes a list that is added. Where it gives items it is a unit, the one that comes next.
fn note_added<'t>(
    alloc: Global,
    edit_state: &mut EditState<'t>,
    text: &'t [u8],
    is_empty: bool,
) -> Result<(), AllocError>
    requires { length text.now ≤ 33554432 }
    ensures noted { OnOk result
        (IsListNoted text.entry.now is_empty edit_state.old edit_state.new) }
    ensures board { OnOk result (edit_state.new.board ≡ edit_state.old.board) }
    ensures refused { OnOk result (edit_state.new.refused ≡ edit_state.old.refused) }
{
    // The text was read before: only running out of memory can refuse it.
    let Ok(doc) = parse_all(alloc, text) else {
        return Err(AllocError);
    };
    if is_empty {
        edit_state.added.push(AddedList { doc, unit: None })?;
        return Ok(());
    }
    let unit = Some(edit_state.board.next_unit());
    edit_state.marks.push(Mark::Stays)?;
    edit_state.added.push(AddedList { doc, unit })?;
    Ok(())
}

/// Notes what an operation changes in the text of the board.
fn note<'t>(
    alloc: Global,
    edit_state: &mut EditState<'t>,
    command: &Command<'t>,
    operation: &Operation,
) -> Result<(), AllocError>
    requires command { Fits (plain_command command.now) }
    requires can { CanNote (plain_operation operation.now) edit_state.old }
    requires fits { OperationFits edit_state.old.board (plain_operation operation.now) }
    ensures noted { OnOk result (IsNoted (plain_command command.now)
        (plain_operation operation.now) edit_state.old edit_state.new) }
    ensures board { OnOk result (edit_state.new.board ≡ edit_state.old.board) }
    ensures refused { OnOk result (edit_state.new.refused ≡ edit_state.old.refused) }
{
    match operation {
        Operation::Append { items } => match command {
            Command::Add { text, .. } => note_added(alloc, edit_state, text, is_nil(items)),
            // Nothing else gives items.
            Command::Delete { .. }
            | Command::Move { .. }
            | Command::Rules { .. }
            | Command::Again { .. } => Ok(()),
        },
        Operation::TakeOut { unit } => {
            note_gone(&mut edit_state.marks, *unit);
            Ok(())
        }
        Operation::Shift { unit, dx, dy } => {
            note_move(&mut edit_state.marks, *unit, *dx, *dy);
            Ok(())
        }
        // No command puts items back.
        Operation::Nothing | Operation::PutBack { .. } => Ok(()),
    }
}

/// Does what a command asks for.
fn done<'t>(
    alloc: Global,
    edit_state: &mut EditState<'t>,
    command: &Command<'t>,
    operation: Operation,
) -> Result<(), AllocError>
    requires command { Fits (plain_command command.now) }
    requires can { CanNote (plain_operation operation) edit_state.old }
    requires fits { OperationFits edit_state.old.board (plain_operation operation) }
    ensures left { OnOk result (LeftBy (plain_command command.now)
        (Ok (plain_operation operation)) edit_state.old edit_state.new) }
    ensures refused { OnOk result (edit_state.new.refused ≡ edit_state.old.refused) }
{
    note(alloc, edit_state, command, &operation)?;
    let touched = ids_touched(alloc, &edit_state.board, &operation)?;
    make(alloc, &mut edit_state.board, operation, touched)?;
    Ok(())
}

/// Shows that the board is sound, as each is. It does nothing.
fn is_sound(board: &Board)
    ensures { IsSound board.now }
{
    let _room = board.left();
}

/// Carries one command out, or counts it as refused.
fn carry_out<'t>(
    alloc: Global,
    edit_state: &mut EditState<'t>,
    command: &Command<'t>,
) -> Result<(), AllocError>
    requires command { Fits (plain_command command.now) }
    requires edit_state { IsOnEditState edit_state.old }
    ensures step { OnOk result (IsCommandStep
        (plain_command command.now) edit_state.old edit_state.new) }
    ensures sound { IsSound edit_state.old.board }
{
    is_sound(&edit_state.board);
    match operation_of(alloc, &edit_state.board, command) {
        Ok(operation) => done(alloc, edit_state, command, operation),
        Err(Refusal::OutOfMemory) => Err(AllocError),
        Err(_) => {
            edit_state.refused += 1;
            Ok(())
        }
    }
}

/// The state of a board before any command.
fn begin<'t>(alloc: Global, board: Board) -> Result<EditState<'t>, AllocError>
    ensures { IfOk result (Reached board []) }
{
    let mut marks = Vec::new(alloc);
    marks.resize(board.next_unit() as usize, Mark::Stays)?;
    Ok(EditState {
        board,
        marks,
        added: Vec::new(alloc),
        refused: 0,
    })
}

/// What the commands make of the board.
pub(crate) fn carried_out<'t>(
    alloc: Global,
    board: Board,
    commands: &[Command<'t>],
) -> Result<EditState<'t>, AllocError>
    requires few { length commands.now < 4_294_967_295 }
    requires fit { All Fits (map plain_command commands.now) }
    ensures { IfOk result (Reached board (map plain_command commands.now)) }
{
    let mut edit_state = begin(alloc, board)?;
    for command in commands {
        carry_out(alloc, &mut edit_state, command)?;
    }
    Ok(edit_state)
}
