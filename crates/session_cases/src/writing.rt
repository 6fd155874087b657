//! Boards that are written from their bytes.

ghost use Rattle.std.specs.Prelude.{◌≤◌, length, map, All};
ghost use Rattle.edit_script.specs.Commands.{plain_command};
ghost use Rattle.edit_script.specs.Fits.{Fits};

use crate::opening;
use crate::texts::{LIMIT, Texts};
use board_write::write_board;
use case_reader::{Given, Reason};
use edit_script::Command;
use std::alloc::AllocGlobal;

/// What is written of a board after the commands, and behind it how many were refused or why it is not written.
fn written<R: AllocGlobal>(
    rt: &R,
    given: &Given,
    board: &[u8],
    commands: &[Command<'_>],
) -> Result<Vec<u8>, Reason>
    requires text { length board.now ≤ 33_554_432 }
    requires few { length commands.now ≤ 64 }
    requires fit { All Fits (map plain_command commands.now) }
{
    let alloc = rt.alloc();
    let mut sink = given.sink(alloc, board.len())?;
    let end = match write_board(alloc, board, commands, &mut sink) {
        Ok(refused) => format!(in alloc; "written, {refused} refused\n")?,
        Err(error) => format!(in alloc; "not written, {error}\n")?,
    };
    let mut text = sink.bytes().to_vec(alloc)?;
    text.extend_from_slice(end.as_bytes())?;
    Ok(text)
}

/// Writes the board of a text after the commands of the text of a script.
pub(crate) fn told<R: AllocGlobal>(
    rt: &R,
    given: &Given,
    texts: Texts<'_>,
) -> Result<Vec<u8>, Reason> {
    if texts.board.len() > LIMIT {
        return Err(Reason::TooLong);
    }
    let commands = opening::commands(rt.alloc(), texts.other)?;
    written(rt, given, texts.board, &commands)
}
