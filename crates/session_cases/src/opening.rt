//! Sessions and commands of the texts of a case.

ghost use Rattle.std.specs.Prelude.{◌≡◌, ◌≤◌, false, length, map, All, IfOk};
ghost use Rattle.edit_script.specs.Commands.{plain_command};
ghost use Rattle.edit_script.specs.Fits.{Fits};

use crate::texts::LIMIT;
use board_items::BoardError;
use case_gates::Turns;
use case_reader::Reason;
use drc_session::Session;
use edit_script::{Command, ScriptError, read_script};
use net_class::Classes;
use pcb_read::read_board;
use rule_text::{RuleList, RuleNotes, Rules};
use std::alloc::{AllocGlobal, Global};
use std::thread::Threads;

/// The most commands that a call takes.
const MOST: usize = 64;

/// The commands of a script.
pub(crate) fn commands(alloc: Global, script: &[u8]) -> Result<Vec<Command<'_>>, Reason>
    ensures few { IfOk result (λ commands. length commands.items ≤ 64) }
    ensures fit { IfOk result (λ commands. All Fits (map plain_command commands.items)) }
{
    if script.len() > LIMIT {
        return Err(Reason::TooLong);
    }
    match read_script(alloc, script) {
        Ok(commands) => {
            if commands.len() <= MOST {
                Ok(commands)
            } else {
                Err(Reason::TooLong)
            }
        }
        Err(ScriptError::OutOfMemory) => Err(Reason::OutOfMemory),
        Err(_) => Err(Reason::NoCall),
    }
}

/// No rules.
fn no_rules(alloc: Global) -> Rules
    ensures { length result.rules ≤ 64 }
{
    Rules {
        rules: RuleList::of(Vec::new(alloc)),
        notes: RuleNotes::of(Vec::new(alloc)),
    }
}

/// A session of a board under the classes of an empty project and no rules.
pub(crate) fn session<R: Threads + Sync + AllocGlobal>(
    rt: &R,
    board: &[u8],
) -> Result<Session, Reason>
    ensures { IfOk result (λ session. session.stopped ≡ false) }
{
    if board.len() > LIMIT {
        return Err(Reason::TooLong);
    }
    let alloc = rt.alloc();
    let board = match read_board(alloc, board) {
        Ok(board) => board,
        Err(BoardError::OutOfMemory) => return Err(Reason::OutOfMemory),
        Err(_) => return Err(Reason::NoCall),
    };
    let classes = Classes::plain(alloc)?;
    let (session, _) = Session::begin(rt, 1, board, classes, no_rules(alloc), &Turns::none())?;
    Ok(session)
}
