//! A session that may run out of memory.

ghost use Rattle.std.specs.Prelude.{◌<◌, length, map, All};
ghost use Rattle.edit_script.specs.Commands.{plain_command};
ghost use Rattle.edit_script.specs.Fits.{Fits};

use crate::opening;
use crate::texts::Texts;
use case_gates::Turns;
use case_reader::Reason;
use drc_session::Session;
use drc_state::EditError;
use edit_script::Command;
use std::alloc::AllocGlobal;
use std::io::Print;
use std::thread::Threads;

/// Whether a session that ran out of memory answers a command that it is stopped.
fn is_stopped<R: AllocGlobal + Threads + Sync>(
    rt: &R,
    session: &mut Session,
    command: &Command<'_>,
) -> bool
    requires { Fits (plain_command command.now) }
{
    match session.apply(rt, 1, command, &Turns::none()) {
        Err(EditError::Stopped) => session.stopped(),
        _ => false,
    }
}

/// Prints whether a session that ran out of memory is stopped: there may be none for a text.
fn tell_stopped<R: AllocGlobal + Print + Threads + Sync>(
    rt: &R,
    session: &mut Session,
    command: &Command<'_>,
) -> Reason
    requires { Fits (plain_command command.now) }
{
    let stopped = is_stopped(rt, session, command);
    let _ = println!(rt; "out of memory, stopped: {stopped}");
    Reason::OutOfMemory
}

/// Carries a command out, and tells how many rows there are then.
fn carried_out<R: AllocGlobal + Print + Threads + Sync>(
    rt: &R,
    session: &mut Session,
    command: &Command<'_>,
) -> Result<Vec<u8>, Reason>
    requires { Fits (plain_command command.now) }
{
    let text = match session.apply(rt, 1, command, &Turns::none()) {
        Ok(_) => {
            let count = session.rows().len();
            let stopped = session.stopped();
            format!(in rt.alloc(); "applied: {count} rows, stopped: {stopped}\n")?
        }
        Err(EditError::OutOfMemory) => return Err(tell_stopped(rt, session, command)),
        Err(why) => format!(in rt.alloc(); "refused: {why}\n")?,
    };
    Ok(text.into_bytes())
}

/// Carries the command of this place out.
fn carried_out_at<R: AllocGlobal + Print + Threads + Sync>(
    rt: &R,
    session: &mut Session,
    commands: &[Command<'_>],
    place: usize,
) -> Result<Vec<u8>, Reason>
    requires place { place < length commands.now }
    requires fit { All Fits (map plain_command commands.now) }
{
    carried_out(rt, session, &commands[place])
}

/// Carries the first command of a script out on a session of a board.
pub(crate) fn told<R: AllocGlobal + Print + Threads + Sync>(
    rt: &R,
    texts: Texts<'_>,
) -> Result<Vec<u8>, Reason> {
    let commands = opening::commands(rt.alloc(), texts.other)?;
    if commands.is_empty() {
        return Err(Reason::NoCall);
    }
    let mut session = opening::session(rt, texts.board)?;
    carried_out_at(rt, &mut session, &commands, 0)
}
