//! Trials of all commands of a script, one after another.

ghost use Rattle.std.specs.Prelude.{◌≡◌, ◌≤◌, false, length, map, All};
ghost use Rattle.edit_script.specs.Commands.{plain_command};
ghost use Rattle.edit_script.specs.Fits.{Fits};

use crate::opening;
use crate::texts::Texts;
use case_gates::Turns;
use case_reader::Reason;
use drc_session::Session;
use edit_script::Command;
use std::alloc::AllocGlobal;
use std::thread::Threads;
use what_if::{TrialError, trial};

/// How many rows there are after a trial of the commands with so many workers, and how many of these came and went.
fn tried<R: Threads + Sync + AllocGlobal>(
    rt: &R,
    session: &Session,
    commands: &[Command<'_>],
    workers: u32,
    gate: &Turns,
) -> Result<Vec<u8>, Reason>
    requires running { session.now.stopped ≡ false }
    requires few { length commands.now ≤ 64 }
    requires fit { All Fits (map plain_command commands.now) }
{
    if workers == 0 || workers > 64 {
        return Err(Reason::BadNumber);
    }
    match trial(session, rt, workers, commands, gate) {
        Ok(tried) => {
            let count = tried.session.rows().len();
            let (come, gone) = (tried.come.len(), tried.gone.len());
            Ok(format!(in rt.alloc(); "{count} rows, {come} come, {gone} go\n")?.into_bytes())
        }
        Err(TrialError::Refused { step, inner }) => {
            Ok(format!(in rt.alloc(); "refused at {step}: {inner}\n")?.into_bytes())
        }
        Err(TrialError::OutOfMemory) => Err(Reason::OutOfMemory),
    }
}

/// What the trials of the commands give, and how many rows the session that was lent has after them.
fn tried_and_lent<R: Threads + Sync + AllocGlobal>(
    rt: &R,
    session: &Session,
    commands: &[Command<'_>],
    workers: u32,
    gate: &Turns,
) -> Result<Vec<u8>, Reason>
    requires running { session.now.stopped ≡ false }
    requires few { length commands.now ≤ 64 }
    requires fit { All Fits (map plain_command commands.now) }
{
    let mut text = tried(rt, session, commands, workers, gate)?;
    let count = session.rows().len();
    text.extend_from_slice(format!(in rt.alloc(); "{count} rows as before\n")?.as_bytes())?;
    Ok(text)
}

/// What a trial of the commands of a script on a board tells.
pub(crate) fn told<R: Threads + Sync + AllocGlobal>(
    rt: &R,
    texts: Texts<'_>,
    workers: u32,
    gate: &Turns,
) -> Result<Vec<u8>, Reason> {
    let commands = opening::commands(rt.alloc(), texts.other)?;
    let session = opening::session(rt, texts.board)?;
    tried_and_lent(rt, &session, &commands, workers, gate)
}
