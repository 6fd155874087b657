//! Surveys of all commands of a script, each alone.

ghost use Rattle.std.specs.Prelude.{◌≡◌, ◌<◌, ◌≤◌, false, length, map, All};
ghost use Rattle.edit_script.specs.Commands.{plain_command};
ghost use Rattle.edit_script.specs.Fits.{Fits};

use crate::opening;
use crate::texts::Texts;
use case_gates::Turns;
use case_reader::Reason;
use drc_session::Session;
use edit_script::Command;
use std::alloc::{AllocError, AllocGlobal, Global};
use std::thread::Threads;
use what_if::{Survey, survey};

/// Adds how many rows there are after a command, or that it is refused.
fn add_count(alloc: Global, text: &mut Vec<u8>, count: Option<u64>) -> Result<(), AllocError> {
    let piece = match count {
        Some(count) => format!(in alloc; "{count} ")?,
        None => "refused ".to_string(alloc)?,
    };
    text.extend_from_slice(piece.as_bytes())?;
    Ok(())
}

/// The count of each command, and the first place of the least.
fn shown(alloc: Global, survey: &Survey) -> Result<Vec<u8>, AllocError> {
    let mut text = Vec::new(alloc);
    for count in &survey.counts {
        add_count(alloc, &mut text, *count)?;
    }
    let least = survey.least;
    text.extend_from_slice(format!(in alloc; "least {least:?}\n")?.as_bytes())?;
    Ok(text)
}

/// What a survey of the commands by so many workers tells.
fn surveyed<R: Threads + Sync + AllocGlobal>(
    rt: &R,
    session: &Session,
    commands: &[Command<'_>],
    workers: u32,
    gate: &Turns,
) -> Result<Vec<u8>, Reason>
    requires running { session.now.stopped ≡ false }
    requires few { length commands.now ≤ 64 }
    requires fit { All Fits (map plain_command commands.now) }
{
    if workers == 0 || workers > 64 {
        return Err(Reason::BadNumber);
    }
    let found = survey(session, rt, workers, commands, gate)?;
    Ok(shown(rt.alloc(), &found)?)
}

/// What a survey of the commands of a script on a board tells.
pub(crate) fn told<R: Threads + Sync + AllocGlobal>(
    rt: &R,
    texts: Texts<'_>,
    workers: u32,
    gate: &Turns,
) -> Result<Vec<u8>, Reason> {
    let commands = opening::commands(rt.alloc(), texts.other)?;
    let session = opening::session(rt, texts.board)?;
    surveyed(rt, &session, &commands, workers, gate)
}
