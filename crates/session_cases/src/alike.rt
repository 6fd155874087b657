//! Trials of the commands of a script, each alone on one session, by two threads.

ghost use Rattle.std.specs.Prelude.{◌≡◌, ◌<◌, ◌≤◌, false, length, map, All, IfOk};
ghost use Rattle.edit_script.specs.Commands.{plain_command};
ghost use Rattle.edit_script.specs.Fits.{Fits};

use crate::answers::{Answer, answer_at};
use crate::opening;
use crate::texts::Texts;
use case_gates::Turns;
use case_reader::Reason;
use drc_session::Session;
use edit_script::Command;
use std::alloc::{AllocError, AllocGlobal, Global};
use std::thread::Threads;
use tile_pool::{TileWork, run_tiles};

/// Commands that are tried each alone, all on one session: the number k has the command of the place k.
#[derive(Drop)]
struct Trials<'a, R> {
    session: &'a Session,
    rt: &'a R,
    commands: &'a [Command<'a>],
}

impl<'a, R: Threads + Sync> TileWork for Trials<'a, R> {
    type Out = Answer;

    ghost use Rattle.std.specs.Prelude.{◌≡◌, false, All, length, map};
    ghost use Rattle.std.specs.Thread.{IsSync};
    ghost use Rattle.edit_script.specs.Commands.{plain_command};
    ghost use Rattle.edit_script.specs.Fits.{Fits};

    ghost ready = { λ work. IsSync R.row × (work.session.now.stopped ≡ false) × All Fits (map plain_command work.commands.now) };

    ghost count = { λ work. length work.commands.now };

    ghost gives = { λ _ _ _. Unit {0} };

    fn test(&self, alloc: Global, number: u32) -> Result<Answer, AllocError> {
        // That the runtime gives an allocator is known of the thread alone that it was passed to.
        let rt = (self.rt, alloc);
        answer_at(&rt, self.session, self.commands, number as usize)
    }
}

/// The answers that two workers get.
fn answers_of<R: AllocGlobal + Threads + Sync>(
    rt: &R,
    session: &Session,
    commands: &[Command<'_>],
    gate: &Turns,
) -> Result<Vec<Answer>, AllocError>
    requires running { session.now.stopped ≡ false }
    requires few { length commands.now ≤ 64 }
    requires fit { All Fits (map plain_command commands.now) }
    ensures { IfOk result (λ answers. length answers.items ≡ length commands.now) }
{
    let work = Trials {
        session,
        rt,
        commands,
    };
    let (answers, _) = run_tiles(rt, rt.alloc(), 2, commands.len() as u32, &work, gate)?;
    Ok(answers)
}

/// Adds an answer, and whether a caller alone has the same.
fn add<R: AllocGlobal + Threads + Sync>(
    rt: &R,
    session: &Session,
    commands: &[Command<'_>],
    place: usize,
    told: &Answer,
    text: &mut Vec<u8>,
) -> Result<(), AllocError>
    requires running { session.now.stopped ≡ false }
    requires place { place < length commands.now }
    requires fit { All Fits (map plain_command commands.now) }
{
    let alike = told.is_like(&answer_at(rt, session, commands, place)?);
    let piece = match told {
        Answer::Tried { count, .. } => format!(in rt.alloc();
            "{place}: {count}, alike: {alike}\n"
        )?,
        Answer::Refused(why) => format!(in rt.alloc(); "{place}: {why}, alike: {alike}\n")?,
    };
    text.extend_from_slice(piece.as_bytes())?;
    Ok(())
}

/// What two workers are told, each command alone, and whether a caller alone is told the same.
fn side_by_side<R: AllocGlobal + Threads + Sync>(
    rt: &R,
    session: &Session,
    commands: &[Command<'_>],
    gate: &Turns,
) -> Result<Vec<u8>, AllocError>
    requires running { session.now.stopped ≡ false }
    requires few { length commands.now ≤ 64 }
    requires fit { All Fits (map plain_command commands.now) }
{
    let answers = answers_of(rt, session, commands, gate)?;
    let mut text = Vec::new(rt.alloc());
    for place in 0..commands.len() {
        add(rt, session, commands, place, &answers[place], &mut text)?;
    }
    Ok(text)
}

/// What two workers are told of the commands of a script on a board, and whether a caller alone is told the same.
pub(crate) fn told<R: AllocGlobal + Threads + Sync>(
    rt: &R,
    texts: Texts<'_>,
    gate: &Turns,
) -> Result<Vec<u8>, Reason> {
    let commands = opening::commands(rt.alloc(), texts.other)?;
    let session = opening::session(rt, texts.board)?;
    Ok(side_by_side(rt, &session, &commands, gate)?)
}
