//! The counts of runs, in the order of the commands.

ghost use Rattle.std.specs.Prelude.{◌<◌, IfOk, length, map};
ghost use Rattle.edit_script.specs.Commands.{plain_command};
ghost use Rattle.tile_pool.specs.NumberedValues.{AreAnswers};
ghost use Rattle.what_if.specs.Trials.{IsCountAt};
ghost use Rattle.what_if.specs.CommandRuns.{AreCommandRuns};

use drc_session::Session;
use edit_script::Command;
use std::alloc::{AllocError, Global};

/// The count of the command of this place, which stands in one of the runs.
fn count_of(
    session: &Session,
    commands: &[Command<'_>],
    runs: &[Vec<Option<u64>>],
    place: usize,
) -> Option<u64>
    requires some { 0 < length runs.now }
    requires runs { AreCommandRuns session.now.state (map plain_command commands.now)
        (length runs.now) runs.now }
    requires place { place < length commands.now }
    ensures { IsCountAt session.now.state (map plain_command commands.now) place result }
{
    let _ = session;
    let _ = commands;
    let run = runs[place % runs.len()].as_slice();
    match run.get(place / runs.len()) {
        Some(count) => *count,
        None => None,
    }
}

/// The counts of all commands, in their order.
pub(crate) fn in_order(
    alloc: Global,
    session: &Session,
    commands: &[Command<'_>],
    runs: &[Vec<Option<u64>>],
) -> Result<Vec<Option<u64>>, AllocError>
    requires some { 0 < length runs.now }
    requires runs { AreCommandRuns session.now.state (map plain_command commands.now)
        (length runs.now) runs.now }
    ensures { IfOk result (λ counts.
        AreAnswers (IsCountAt session.now.state (map plain_command commands.now))
        (length commands.now) counts.items) }
{
    let mut counts = Vec::with_capacity(alloc, commands.len())?;
    for place in 0..commands.len() {
        counts.push_reserved(count_of(session, commands, runs, place));
    }
    Ok(counts)
}
