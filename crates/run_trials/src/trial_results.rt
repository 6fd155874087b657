//! What a command that is tried would do, found out before anything of it is written.

ghost use Rattle.std.specs.Prelude.{◌≡◌, ◌≤◌, false, codes, Ok, All, OnOk, IfOk, IfErr};
ghost use Rattle.edit_script.specs.Commands.{PlainCommand, plain_command};
ghost use Rattle.edit_script.specs.Fits.{Fits};
ghost use Rattle.pair_check.specs.Rows.{IsRow};
ghost use Rattle.drc_state.specs.States.{State, checked_in};
ghost use Rattle.drc_state.specs.CommandSteps.{Answers};
ghost use Rattle.what_if.specs.Trials.{IsDifference};
ghost use Rattle.what_if.specs.Tried.{IsRefusedHere};
ghost use Rattle.what_if.specs.TrialScratches.{adds};
ghost use Rattle.run_output.specs.CommandOutputs.{marked_lines, or_some};
ghost use Rattle.run_trials.specs.TrialResults.{IsTrialContext, IsTrialResult, IsStill};

use crate::marked_rows::write_some;
use crate::sinks::KeptText;
use drc_io::Failed;
use drc_session::Session;
use edit_script::Command;
use row_check::Row;
use std::alloc::{AllocError, AllocGlobal, Global};
use std::slice::from_ref;
use std::thread::Threads;
use tile_pool::Gate;
use what_if::{Taken, Trial, TrialError, is_turned_back, take, trial, turn_back};

/// What commands are tried on beside a session: the rows that it has, and by how many workers, from 1 to 8.
#[derive(Clone, Copy)]
pub(crate) struct TrialContext<'a> {
    pub(crate) before: &'a [Row],
    pub(crate) workers: u32,
}

/// What a command would do.
#[derive(Drop)]
pub(crate) struct TrialResult {
    /// The rows that would go.
    pub(crate) gone: Vec<Row>,
    /// The lines of the rows that would come, each behind `+ `.
    pub(crate) lines: Vec<u8>,
    /// Whether any row would come.
    pub(crate) comes: bool,
    /// How many rows there would be.
    pub(crate) count: u64,
}

/// Whether some rows come.
fn is_some_row(come: &[Row]) -> bool
    ensures { result ≡ or_some false come.now }
{
    match come {
        [] => false,
        _ => true,
    }
}

/// The lines of rows of a session that is not stopped, each behind `+ `.
fn lines_of(alloc: Global, session: &Session, come: &[Row]) -> Result<Vec<u8>, AllocError>
    requires running { session.now.stopped ≡ false }
    requires rows { All (IsRow (checked_in session.now.state)) come.now }
    ensures { IfOk result (λ lines. lines.items ≡ marked_lines (codes "+ ") session.now.state
        come.now) }
{
    let mut text = KeptText::new(alloc);
    match write_some(b"+ ", session, come, &mut text) {
        Ok(()) => Ok(text.bytes),
        Err(Failed) => Err(AllocError),
    }
}

/// What there is to tell of a command, by the session that took it, and the rows that come and go by it.
fn told_of(
    alloc: Global,
    session: &Session,
    come: &[Row],
    gone: Vec<Row>,
) -> Result<TrialResult, AllocError>
    requires running { session.now.stopped ≡ false }
    requires rows { All (IsRow (checked_in session.now.state)) come.now }
    ensures { (s : State) (command : PlainCommand) → Answers s command (Ok session.now.state) →
        IsDifference s session.now.state come.now gone.items
        → IfOk result (IsTrialResult s command) }
{
    let comes = is_some_row(come);
    let count = session.rows().len() as u64;
    let lines = lines_of(alloc, session, come)?;
    Ok(TrialResult {
        gone,
        lines,
        comes,
        count,
    })
}

/// What the command would do, found out on the session itself, which is turned back.
fn trial_result_here<R: Threads + Sync + AllocGlobal, G: Gate>(
    rt: &R,
    gate: &G,
    trial_context: TrialContext<'_>,
    command: &Command<'_>,
    session: &mut Session,
) -> Result<TrialResult, TrialError>
    requires trial_context { IsTrialContext session.old trial_context }
    requires fits { Fits (plain_command command.now) }
    requires none_added { adds (plain_command command.now) ≡ false }
    ensures still { OnOk result (IsStill session.old session.new) }
    ensures trial_result { IfOk result (IsTrialResult session.old.state
        (plain_command command.now)) }
    ensures refused { IfErr result (IsRefusedHere session.old session.new
        (plain_command command.now)) }
{
    let Taken { come, gone, back } = take(
        session,
        trial_context.before,
        rt,
        trial_context.workers,
        command,
        gate,
    )?;
    let trial_result = match told_of(rt.alloc(), session, &come, gone) {
        Ok(trial_result) => trial_result,
        Err(_) => {
            drop(back);
            return Err(TrialError::OutOfMemory);
        }
    };
    match turn_back(session, rt, trial_context.workers, back) {
        Ok(()) => Ok(trial_result),
        Err(_) => {
            drop(trial_result);
            Err(TrialError::OutOfMemory)
        }
    }
}

/// What the command would do, found out on a copy.
fn trial_result_apart<R: Threads + Sync + AllocGlobal, G: Gate>(
    rt: &R,
    gate: &G,
    workers: u32,
    command: &Command<'_>,
    session: &Session,
) -> Result<TrialResult, TrialError>
    requires workers { (1 ≤ workers) × (workers ≤ 8) }
    requires running { session.now.stopped ≡ false }
    requires fits { Fits (plain_command command.now) }
    ensures trial_result { IfOk result (IsTrialResult session.now.state
        (plain_command command.now)) }
    ensures refused { IfErr result (IsRefusedHere session.now session.now
        (plain_command command.now)) }
{
    let Trial {
        session: then,
        come,
        gone,
    } = trial(session, rt, workers, from_ref(command), gate)?;
    let trial_result = told_of(rt.alloc(), &then, &come, gone);
    drop(then);
    Ok(trial_result?)
}

/// What the command would do to the session, which is at the end as it was: found out on the session itself where it can be turned back, and
/// else on a copy. Where memory runs out nothing is known of the session.
pub(crate) fn trial_result_of<R: Threads + Sync + AllocGlobal, G: Gate>(
    rt: &R,
    gate: &G,
    trial_context: TrialContext<'_>,
    command: &Command<'_>,
    session: &mut Session,
) -> Result<TrialResult, TrialError>
    requires trial_context { IsTrialContext session.old trial_context }
    requires fits { Fits (plain_command command.now) }
    ensures still { OnOk result (IsStill session.old session.new) }
    ensures trial_result { IfOk result (IsTrialResult session.old.state
        (plain_command command.now)) }
    ensures refused { IfErr result (IsRefusedHere session.old session.new
        (plain_command command.now)) }
{
    if is_turned_back(command) {
        trial_result_here(rt, gate, trial_context, command, session)
    } else {
        trial_result_apart(rt, gate, trial_context.workers, command, session)
    }
}
