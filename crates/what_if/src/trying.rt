//! Commands that are tried one after another.

ghost use Rattle.std.specs.Prelude.{◌≡◌, ◌<◌, ◌≤◌, false, Ok, Err, All, map, length, OnOk, IfOk, IfErr};
ghost use Rattle.std.specs.List.{AllPairs};
ghost use Rattle.plain_types.specs.Limits.{IsWorkerCount};
ghost use Rattle.edit_script.specs.Commands.{plain_command};
ghost use Rattle.edit_script.specs.Fits.{Fits};
ghost use Rattle.pair_check.specs.Rows.{Before, AreRows};
ghost use Rattle.drc_state.specs.States.{State, checked_in};
ghost use Rattle.drc_state.specs.CommandSteps.{Answers};
ghost use Rattle.drc_session.specs.Sessions.{IsChecked};
ghost use Rattle.what_if.specs.Trials.{LeadTo, IsDifference};
ghost use Rattle.what_if.specs.Tried.{IsTrialOf, IsRefusal, IsRefusedAt};

use crate::difference::rows_missing;
use crate::error::TrialError;
use crate::outcome::Trial;
use drc_session::Session;
use drc_state::EditError;
use edit_script::Command;
use row_check::Row;
use std::alloc::{AllocError, AllocGlobal, Global};
use std::thread::Threads;
use tile_pool::Gate;

/// Carries the command out, which has this place among all of them.
fn take_one<R: Threads + Sync + AllocGlobal, G: Gate>(
    session: &mut Session,
    rt: &R,
    workers: u32,
    step: u32,
    command: &Command<'_>,
    gate: &G,
) -> Result<(), TrialError>
    requires workers { IsWorkerCount workers }
    requires running { session.old.stopped ≡ false }
    requires fits { Fits (plain_command command.now) }
    ensures running { OnOk result (session.new.stopped ≡ false) }
    ensures answer { OnOk result
        (Answers session.old.state (plain_command command.now) (Ok session.new.state)) }
    ensures refused { IfErr result
        (IsRefusedAt session.old.state (plain_command command.now) step) }
{
    match session.apply(rt, workers, command, gate) {
        Ok(applied) => {
            drop(applied);
            Ok(())
        }
        Err(EditError::OutOfMemory) => Err(TrialError::OutOfMemory),
        Err(inner) => Err(TrialError::Refused { step, inner }),
    }
}

/// Carries the commands out one after another, up to the first that is refused.
fn take_all<R: Threads + Sync + AllocGlobal, G: Gate>(
    session: &mut Session,
    rt: &R,
    workers: u32,
    commands: &[Command<'_>],
    gate: &G,
) -> Result<(), TrialError>
    requires workers { IsWorkerCount workers }
    requires running { session.old.stopped ≡ false }
    requires few { length commands.now ≤ 4294967296 }
    requires fit { All Fits (map plain_command commands.now) }
    ensures running { OnOk result (session.new.stopped ≡ false) }
    ensures led { OnOk result
        (LeadTo session.old.state (map plain_command commands.now) session.new.state) }
    ensures refused { IfErr result (IsRefusal session.old.state (map plain_command commands.now)) }
{
    for step in 0..commands.len() {
        take_one(session, rt, workers, step as u32, &commands[step], gate)?;
    }
    Ok(())
}

/// Which rows come, and which go, since a state had these rows.
pub(crate) fn difference(
    alloc: Global,
    before: &[Row],
    after: &Session,
) -> Result<(Vec<Row>, Vec<Row>), AllocError>
    requires before { AllPairs Before before.now }
    requires after { after.now.stopped ≡ false }
    ensures { (s : State) → AreRows (checked_in s) before.now
        → IfOk result (λ r. IsDifference s after.now.state r.0.items r.1.items) }
{
    let come = rows_missing(alloc, before, after.rows())?;
    let gone = rows_missing(alloc, after.rows(), before)?;
    Ok((come, gone))
}

/// A copy of the session that took the commands.
fn taken<R: Threads + Sync + AllocGlobal, G: Gate>(
    session: &Session,
    rt: &R,
    workers: u32,
    commands: &[Command<'_>],
    gate: &G,
) -> Result<Session, TrialError>
    requires workers { IsWorkerCount workers }
    requires running { session.now.stopped ≡ false }
    requires few { length commands.now ≤ 4294967296 }
    requires fit { All Fits (map plain_command commands.now) }
    ensures running { IfOk result (λ copy. copy.stopped ≡ false) }
    ensures led { IfOk result (λ copy.
        LeadTo session.now.state (map plain_command commands.now) copy.state) }
    ensures refused { IfErr result (IsRefusal session.now.state (map plain_command commands.now)) }
{
    let mut copy = session.copy()?;
    match take_all(&mut copy, rt, workers, commands, gate) {
        Ok(()) => Ok(copy),
        Err(why) => {
            drop(copy);
            Err(why)
        }
    }
}

/// The rows and the nets of a session are those of its state. The function does nothing.
pub(crate) fn is_checked(session: &Session)
    requires { session.now.stopped ≡ false }
    ensures { IsChecked session.now }
{
    let _ = session.rows();
    let _ = session.nets();
}

/// Tries the commands one after another on a copy of the session, with so many workers, from 1 to 64: what comes of it is the
/// copy and the rows that come and go. `Refused` says exactly which command is the first that is refused; each has fewer than 2^32
/// before it. The session that is lent must not be stopped, and it stays as it is.
pub fn trial<R: Threads + Sync + AllocGlobal, G: Gate>(
    session: &Session,
    rt: &R,
    workers: u32,
    commands: &[Command<'_>],
    gate: &G,
) -> Result<Trial, TrialError>
    requires workers { IsWorkerCount workers }
    requires running { session.now.stopped ≡ false }
    requires few { length commands.now ≤ 4294967296 }
    requires fit { All Fits (map plain_command commands.now) }
    ensures tried { IfOk result (IsTrialOf session.now.state (map plain_command commands.now)) }
    ensures refused { IfErr result (IsRefusal session.now.state (map plain_command commands.now)) }
{
    let tried = taken(session, rt, workers, commands, gate)?;
    is_checked(&tried);
    match difference(rt.alloc(), session.rows(), &tried) {
        Ok((come, gone)) => Ok(Trial {
            session: tried,
            come,
            gone,
        }),
        Err(_) => {
            drop(tried);
            Err(TrialError::OutOfMemory)
        }
    }
}
