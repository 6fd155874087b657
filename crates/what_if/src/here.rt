//! Commands that are tried on a session itself, which is turned back after each.

ghost use Rattle.std.specs.Prelude.{◌≡◌, ◌<◌, true, false, Ok, Err, OnOk, OnErr, IfOk, IfErr};
ghost use Rattle.plain_types.specs.Limits.{IsWorkerCount};
ghost use Rattle.edit_script.specs.Commands.{PlainCommand, plain_command};
ghost use Rattle.edit_script.specs.Fits.{Fits};
ghost use Rattle.pair_check.specs.Rows.{AreRows};
ghost use Rattle.drc_state.specs.States.{State, checked_in};
ghost use Rattle.drc_state.specs.CommandSteps.{Answers};
ghost use Rattle.drc_state.specs.StateChanges.{plain_change, ChangeFits, IsInverseChange};
ghost use Rattle.what_if.specs.declared.error.TrialError.{TrialError};
ghost use Rattle.what_if.specs.Tried.{IsTaken, IsRefusedHere, IsStoppedOrTook};
ghost use Rattle.what_if.specs.TrialScratches.{adds, turns_back};

use crate::error::TrialError;
use crate::laws::turned_back;
use crate::outcome::Taken;
use crate::trying::difference;
use drc_session::Session;
use drc_state::{Change, EditError};
use edit_script::Command;
use row_check::Row;
use std::alloc::{AllocError, AllocGlobal};
use std::thread::Threads;
use tile_pool::{Gate, NoGate};

/// Whether a session that took the command is turned back. After a list that is added it cannot be, since the numbers that come next do not
/// go back; and to check the whole board again under the rules from before takes longer than a copy.
pub fn is_turned_back(command: &Command<'_>) -> bool
    ensures exact { result ≡ turns_back (plain_command command.now) }
    ensures none_added { result ≡ true → adds (plain_command command.now) ≡ false }
{
    match command {
        Command::Delete { .. } | Command::Move { .. } | Command::Again { .. } => true,
        Command::Add { .. } | Command::Rules { .. } => false,
    }
}

/// Carries the command out on the session itself, with so many workers, from 1 to 64, and says what came of it since it had these rows.
/// `Refused` says exactly that the command is refused, at step 0, and then the session is as it was. Where memory runs out the session is
/// stopped, or it is not and took the command.
pub fn take<R: Threads + Sync + AllocGlobal, G: Gate>(
    session: &mut Session,
    before: &[Row],
    rt: &R,
    workers: u32,
    command: &Command<'_>,
    gate: &G,
) -> Result<Taken, TrialError>
    requires workers { IsWorkerCount workers }
    requires running { session.old.stopped ≡ false }
    requires before { AreRows (checked_in session.old.state) before.now }
    requires fits { Fits (plain_command command.now) }
    ensures running { OnOk result (session.new.stopped ≡ false) }
    ensures taken { IfOk result
        (IsTaken session.old.state (plain_command command.now) session.new.state) }
    ensures refused { IfErr result
        (IsRefusedHere session.old session.new (plain_command command.now)) }
    ensures memory_ran_out { result ≡ Err TrialError.OutOfMemory
        → IsStoppedOrTook session.old session.new (plain_command command.now) }
{
    match session.apply_kept(rt, workers, command, gate) {
        Ok((applied, back)) => {
            drop(applied);
            match difference(rt.alloc(), before, session) {
                Ok((come, gone)) => Ok(Taken { come, gone, back }),
                Err(_) => {
                    drop(back);
                    Err(TrialError::OutOfMemory)
                }
            }
        }
        Err(EditError::OutOfMemory) => Err(TrialError::OutOfMemory),
        Err(inner) => Err(TrialError::Refused { step: 0, inner }),
    }
}

/// Turns a session that took a command back to the state from before, by the inverse change. Where memory runs out the session is
/// stopped.
pub fn turn_back<R: Threads + Sync + AllocGlobal>(
    session: &mut Session,
    rt: &R,
    workers: u32,
    back: Change,
) -> Result<(), AllocError>
    requires workers { IsWorkerCount workers }
    requires running { session.old.stopped ≡ false }
    requires fits { ChangeFits session.old.state (plain_change back) }
    ensures running { OnOk result (session.new.stopped ≡ false) }
    ensures stopped { OnErr result (session.new.stopped ≡ true) }
    ensures back { (s : State) (command : PlainCommand) → adds command ≡ false
        → Answers s command (Ok session.old.state)
        → IsInverseChange (plain_change back) session.old.state s
        → OnOk result (session.new.state ≡ s) }
{
    turned_back();
    session.turn(rt, workers, back, &NoGate)?;
    Ok(())
}
