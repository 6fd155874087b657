//! What is kept of a step. A place for the inverse change is made before the session is changed.

ghost use Rattle.std.specs.Prelude.{◌≡◌, ◌⊎◌, ◌++◌, ◌∷◌, ◌<◌, true, false, [], List, vec_len, vec_capacity, OnOk, IfOk, IfErr, OnErr, Err};
ghost use Rattle.plain_types.specs.Limits.{IsWorkerCount};
ghost use Rattle.edit_script.specs.Commands.{plain_command};
ghost use Rattle.edit_script.specs.Fits.{Fits};
ghost use Rattle.drc_state.specs.declared.error.EditError.{EditError};
ghost use Rattle.drc_state.specs.CommandSteps.{Answers};
ghost use Rattle.drc_state.specs.StateChanges.{PlainChange, ChangeFits};
ghost use Rattle.drc_session.specs.Sessions.{IsDealt, IsCarriedOut};
ghost use Rattle.undo_log.specs.Past.{is_again};
ghost use Rattle.undo_log.specs.Ways.{nearest_first};
ghost use Rattle.undo_log.specs.HistoryCalls.{IsStoppedOrSame};
ghost use Rattle.undo_log.specs.Keeping.{IsNoted, IsSwitched};

use drc_session::{Applied, Session};
use drc_state::{Change, EditError};
use edit_script::Command;
use std::alloc::{AllocError, AllocGlobal};
use std::thread::Threads;
use tile_pool::Gate;

/// Keeps the inverse change, and nothing leads on any more. Of a report again nothing is kept.
fn keep(command: &Command<'_>, change: Change, back: &mut Vec<Change>, on: &mut Vec<Change>)
    requires room { vec_len back.old < vec_capacity back.old }
    ensures again { is_again (plain_command command.now) ≡ true → (back.new.items ≡ back.old.items)
        × (on.new.items ≡ on.old.items) }
    ensures other { is_again (plain_command command.now) ≡ false
        → (back.new.items ≡ back.old.items ++ change ∷ []) × (on.new.items ≡ []) }
{
    match command {
        Command::Again { .. } => drop(change),
        _ => {
            back.push_reserved(change);
            on.clear();
        }
    }
}

/// Carries the command out, and keeps the inverse change.
pub(crate) fn carry_out<R: Threads + Sync + AllocGlobal, G: Gate>(
    rt: &R,
    workers: u32,
    session: &mut Session,
    back: &mut Vec<Change>,
    on: &mut Vec<Change>,
    command: &Command<'_>,
    gate: &G,
) -> Result<Applied, EditError>
    requires workers { IsWorkerCount workers }
    requires running { session.old.stopped ≡ false }
    requires fits { Fits (plain_command command.now) }
    ensures carried { IfOk result (λ applied.
        IsCarriedOut session.old session.new (plain_command command.now) applied
        × IsDealt workers applied) }
    ensures noted { OnOk result
        (IsNoted session.old.state session.new.state (plain_command command.now)
        (nearest_first back.old.items) (nearest_first back.new.items) (nearest_first on.old.items)
        (nearest_first on.new.items)) }
    ensures refused { IfErr result (λ why. (why ≡ EditError.OutOfMemory)
        ⊎ (Answers session.old.state (plain_command command.now) (Err why)
        × (session.new ≡ session.old))) }
    ensures memory_ran_out { OnErr result (IsStoppedOrSame session.old session.new) }
    ensures unchanged { OnErr result
        ((back.new.items ≡ back.old.items) × (on.new.items ≡ on.old.items)) }
{
    back.reserve(1)?;
    let (applied, change) = session.apply_kept(rt, workers, command, gate)?;
    keep(command, change, back, on);
    Ok(applied)
}

/// Makes the nearest change on one side, and keeps its inverse on the other. Only running out of memory fails it.
pub(crate) fn switch<R: Threads + Sync + AllocGlobal, G: Gate>(
    rt: &R,
    workers: u32,
    session: &mut Session,
    from: &mut Vec<Change>,
    to: &mut Vec<Change>,
    gate: &G,
) -> Result<Applied, AllocError>
    requires workers { IsWorkerCount workers }
    requires running { session.old.stopped ≡ false }
    requires some { 0 < vec_len from.old }
    requires fits { (nearest : PlainChange) (others : List PlainChange)
        → nearest_first from.old.items ≡ nearest ∷ others → ChangeFits session.old.state nearest }
    ensures switched { IfOk result (λ applied.
        IsSwitched session.old session.new (nearest_first from.old.items)
        (nearest_first from.new.items) (nearest_first to.old.items)
        (nearest_first to.new.items) applied × IsDealt workers applied) }
    ensures memory_ran_out { OnErr result (IsStoppedOrSame session.old session.new) }
{
    to.reserve(1)?;
    let Some(change) = from.pop() else {
        unreachable!()
    };
    let (applied, back) = session.turn(rt, workers, change, gate)?;
    to.push_reserved(back);
    Ok(applied)
}
