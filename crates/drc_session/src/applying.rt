//! Commands and changes.

ghost use Rattle.std.specs.Prelude.{◌≡◌, ◌<◌, true, false, OnOk, IfOk, IfErr, OnErr};
ghost use Rattle.plain_types.specs.Limits.{IsWorkerCount};
ghost use Rattle.edit_script.specs.Commands.{plain_command};
ghost use Rattle.edit_script.specs.Fits.{Fits};
ghost use Rattle.drc_state.specs.CommandSteps.{is_rules};
ghost use Rattle.board_edits.specs.Operations.{GivesNoItem};
ghost use Rattle.drc_state.specs.StateChanges.{plain_change, plain_edit, is_replace, no_change, ChangesNothing, Makes, ChangeFits, IsInverseChange};
ghost use Rattle.drc_session.specs.Sessions.{IsApplied, IsDealt, IsCarriedOut, IsTurned, IsRefusedBy};
ghost use Rattle.drc_session.specs.SessionContents.{state_of, IsKept};

use crate::applied::Applied;
use crate::editing::edit_board;
use crate::parts::Parts;
use crate::replacing::replace_rules;
use crate::session::Session;
use drc_state::{Change, Edit, EditError, change_of, edit_in, edit_of};
use edit_script::Command;
use std::alloc::{AllocError, AllocGlobal, Global};
use std::thread::Threads;
use tile_pool::Gate;

/// Makes the edit, and finds again what it changed.
fn carry_out<R: Threads + Sync, G: Gate>(
    rt: &R,
    alloc: Global,
    workers: u32,
    parts: &mut Parts,
    edit: Edit,
    gate: &G,
) -> Result<(Applied, Change), AllocError>
    requires workers { IsWorkerCount workers }
    requires kept { IsKept parts.old }
    requires fits { ChangeFits (state_of parts.old) (plain_edit edit) }
    ensures kept { OnOk result (IsKept parts.new) }
    ensures makes { OnOk result
        (Makes (plain_edit edit) (state_of parts.old) (state_of parts.new)) }
    ensures applied { IfOk result (λ r.
        IsApplied (state_of parts.old) (state_of parts.new) (is_replace (plain_edit edit)) r.0
        × IsDealt workers r.0) }
    ensures back { IfOk result (λ r.
        IsInverseChange (plain_change r.1) (state_of parts.new) (state_of parts.old)) }
    ensures kind { IfOk result (λ r. is_replace (plain_change r.1) ≡ is_replace (plain_edit edit)) }
    ensures none { IfOk result (λ r. ChangesNothing (plain_edit edit)
        → plain_change r.1 ≡ no_change) }
{
    match edit {
        Edit::Board(operation) => {
            let (applied, back) = edit_board(rt, alloc, workers, parts, operation, gate)?;
            Ok((applied, change_of(back)))
        }
        Edit::Rules(rules) => {
            let (applied, rules) = replace_rules(rt, alloc, workers, parts, rules, gate)?;
            Ok((applied, Change::Replace { rules }))
        }
    }
}

impl Session {
    /// Makes the edit. The session is stopped while it is changed, and stays so where memory runs out.
    fn make<R: Threads + Sync + AllocGlobal, G: Gate>(
        &mut self,
        rt: &R,
        workers: u32,
        edit: Edit,
        gate: &G,
    ) -> Result<(Applied, Change), AllocError>
        requires workers { IsWorkerCount workers }
        requires running { self.old.stopped ≡ false }
        requires fits { ChangeFits self.old.state (plain_edit edit) }
        ensures made { IfOk result (λ r. IsTurned self.old self.new (plain_edit edit) r.0
            × IsDealt workers r.0) }
        ensures back { IfOk result (λ r.
            IsInverseChange (plain_change r.1) self.new.state self.old.state) }
        ensures kind { IfOk result (λ r. is_replace (plain_change r.1)
            ≡ is_replace (plain_edit edit)) }
        ensures none { IfOk result (λ r. ChangesNothing (plain_edit edit)
            → plain_change r.1 ≡ no_change) }
        ensures stopped { OnErr result (self.new.stopped ≡ true) }
    {
        self.stopped = true;
        let made = carry_out(rt, rt.alloc(), workers, &mut self.parts, edit, gate)?;
        self.stopped = false;
        Ok(made)
    }

    /// Carries the command out, or says why it is not carried out. The tiles that it affects are dealt to so many workers, from 1 to 64.
    /// After each refusal but running out of memory all is as it was. After running out of memory the session is stopped.
    pub fn apply<R: Threads + Sync + AllocGlobal, G: Gate>(
        &mut self,
        rt: &R,
        workers: u32,
        command: &Command<'_>,
        gate: &G,
    ) -> Result<Applied, EditError>
        requires workers { IsWorkerCount workers }
        requires fits { Fits (plain_command command.now) }
        ensures carried { IfOk result (λ applied.
            IsCarriedOut self.old self.new (plain_command command.now) applied
            × IsDealt workers applied) }
        ensures refused { IfErr result (IsRefusedBy self.old self.new (plain_command command.now)) }
    {
        let (applied, back) = self.apply_kept(rt, workers, command, gate)?;
        drop(back);
        Ok(applied)
    }

    /// Carries the command out as [`Session::apply`] does, and gives the inverse change too. That change replaces the rules exactly
    /// where the command does, and where an added list gives no item, or a report is asked for again, it is [`Change::Nothing`].
    pub fn apply_kept<R: Threads + Sync + AllocGlobal, G: Gate>(
        &mut self,
        rt: &R,
        workers: u32,
        command: &Command<'_>,
        gate: &G,
    ) -> Result<(Applied, Change), EditError>
        requires workers { IsWorkerCount workers }
        requires fits { Fits (plain_command command.now) }
        ensures carried { IfOk result (λ r.
            IsCarriedOut self.old self.new (plain_command command.now) r.0 × IsDealt workers r.0) }
        ensures back { IfOk result (λ r.
            IsInverseChange (plain_change r.1) self.new.state self.old.state) }
        ensures kind { IfOk result (λ r. is_replace (plain_change r.1)
            ≡ is_rules (plain_command command.now)) }
        ensures none { IfOk result (λ r.
            GivesNoItem self.old.state.board (plain_command command.now)
            → plain_change r.1 ≡ no_change) }
        ensures refused { IfErr result (IsRefusedBy self.old self.new (plain_command command.now)) }
    {
        if self.stopped {
            return Err(EditError::Stopped);
        }
        match edit_of(rt.alloc(), &self.parts.board, command) {
            Ok(edit) => match self.make(rt, workers, edit, gate) {
                Ok(made) => Ok(made),
                Err(_) => Err(EditError::OutOfMemory),
            },
            Err(EditError::OutOfMemory) => {
                self.stopped = true;
                Err(EditError::OutOfMemory)
            }
            Err(why) => Err(why),
        }
    }

    /// Makes a change that fits, and gives its inverse, which replaces the rules exactly where this one does. After running out of
    /// memory the session is stopped.
    pub fn turn<R: Threads + Sync + AllocGlobal, G: Gate>(
        &mut self,
        rt: &R,
        workers: u32,
        change: Change,
        gate: &G,
    ) -> Result<(Applied, Change), AllocError>
        requires workers { IsWorkerCount workers }
        requires running { self.old.stopped ≡ false }
        requires fits { ChangeFits self.old.state (plain_change change) }
        ensures made { IfOk result (λ r. IsTurned self.old self.new (plain_change change) r.0
            × IsDealt workers r.0) }
        ensures back { IfOk result (λ r.
            IsInverseChange (plain_change r.1) self.new.state self.old.state) }
        ensures kind { IfOk result (λ r. is_replace (plain_change r.1)
            ≡ is_replace (plain_change change)) }
        ensures stopped { OnErr result (self.new.stopped ≡ true) }
    {
        self.make(rt, workers, edit_in(change), gate)
    }
}
