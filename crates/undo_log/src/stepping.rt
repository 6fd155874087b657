//! Steps of a history.

ghost use Rattle.std.specs.Prelude.{◌≡◌, ◌<◌, ◌↔◌, ℕ, false, [], IfOk, IfErr, Err};
ghost use Rattle.plain_types.specs.Limits.{IsWorkerCount};
ghost use Rattle.edit_script.specs.Commands.{plain_command, edit, undo, redo};
ghost use Rattle.edit_script.specs.Fits.{Fits};
ghost use Rattle.drc_session.specs.Sessions.{IsDealt};
ghost use Rattle.undo_log.specs.declared.error.HistoryError.TheVariants.{NothingToUndo, NothingToRedo};
ghost use Rattle.undo_log.specs.HistoryCalls.{IsHistoryStepTaken, IsStepRefused};

use crate::error::HistoryError;
use crate::history::History;
use crate::keeping::{carry_out, switch};
use crate::laws::{one_redo, one_undo};
use drc_session::Applied;
use drc_state::EditError;
use edit_script::Command;
use std::alloc::AllocGlobal;
use std::thread::Threads;
use tile_pool::Gate;

impl History {
    /// Carries the command out, or says why it is not carried out. What was undone before is forgotten, but for a report again, which is
    /// no step. The tiles that it affects are dealt to so many workers, from 1 to 64. After each refusal but running out of memory all is
    /// as it was. After running out of memory the history is stopped, and its session is stopped or as it was.
    pub fn apply<R: Threads + Sync + AllocGlobal, G: Gate>(
        &mut self,
        rt: &R,
        workers: u32,
        command: &Command<'_>,
        gate: &G,
    ) -> Result<Applied, HistoryError>
        requires workers { IsWorkerCount workers }
        requires fits { Fits (plain_command command.now) }
        ensures taken { IfOk result (λ applied.
            IsHistoryStepTaken self.old self.new (edit (plain_command command.now)) applied
            × IsDealt workers applied) }
        ensures refused { IfErr result
            (IsStepRefused self.old self.new (edit (plain_command command.now))) }
    {
        if self.stopped {
            return Err(HistoryError::Stopped);
        }
        match carry_out(
            rt,
            workers,
            &mut self.session,
            &mut self.back,
            &mut self.on,
            command,
            gate,
        ) {
            Ok(applied) => Ok(applied),
            Err(EditError::OutOfMemory) => {
                self.stopped = true;
                Err(HistoryError::OutOfMemory)
            }
            Err(why) => Err(HistoryError::Edit(why)),
        }
    }

    /// Goes back by one step, or says that there is none, or that memory ran out. `NothingToUndo` says exactly that there is nothing to
    /// undo. After running out of memory the history is stopped, and its session is stopped or as it was.
    pub fn undo<R: Threads + Sync + AllocGlobal, G: Gate>(
        &mut self,
        rt: &R,
        workers: u32,
        gate: &G,
    ) -> Result<Applied, HistoryError>
        requires workers { IsWorkerCount workers }
        ensures taken { (at : ℕ)
            → IfOk result (λ applied. IsHistoryStepTaken self.old self.new (undo at) applied
            × IsDealt workers applied) }
        ensures refused { (at : ℕ) → IfErr result (IsStepRefused self.old self.new (undo at)) }
        ensures none { (result ≡ Err NothingToUndo) ↔
            ((self.old.stopped ≡ false) × (self.old.back ≡ [])) }
    {
        one_undo();
        if self.stopped {
            return Err(HistoryError::Stopped);
        }
        if self.back.is_empty() {
            return Err(HistoryError::NothingToUndo);
        }
        self.stopped = true;
        let applied = switch(
            rt,
            workers,
            &mut self.session,
            &mut self.back,
            &mut self.on,
            gate,
        )?;
        self.stopped = false;
        Ok(applied)
    }

    /// Goes on by one step that was undone, or says that there is none, or that memory ran out. `NothingToRedo` says exactly that
    /// nothing leads on. After running out of memory the history is stopped, and its session is stopped or as it was.
    pub fn redo<R: Threads + Sync + AllocGlobal, G: Gate>(
        &mut self,
        rt: &R,
        workers: u32,
        gate: &G,
    ) -> Result<Applied, HistoryError>
        requires workers { IsWorkerCount workers }
        ensures taken { (at : ℕ)
            → IfOk result (λ applied. IsHistoryStepTaken self.old self.new (redo at) applied
            × IsDealt workers applied) }
        ensures refused { (at : ℕ) → IfErr result (IsStepRefused self.old self.new (redo at)) }
        ensures none { (result ≡ Err NothingToRedo) ↔
            ((self.old.stopped ≡ false) × (self.old.on ≡ [])) }
    {
        one_redo();
        if self.stopped {
            return Err(HistoryError::Stopped);
        }
        if self.on.is_empty() {
            return Err(HistoryError::NothingToRedo);
        }
        self.stopped = true;
        let applied = switch(
            rt,
            workers,
            &mut self.session,
            &mut self.on,
            &mut self.back,
            gate,
        )?;
        self.stopped = false;
        Ok(applied)
    }
}
