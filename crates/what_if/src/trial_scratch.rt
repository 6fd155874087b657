//! A copy of a session on which commands are tried one after another, each turned back before the next.

ghost use Rattle.std.specs.Prelude.{◌≡◌, ◌<◌, false, Ok, IfOk, IfErr};
ghost use Rattle.plain_types.specs.Limits.{IsWorkerCount};
ghost use Rattle.edit_script.specs.Commands.{plain_command};
ghost use Rattle.edit_script.specs.Fits.{Fits};
ghost use Rattle.drc_state.specs.CommandSteps.{Answers};
ghost use Rattle.drc_state.specs.StateChanges.{plain_change, IsInverseChange};
ghost use Rattle.what_if.specs.Trials.{IsCount};
ghost use Rattle.what_if.specs.Tried.{IsRefusedAt};

use crate::error::TrialError;
use crate::here::{is_turned_back, turn_back};
use drc_session::Session;
use drc_state::{Change, EditError};
use edit_script::Command;
use std::alloc::{AllocError, AllocGlobal};
use std::marker::Model;
use std::thread::Threads;
use tile_pool::{Gate, NoGate};

/// A session that is lent and stays as it is, and a copy of it, made where there is need of one and kept from command to command: so many
/// commands cost as many edits, and not as many copies. Contracts see the session that is lent.
#[derive(Drop)]
pub(crate) struct TrialScratch<'a> {
    session: &'a Session,
    copy: Option<Session>,
}

impl<'a> Model for TrialScratch<'a> {
    ghost use Rattle.std.specs.Coded.{codes};
    ghost use Rattle.cond_lang.specs.TreeCode.{coded_tree};
    ghost use Rattle.drc_session.specs.Sessions.{PlainSession};
    ghost use Rattle.what_if.specs.TrialScratches.{IsTrialScratch};

    ghost Value = { PlainSession };

    ghost coded = { Prim.hlevel (codes, coded_tree (Prim.hlevel codes)) };

    ghost view = { λ d. d.session.now };

    ghost invariant = { λ d. IsTrialScratch d.session.now d.copy };
}

impl<'a> TrialScratch<'a> {
    /// A scratch copy for a session that is not stopped. It takes no memory.
    pub(crate) fn new(session: &'a Session) -> TrialScratch<'a>
        requires { session.now.stopped ≡ false }
        ensures { result ≡ session.now }
    {
        TrialScratch {
            session,
            copy: None,
        }
    }

    /// The copy, which is kept no more, or a new one.
    fn take_copy(&mut self) -> Result<Session, AllocError>
        ensures same { self.new ≡ self.old }
        ensures running { IfOk result (λ copy. copy.stopped ≡ false) }
        ensures state { IfOk result (λ copy. copy.state ≡ self.old.state) }
    {
        match self.copy.take() {
            Some(copy) => Ok(copy),
            None => self.session.copy(),
        }
    }

    /// Keeps a copy that is at the state of the session.
    fn keep(&mut self, copy: Session)
        requires running { copy.stopped ≡ false }
        requires state { copy.state ≡ self.old.state }
        ensures same { self.new ≡ self.old }
    {
        drop(self.copy.replace(copy));
    }

    /// The copy once it took the command, and the inverse change.
    fn take<R: Threads + Sync + AllocGlobal, G: Gate>(
        &mut self,
        rt: &R,
        workers: u32,
        command: &Command<'_>,
        gate: &G,
    ) -> Result<(Session, Change), TrialError>
        requires workers { IsWorkerCount workers }
        requires fits { Fits (plain_command command.now) }
        ensures same { self.new ≡ self.old }
        ensures running { IfOk result (λ r. r.0.stopped ≡ false) }
        ensures answer { IfOk result (λ r.
            Answers self.old.state (plain_command command.now) (Ok r.0.state)) }
        ensures back { IfOk result (λ r.
            IsInverseChange (plain_change r.1) r.0.state self.old.state) }
        ensures refused { IfErr result (IsRefusedAt self.old.state (plain_command command.now) 0) }
    {
        let mut copy = self.take_copy()?;
        match copy.apply_kept(rt, workers, command, gate) {
            Ok((applied, back)) => {
                drop(applied);
                Ok((copy, back))
            }
            Err(EditError::OutOfMemory) => {
                drop(copy);
                Err(TrialError::OutOfMemory)
            }
            Err(inner) => {
                self.keep(copy);
                Err(TrialError::Refused { step: 0, inner })
            }
        }
    }

    /// Turns a copy that took the command back to where it was, and keeps it, or throws it away, as it does where memory runs out.
    fn turn_back<R: Threads + Sync + AllocGlobal>(
        &mut self,
        rt: &R,
        workers: u32,
        command: &Command<'_>,
        mut copy: Session,
        back: Change,
    )
        requires workers { IsWorkerCount workers }
        requires running { copy.stopped ≡ false }
        requires answer { Answers self.old.state (plain_command command.now) (Ok copy.state) }
        requires back { IsInverseChange (plain_change back) copy.state self.old.state }
        ensures same { self.new ≡ self.old }
    {
        if !is_turned_back(command) {
            drop(back);
            drop(copy);
            return;
        }
        match turn_back(&mut copy, rt, workers, back) {
            Ok(()) => self.keep(copy),
            Err(_) => drop(copy),
        }
    }

    /// How many rows there are after the command alone, which one worker carries out, or none where it is refused. Only running out of
    /// memory refuses the call.
    pub(crate) fn count<R: Threads + Sync + AllocGlobal>(
        &mut self,
        rt: &R,
        command: &Command<'_>,
    ) -> Result<Option<u64>, AllocError>
        requires fits { Fits (plain_command command.now) }
        ensures same { self.new ≡ self.old }
        ensures count { IfOk result (IsCount self.old.state (plain_command command.now)) }
    {
        match self.take(rt, 1, command, &NoGate) {
            Ok((copy, back)) => {
                let count = copy.rows().len() as u64;
                self.turn_back(rt, 1, command, copy, back);
                Ok(Some(count))
            }
            Err(TrialError::Refused { .. }) => Ok(None),
            Err(TrialError::OutOfMemory) => Err(AllocError),
        }
    }
}
