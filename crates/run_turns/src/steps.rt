//! `undo BOARD SCRIPT`: from a board and a script of steps to the reports, or to the line that stands in their place.

ghost use Rattle.std.specs.Prelude.{◌≡◌, ◌≤◌, false, length, map, All, IfOk, IfErr, Err};
ghost use Rattle.plain_types.specs.Limits.{IsInText};
ghost use Rattle.drc_io.specs.FaultCounts.{Rose};
ghost use Rattle.edit_script.specs.Commands.{plain_step};
ghost use Rattle.edit_script.specs.Fits.{StepFits};
ghost use Rattle.drc_state.specs.States.{checked_in};
ghost use Rattle.drc_state.specs.Recheck.{IsHeldCount};
ghost use Rattle.undo_log.specs.Past.{Past, begun};
ghost use Rattle.undo_log.specs.HistoryCalls.{IsHistoryStepTaken, IsStepRefused};
ghost use Rattle.undo_log.specs.Ways.{IsPastOf};
ghost use Rattle.run_words.specs.Calls.{undo};
ghost use Rattle.run_texts.specs.OpenedValues.{opened_in};
ghost use Rattle.run_output.specs.declared.status.Status.{Status};
ghost use Rattle.run_output.specs.declared.breaks.Break.{Break};
ghost use Rattle.run_output.specs.CommandOutputs.{IsStepTurn};
ghost use Rattle.run_output.specs.RunResults.{IsStepAnswered, IsStepTaken, IsStepBroken, AreTaken, AreBroken};
ghost use Rattle.run_output.specs.Output.{AreStepsTold, AreStepsToldSoFar};
ghost use Rattle.run_output.specs.RunEndings.{Ends, EndsFor};

use drc_io::{Failed, Shelf, Sink};
use drc_session::{Applied, Session};
use edit_script::Step;
use run_output::{
    Break, Status, or_break, session_status, tiles_of, write_refused_step, write_report, write_stop,
};
use run_reports::Tiles;
use run_texts::{Texts, Which, scripted_texts, steps_in};
use run_words::Scripted;
use std::alloc::AllocGlobal;
use std::thread::Threads;
use tile_pool::Gate;
use undo_log::{History, HistoryError};

/// By how many workers the tiles that a step affects are gone through.
const WORKERS: u32 = 1;

/// Takes the step.
fn take<R: Threads + Sync + AllocGlobal, G: Gate>(
    rt: &R,
    gate: &G,
    step: &Step<'_>,
    history: &mut History,
) -> Result<Applied, HistoryError>
    requires fits { StepFits (plain_step step.now) }
    ensures taken { IfOk result (IsHistoryStepTaken history.old history.new (plain_step step.now)) }
    ensures refused { IfErr result (IsStepRefused history.old history.new (plain_step step.now)) }
{
    match step {
        Step::Edit(command) => history.apply(rt, WORKERS, command, gate),
        Step::Undo { .. } => history.undo(rt, WORKERS, gate),
        Step::Redo { .. } => history.redo(rt, WORKERS, gate),
    }
}

/// Writes the line of the step of this number, which is refused. Running out of memory is not written.
fn refused<W: Sink>(number: u64, why: HistoryError, out: &mut W) -> Result<(), Break>
    ensures { IsStepAnswered number why (W.written out.old) (W.written out.new) (W.faults out.old)
        (W.faults out.new) result }
{
    match why {
        HistoryError::OutOfMemory => Err(Break::OutOfMemory),
        _ => or_break(write_refused_step(number, &why, out)),
    }
}

/// The turn of a step: it is taken and the report of the board as it now is is written, or it is refused and its line is written. Where
/// memory runs out, nothing is.
fn step<R: Threads + Sync + AllocGlobal, W: Sink, G: Gate>(
    rt: &R,
    gate: &G,
    number: u64,
    step: &Step<'_>,
    history: &mut History,
    out: &mut W,
) -> Result<(), Break>
    requires running { history.old.stopped ≡ false }
    requires fits { StepFits (plain_step step.now) }
    ensures taken { IfOk result (λ _. IsStepTaken number history.old (plain_step step.now)
        history.new (W.written out.old) (W.written out.new)) }
    ensures running { IfOk result (λ _. history.new.stopped ≡ false) }
    ensures broken { IfErr result (λ _. IsStepBroken number history.old (plain_step step.now)
        (W.written out.old) (W.written out.new)) }
    ensures fault { result ≡ Err Break.Unwritten → Rose (W.faults out.old) (W.faults out.new) }
    ensures later { W.faults out.old ≤ W.faults out.new }
{
    match take(rt, gate, step, history) {
        Ok(applied) => or_break(write_report(
            false,
            number,
            history.session(),
            tiles_of(&applied),
            out,
        )),
        Err(why) => refused(number, why, out),
    }
}

/// The turns of all steps, numbered from 1.
fn steps<R: Threads + Sync + AllocGlobal, W: Sink, G: Gate>(
    rt: &R,
    gate: &G,
    steps: &[Step<'_>],
    history: &mut History,
    out: &mut W,
) -> Result<(), Break>
    requires running { history.old.stopped ≡ false }
    requires fit { All StepFits (map plain_step steps.now) }
    ensures taken { IfOk result (λ _. (past : Past) → IsPastOf history.old past → (last : Past) ×
        IsPastOf history.new last × AreTaken IsStepTurn past (map plain_step steps.now) last
        (W.written out.old) (W.written out.new)) }
    ensures running { IfOk result (λ _. history.new.stopped ≡ false) }
    ensures broken { IfErr result (λ _. (past : Past) → IsPastOf history.old past → AreBroken
        IsStepTurn past (map plain_step steps.now) (W.written out.old) (W.written out.new)) }
    ensures fault { result ≡ Err Break.Unwritten → Rose (W.faults out.old) (W.faults out.new) }
{
    let mut number: u64 = 0;
    for one in steps {
        number += 1;
        step(rt, gate, number, one, history, out)?;
    }
    Ok(())
}

/// Writes the report of a history that begins, and then what each step makes of it.
fn go_through<R: Threads + Sync + AllocGlobal, W: Sink, G: Gate>(
    rt: &R,
    gate: &G,
    history: &mut History,
    tiles: Tiles,
    all: &[Step<'_>],
    out: &mut W,
) -> Status
    requires running { history.old.stopped ≡ false }
    requires begun { IsPastOf history.old (begun history.old.session.state) }
    requires held { IsHeldCount (checked_in history.old.session.state) tiles.held }
    requires whole { tiles.done ≡ tiles.held }
    requires fit { All StepFits (map plain_step all.now) }
    ensures ends { Ends (AreStepsTold history.old.session.state (map plain_step all.now))
        (AreStepsToldSoFar history.old.session.state (map plain_step all.now)) (λ _. ⊥)
        (W.written out.old) (W.written out.new) result }
    ensures fault { result ≡ Status.WriteFault → Rose (W.faults out.old) (W.faults out.new) }
{
    match write_report(false, 0, history.session(), tiles, out) {
        Ok(()) => {}
        Err(Failed) => return Status::WriteFault,
    }
    match steps(rt, gate, all, history, out) {
        Ok(()) => session_status(history.session()),
        Err(Break::Unwritten) => Status::WriteFault,
        Err(Break::OutOfMemory) => Status::OutOfMemory,
    }
}

/// Checks the board of the texts, takes the steps, and writes the reports.
fn report<R: Threads + Sync + AllocGlobal, W: Sink, G: Gate>(
    rt: &R,
    gate: &G,
    texts: Texts,
    all: &[Step<'_>],
    out: &mut W,
) -> Status
    requires few { IsInText (length texts.rules.rules) }
    requires fit { All StepFits (map plain_step all.now) }
    ensures ends { Ends (AreStepsTold (opened_in texts) (map plain_step all.now))
        (AreStepsToldSoFar (opened_in texts) (map plain_step all.now)) (λ _. ⊥) (W.written out.old)
        (W.written out.new) result }
    ensures fault { result ≡ Status.WriteFault → Rose (W.faults out.old) (W.faults out.new) }
{
    match Session::begin(rt, WORKERS, texts.board, texts.classes, texts.rules, gate) {
        Ok((session, applied)) => {
            let tiles = tiles_of(&applied);
            let mut history = History::begin(rt.alloc(), session);
            let status = go_through(rt, gate, &mut history, tiles, all, out);
            drop(history);
            status
        }
        Err(_) => Status::OutOfMemory,
    }
}

/// Does what `undo BOARD SCRIPT` asks for. It fetches and reads the board and then the script of steps, checks the board, and writes
/// its report. After each step, which is a command, an undo or a redo, it writes the report of the board as it then is, or the line of the
/// step's refusal. One worker does all of it.
///
/// Where a text is refused or not read, its line is written and nothing else. The status is that of the board as it is at the end, or
/// says what went wrong. `gate` is called before and after each test of a tile.
pub fn undo<R: Threads + Sync + AllocGlobal, F: Shelf, W: Sink, G: Gate>(
    rt: &R,
    gate: &G,
    files: Scripted<'_>,
    shelf: &mut F,
    out: &mut W,
) -> Status
    ensures ends { EndsFor (undo files.entry.board.now files.entry.script.now) (F.files shelf.old)
        (F.faults shelf.old) (F.faults shelf.new) (W.written out.old) (W.written out.new) result }
    ensures fault { result ≡ Status.WriteFault → Rose (W.faults out.old) (W.faults out.new) }
    ensures same { F.files shelf.new ≡ F.files shelf.old }
{
    let alloc = rt.alloc();
    let (texts, script) = match scripted_texts(rt, alloc, Which::Steps, files, shelf) {
        Ok(texts) => texts,
        Err(stop) => return write_stop(stop, out),
    };
    match steps_in(alloc, &script) {
        Ok(all) => report(rt, gate, texts, &all, out),
        Err(stop) => {
            drop(texts);
            write_stop(stop, out)
        }
    }
}
