//! `BOARD ..`: from the texts to the reports, or to the line that stands in their place.

ghost use Rattle.std.specs.Prelude.{◌≡◌, ◌≤◌, ◌⊎◌, false, map, length, All, IfOk, IfErr};
ghost use Rattle.std.specs.Prelude.{Ok, Err};
ghost use Rattle.std.specs.Io.KnownBytes.{Keeps};
ghost use Rattle.plain_types.specs.Limits.{IsInText, IsWorkerCount};
ghost use Rattle.drc_io.specs.FaultCounts.{Rose};
ghost use Rattle.edit_script.specs.Commands.{plain_command};
ghost use Rattle.edit_script.specs.Fits.{Fits};
ghost use Rattle.drc_state.specs.States.{checked_in};
ghost use Rattle.drc_state.specs.Recheck.{IsHeldCount};
ghost use Rattle.run_words.specs.Calls.{check};
ghost use Rattle.run_words.specs.CallValues.{source_in, reading_in, RequestFits};
ghost use Rattle.run_texts.specs.OpenedValues.{opened_in};
ghost use Rattle.run_output.specs.declared.status.Status.{Status};
ghost use Rattle.run_output.specs.declared.breaks.Break.{Break};
ghost use Rattle.run_output.specs.CommandOutputs.{IsTurn};
ghost use Rattle.run_output.specs.RunResults.{IsEditAnswered, IsTurnTaken, IsBroken, AreTaken, AreBroken};
ghost use Rattle.run_output.specs.Output.{IsTold, IsToldSoFar, is_short};
ghost use Rattle.run_output.specs.RunEndings.{Ends, EndsFor};

use drc_io::{Failed, Shelf, Sink};
use drc_session::Session;
use drc_state::EditError;
use edit_script::Command;
use run_output::{
    Break, Status, or_break, session_status, tiles_of, write_refused, write_report, write_stop,
};
use run_reports::Tiles;
use run_texts::{Texts, commands_of, script_text, texts_of};
use run_words::{BoardSource, Request};
use std::alloc::AllocGlobal;
use std::thread::Threads;
use tile_pool::Gate;

/// How commands are carried out and reported: by how many workers, from 1 to 64, and whether reports are short.
#[derive(Clone, Copy)]
struct Way {
    workers: u32,
    short: bool,
}

/// Writes the line of the command of this number, which is refused. Running out of memory is not written.
fn refused<W: Sink>(number: u64, why: EditError, out: &mut W) -> Result<(), Break>
    ensures { IsEditAnswered number why (W.written out.old) (W.written out.new) (W.faults out.old)
        (W.faults out.new) result }
{
    match why {
        EditError::OutOfMemory => Err(Break::OutOfMemory),
        _ => or_break(write_refused(number, &why, out)),
    }
}

/// The turn of a command: it is carried out and the report of the board as it now is is written, or it is refused and its line is
/// written. Where memory runs out, nothing is.
fn turn<R: Threads + Sync + AllocGlobal, W: Sink, G: Gate>(
    rt: &R,
    gate: &G,
    way: Way,
    number: u64,
    command: &Command<'_>,
    session: &mut Session,
    out: &mut W,
) -> Result<(), Break>
    requires workers { IsWorkerCount way.workers }
    requires running { session.old.stopped ≡ false }
    requires fits { Fits (plain_command command.now) }
    ensures taken { IfOk result (λ _. IsTurnTaken (IsTurn way.short) number session.old.state
        (plain_command command.now) session.new.state (W.written out.old) (W.written out.new)) }
    ensures running { IfOk result (λ _. session.new.stopped ≡ false) }
    ensures broken { IfErr result (λ _. Keeps (W.written out.old) (W.written out.new) ⊎ IsBroken
        (IsTurn way.short) number session.old.state (plain_command command.now) (W.written out.old)
        (W.written out.new)) }
    ensures fault { result ≡ Err Break.Unwritten → Rose (W.faults out.old) (W.faults out.new) }
    ensures later { W.faults out.old ≤ W.faults out.new }
{
    match session.apply(rt, way.workers, command, gate) {
        Ok(applied) => or_break(write_report(way.short, number, session, tiles_of(&applied), out)),
        Err(why) => refused(number, why, out),
    }
}

/// The turns of all commands, numbered from 1.
fn turns<R: Threads + Sync + AllocGlobal, W: Sink, G: Gate>(
    rt: &R,
    gate: &G,
    way: Way,
    commands: &[Command<'_>],
    session: &mut Session,
    out: &mut W,
) -> Result<(), Break>
    requires workers { IsWorkerCount way.workers }
    requires running { session.old.stopped ≡ false }
    requires fit { All Fits (map plain_command commands.now) }
    ensures taken { IfOk result (λ _. AreTaken (IsTurn way.short) session.old.state
        (map plain_command commands.now) session.new.state
        (W.written out.old) (W.written out.new)) }
    ensures running { IfOk result (λ _. session.new.stopped ≡ false) }
    ensures broken { IfErr result (λ _. AreBroken (IsTurn way.short) session.old.state
        (map plain_command commands.now) (W.written out.old) (W.written out.new)) }
    ensures fault { result ≡ Err Break.Unwritten → Rose (W.faults out.old) (W.faults out.new) }
{
    let mut number: u64 = 0;
    for command in commands {
        number += 1;
        turn(rt, gate, way, number, command, session, out)?;
    }
    Ok(())
}

/// Writes the report of a session that begins, and then what each command makes of it.
fn go_through<R: Threads + Sync + AllocGlobal, W: Sink, G: Gate>(
    rt: &R,
    gate: &G,
    way: Way,
    session: &mut Session,
    tiles: Tiles,
    commands: &[Command<'_>],
    out: &mut W,
) -> Status
    requires workers { IsWorkerCount way.workers }
    requires running { session.old.stopped ≡ false }
    requires held { IsHeldCount (checked_in session.old.state) tiles.held }
    requires whole { tiles.done ≡ tiles.held }
    requires fit { All Fits (map plain_command commands.now) }
    ensures ends { Ends (IsTold way.short session.old.state (map plain_command commands.now))
        (IsToldSoFar way.short session.old.state (map plain_command commands.now)) (λ _. ⊥)
        (W.written out.old) (W.written out.new) result }
    ensures fault { result ≡ Status.WriteFault → Rose (W.faults out.old) (W.faults out.new) }
{
    match write_report(way.short, 0, session, tiles, out) {
        Ok(()) => {}
        Err(Failed) => return Status::WriteFault,
    }
    match turns(rt, gate, way, commands, session, out) {
        Ok(()) => session_status(session),
        Err(Break::Unwritten) => Status::WriteFault,
        Err(Break::OutOfMemory) => Status::OutOfMemory,
    }
}

/// Checks the board of the texts, carries the commands out, and writes the reports.
fn report<R: Threads + Sync + AllocGlobal, W: Sink, G: Gate>(
    rt: &R,
    gate: &G,
    way: Way,
    texts: Texts,
    commands: &[Command<'_>],
    out: &mut W,
) -> Status
    requires workers { IsWorkerCount way.workers }
    requires few { IsInText (length texts.rules.rules) }
    requires fit { All Fits (map plain_command commands.now) }
    ensures ends { Ends (IsTold way.short (opened_in texts) (map plain_command commands.now))
        (IsToldSoFar way.short (opened_in texts) (map plain_command commands.now)) (λ _. ⊥)
        (W.written out.old) (W.written out.new) result }
    ensures fault { result ≡ Status.WriteFault → Rose (W.faults out.old) (W.faults out.new) }
{
    match Session::begin(
        rt,
        way.workers,
        texts.board,
        texts.classes,
        texts.rules,
        gate,
    ) {
        Ok((mut session, applied)) => {
            let tiles = tiles_of(&applied);
            let status = go_through(rt, gate, way, &mut session, tiles, commands, out);
            session.end(rt, way.workers);
            status
        }
        Err(_) => Status::OutOfMemory,
    }
}

/// By how many workers, and whether in short: a generated board is reported so.
fn way_of(request: Request<'_>) -> Way
    ensures workers { result.workers ≡ request.entry.workers }
    ensures short { result.short ≡ is_short (source_in request.entry.board) }
{
    Way {
        workers: request.workers,
        short: matches!(request.board, BoardSource::Made(_)),
    }
}

/// Does what `BOARD ..` asks for. It fetches and reads the board, and the project, the rules and the script that the request names, in this
/// order. Then it checks the board by so many workers, from 1 to 64, and writes its report. After each command of the script it
/// writes the report of the board as it then is, or the line of the command's refusal.
///
/// Where a text is refused or not read, its line is written and nothing else. The status is that of the board as it is at the end, or
/// says what went wrong. `gate` is called before and after each test of a tile.
pub fn check<R: Threads + Sync + AllocGlobal, F: Shelf, W: Sink, G: Gate>(
    rt: &R,
    gate: &G,
    request: Request<'_>,
    shelf: &mut F,
    out: &mut W,
) -> Status
    requires { RequestFits request }
    ensures ends { EndsFor (check (reading_in request.entry)) (F.files shelf.old)
        (F.faults shelf.old) (F.faults shelf.new) (W.written out.old) (W.written out.new) result }
    ensures fault { result ≡ Status.WriteFault → Rose (W.faults out.old) (W.faults out.new) }
    ensures same { F.files shelf.new ≡ F.files shelf.old }
{
    let alloc = rt.alloc();
    let texts = match texts_of(rt, alloc, request, shelf) {
        Ok(texts) => texts,
        Err(stop) => return write_stop(stop, out),
    };
    let script = match script_text(alloc, request.script, shelf) {
        Ok(script) => script,
        Err(stop) => {
            drop(texts);
            return write_stop(stop, out);
        }
    };
    match commands_of(alloc, request.script, &script) {
        Ok(commands) => report(rt, gate, way_of(request), texts, &commands, out),
        Err(stop) => {
            drop(texts);
            write_stop(stop, out)
        }
    }
}
