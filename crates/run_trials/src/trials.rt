//! `try BOARD SCRIPT N`: what each command of a script would do alone, and which of them leaves the fewest rows.

ghost use Rattle.std.specs.Prelude.{◌≡◌, ◌≤◌, ◌<◌, ◌⊎◌, ◌++◌, ◌+◌, ◌||◌, List, [], Option, Some, Ok, Err, codes, decimal, false, map, length, vec_capacity, All, OnOk, OnErr, IfOk, IfSome, MatchResult, slice_get};
ghost use Rattle.std.specs.List.{AllZip};
ghost use Rattle.plain_types.specs.Limits.{IsInText, most_trials};
ghost use Rattle.std.specs.Io.KnownBytes.{Keeps};
ghost use Rattle.drc_io.specs.FaultCounts.{Rose};
ghost use Rattle.drc_io.specs.Sinks.{Wrote};
ghost use Rattle.edit_script.specs.Commands.{PlainCommand, plain_command};
ghost use Rattle.edit_script.specs.Fits.{Fits};
ghost use Rattle.pair_check.specs.Rows.{IsRow, AreRows};
ghost use Rattle.drc_state.specs.States.{State, checked_in};
ghost use Rattle.what_if.specs.Trials.{IsCount, IsLeast, IsSurvey};
ghost use Rattle.run_words.specs.Calls.{try};
ghost use Rattle.run_texts.specs.OpenedValues.{opened_in};
ghost use Rattle.run_output.specs.declared.status.Status.{Status};
ghost use Rattle.run_output.specs.declared.breaks.Break.{Break};
ghost use Rattle.run_output.specs.CommandOutputs.{IsTrial};
ghost use Rattle.run_output.specs.Output.{AreTrialsTold};
ghost use Rattle.run_trials.specs.TrialResults.{IsTrialContext, trial_result_text};
ghost use Rattle.run_output.specs.RunResults.{IsTurnTaken, IsBroken, AreTaken, AreBroken, IsLeastWritten, AreTrialsToldSoFar};
ghost use Rattle.run_output.specs.RunEndings.{Ends, EndsFor, trials_status};

use crate::marked_rows::push_some;
use crate::trial_results::{TrialContext, TrialResult, trial_result_of};
use drc_io::{Failed, Shelf, Sink, put_all};
use drc_rows::{ReportBuffer, push_line, write_pieces};
use drc_session::Session;
use edit_script::Command;
use itoa::Buffer;
use row_check::Row;
use run_output::{Break, Status, after, write_refused_trial, write_stop};
use run_texts::{Texts, Which, scripted_texts, trials_in};
use run_words::Scripted;
use std::alloc::{AllocError, AllocGlobal, Global};
use std::thread::Threads;
use tile_pool::Gate;
use what_if::{Survey, TrialError, survey, survey_of};

/// Writes what a command would do: the rows that would go, those that would come, and how many there would be. It goes
/// out in as few writes as its length asks for.
fn write_trial_result<W: Sink>(
    number: u64,
    session: &Session,
    trial_result: &TrialResult,
    out: &mut W,
) -> Result<(), Failed>
    requires running { session.now.stopped ≡ false }
    requires gone { All (IsRow (checked_in session.now.state)) trial_result.now.gone.items }
    ensures { Wrote W.written W.faults out.old out.new
        (trial_result_text number session.now.state trial_result.now) result }
{
    let gone = trial_result.gone.as_slice();
    let lines = trial_result.lines.as_slice();
    let mut buffer = ReportBuffer::new();
    push_line(&mut buffer, out, b"trial ", number, b"")?;
    push_some(&mut buffer, out, b"- ", session, gone)?;
    buffer.push(out, lines)?;
    push_line(&mut buffer, out, b"rows ", trial_result.count, b"")?;
    buffer.end(out)
}

/// Whether one of the two holds.
fn either(before: bool, now: bool) -> bool
    ensures { result ≡ before || now }
{
    before || now
}

/// What became of the text of a trial, and how many rows there would be.
fn counted(written: Result<(), Failed>, count: Option<u64>) -> Result<Option<u64>, Break>
    ensures { MatchResult written (λ _. result ≡ Ok count) (λ _. result ≡ Err Break.Unwritten) }
{
    match written {
        Ok(()) => Ok(count),
        Err(Failed) => Err(Break::Unwritten),
    }
}

/// A command and its number, from 1.
#[derive(Clone, Copy)]
struct Numbered<'a> {
    number: u64,
    command: &'a Command<'a>,
}

/// The turn of a command: it is tried alone, and what it would do is written, or it is refused and its line is written. Where memory runs
/// out, nothing is. It gives how many rows there would be, and `comes` says whether a row would come by this command or by one before it.
fn turn<R: Threads + Sync + AllocGlobal, W: Sink, G: Gate>(
    rt: &R,
    gate: &G,
    trial_context: TrialContext<'_>,
    numbered: Numbered<'_>,
    session: &mut Session,
    comes: &mut bool,
    out: &mut W,
) -> Result<Option<u64>, Break>
    requires trial_context { IsTrialContext session.old trial_context }
    requires fits { Fits (plain_command numbered.command.now) }
    ensures trial_context { OnOk result (IsTrialContext session.new trial_context.entry) }
    ensures same { OnOk result (session.new.state ≡ session.old.state) }
    ensures taken { OnOk result (IsTurnTaken (IsTrial session.old.state) numbered.entry.number
        comes.old (plain_command numbered.entry.command.now) comes.new (W.written out.old)
        (W.written out.new)) }
    ensures count { IfOk result (IsCount session.old.state
        (plain_command numbered.entry.command.now)) }
    ensures broken { OnErr result (Keeps (W.written out.old) (W.written out.new) ⊎ IsBroken
        (IsTrial session.old.state) numbered.entry.number comes.old
        (plain_command numbered.entry.command.now) (W.written out.old) (W.written out.new)) }
    ensures fault { result ≡ Err Break.Unwritten → Rose (W.faults out.old) (W.faults out.new) }
    ensures later { W.faults out.old ≤ W.faults out.new }
{
    let Numbered { number, command } = numbered;
    match trial_result_of(rt, gate, trial_context, command, session) {
        Ok(trial_result) => {
            *comes = either(*comes, trial_result.comes);
            let written = write_trial_result(number, session, &trial_result, out);
            counted(written, Some(trial_result.count))
        }
        Err(TrialError::Refused { inner, .. }) => {
            counted(write_refused_trial(number, &inner, out), None)
        }
        Err(TrialError::OutOfMemory) => Err(Break::OutOfMemory),
    }
}

/// The turns of all commands, numbered from 1, whether a row would come by one of them, and how many rows there would be after each.
fn turns<R: Threads + Sync + AllocGlobal, W: Sink, G: Gate>(
    rt: &R,
    gate: &G,
    trial_context: TrialContext<'_>,
    commands: &[Command<'_>],
    session: &mut Session,
    counts: &mut Vec<Option<u64>>,
    out: &mut W,
) -> Result<bool, Break>
    requires trial_context { IsTrialContext session.old trial_context }
    requires fit { All Fits (map plain_command commands.now) }
    requires none { counts.old.items ≡ [] }
    requires room { length commands.now ≤ vec_capacity counts.old }
    ensures taken { IfOk result (λ comes. AreTaken (IsTrial session.old.state) false
        (map plain_command commands.now) comes (W.written out.old) (W.written out.new)) }
    ensures counts { OnOk result (AllZip (IsCount session.old.state)
        (map plain_command commands.now) counts.new.items) }
    ensures broken { OnErr result (AreBroken (IsTrial session.old.state) false
        (map plain_command commands.now) (W.written out.old) (W.written out.new)) }
    ensures fault { result ≡ Err Break.Unwritten → Rose (W.faults out.old) (W.faults out.new) }
    ensures later { W.faults out.old ≤ W.faults out.new }
{
    let mut number: u64 = 0;
    let mut comes = false;
    for command in commands {
        number += 1;
        let count = turn(
            rt,
            gate,
            trial_context,
            Numbered { number, command },
            session,
            &mut comes,
            out,
        )?;
        counts.push_reserved(count);
    }
    Ok(comes)
}

/// The survey of the commands by workers, each on a copy of its own. One worker has none: the trials that are written tell it the counts.
fn surveyed<R: Threads + Sync + AllocGlobal, G: Gate>(
    rt: &R,
    gate: &G,
    session: &Session,
    workers: u32,
    commands: &[Command<'_>],
) -> Result<Option<Survey>, AllocError>
    requires workers { (1 ≤ workers) × (workers ≤ 8) }
    requires running { session.now.stopped ≡ false }
    requires few { length commands.now ≤ most_trials }
    requires fit { All Fits (map plain_command commands.now) }
    ensures { IfOk result (λ found. IfSome found (λ s. IsSurvey session.now.state
        (map plain_command commands.now) s.counts.items s.least)) }
{
    if workers == 1 {
        return Ok(None);
    }
    let found = survey(session, rt, workers, commands, gate)?;
    Ok(Some(found))
}

/// The survey of the workers, or else that of the counts.
fn survey_by(found: Option<Survey>, counts: Vec<Option<u64>>) -> Survey
    requires { length counts.items ≤ most_trials }
    ensures { (s : State) (commands : List PlainCommand) → IfSome found
        (λ x. IsSurvey s commands x.counts.items x.least) → AllZip (IsCount s) commands counts.items
        → IsSurvey s commands result.counts.items result.least }
{
    match found {
        Some(found) => found,
        None => survey_of(counts),
    }
}

/// The count of the place, which has one.
fn count_at(counts: &[Option<u64>], place: u32) -> u64
    requires { IsLeast counts.now (Some place) }
    ensures { slice_get counts.now place ≡ Some (Some result) }
{
    match counts[place as usize] {
        Some(count) => count,
        None => 0,
    }
}

/// Writes `least PLACE with COUNT rows`, the place counted from 1.
fn write_place<W: Sink>(place: u32, count: u64, out: &mut W) -> Result<(), Failed>
    ensures { Wrote W.written W.faults out.old out.new
        (codes "least " ++ decimal (place + 1) ++ codes " with " ++ decimal count
        ++ codes " rows\n")
        result }
{
    let mut place_digits = Buffer::new();
    let mut count_digits = Buffer::new();
    write_pieces(
        &[
            b"least ",
            place_digits.format(place as u64 + 1).as_bytes(),
            b" with ",
            count_digits.format(count).as_bytes(),
            b" rows\n",
        ],
        out,
    )
}

/// Writes which of the commands leaves the fewest rows, the first of them, or that none is carried out.
fn write_least<W: Sink>(survey: &Survey, out: &mut W) -> Result<(), Failed>
    requires { IsLeast survey.now.counts.items survey.now.least }
    ensures { IsLeastWritten survey.now.counts.items survey.now.least (W.written out.old)
        (W.written out.new) (W.faults out.old) (W.faults out.new) result }
{
    match survey.least {
        Some(place) => write_place(place, count_at(&survey.counts, place), out),
        None => put_all(out, b"least none\n"),
    }
}

/// The status of trials: whether a row would come.
fn status_of(comes: bool) -> Status
    ensures { result ≡ trials_status comes }
{
    if comes { Status::Rows } else { Status::Clean }
}

/// Tries each command alone, and writes what it would do and which of them leaves the fewest rows.
fn go_through<R: Threads + Sync + AllocGlobal, W: Sink, G: Gate>(
    rt: &R,
    gate: &G,
    trial_context: TrialContext<'_>,
    session: &mut Session,
    commands: &[Command<'_>],
    out: &mut W,
) -> Status
    requires trial_context { IsTrialContext session.old trial_context }
    requires fit { All Fits (map plain_command commands.now) }
    requires few { length commands.now ≤ most_trials }
    ensures ends { Ends (AreTrialsTold session.old.state (map plain_command commands.now))
        (AreTrialsToldSoFar session.old.state (map plain_command commands.now)) (λ _. ⊥)
        (W.written out.old) (W.written out.new) result }
    ensures fault { result ≡ Status.WriteFault → Rose (W.faults out.old) (W.faults out.new) }
{
    let found = match surveyed(rt, gate, session, trial_context.workers, commands) {
        Ok(found) => found,
        Err(_) => return Status::OutOfMemory,
    };
    let mut counts = match Vec::with_capacity(rt.alloc(), commands.len()) {
        Ok(counts) => counts,
        Err(_) => return Status::OutOfMemory,
    };
    match turns(rt, gate, trial_context, commands, session, &mut counts, out) {
        Ok(comes) => after(
            write_least(&survey_by(found, counts), out),
            status_of(comes),
        ),
        Err(Break::Unwritten) => Status::WriteFault,
        Err(Break::OutOfMemory) => Status::OutOfMemory,
    }
}

/// The rows of a session that is not stopped, to be kept while it is edited.
fn kept_rows(alloc: Global, session: &Session) -> Result<Vec<Row>, AllocError>
    requires { session.now.stopped ≡ false }
    ensures { IfOk result (λ rows. AreRows (checked_in session.now.state) rows.items) }
{
    Vec::from_slice(alloc, session.rows())
}

/// Tries each command on a session that begins, and writes what they would do.
fn tried<R: Threads + Sync + AllocGlobal, W: Sink, G: Gate>(
    rt: &R,
    gate: &G,
    workers: u32,
    session: &mut Session,
    commands: &[Command<'_>],
    out: &mut W,
) -> Status
    requires workers { (1 ≤ workers) × (workers ≤ 8) }
    requires running { session.old.stopped ≡ false }
    requires fit { All Fits (map plain_command commands.now) }
    requires few { length commands.now ≤ most_trials }
    ensures ends { Ends (AreTrialsTold session.old.state (map plain_command commands.now))
        (AreTrialsToldSoFar session.old.state (map plain_command commands.now)) (λ _. ⊥)
        (W.written out.old) (W.written out.new) result }
    ensures fault { result ≡ Status.WriteFault → Rose (W.faults out.old) (W.faults out.new) }
{
    let before = match kept_rows(rt.alloc(), session) {
        Ok(rows) => rows,
        Err(_) => return Status::OutOfMemory,
    };
    let trial_context = TrialContext {
        before: &before,
        workers,
    };
    go_through(rt, gate, trial_context, session, commands, out)
}

/// Checks the board of the texts, tries each command on it, and writes what they would do.
fn report<R: Threads + Sync + AllocGlobal, W: Sink, G: Gate>(
    rt: &R,
    gate: &G,
    workers: u32,
    texts: Texts,
    commands: &[Command<'_>],
    out: &mut W,
) -> Status
    requires workers { (1 ≤ workers) × (workers ≤ 8) }
    requires rules { IsInText (length texts.rules.rules) }
    requires fit { All Fits (map plain_command commands.now) }
    requires few { length commands.now ≤ most_trials }
    ensures ends { Ends (AreTrialsTold (opened_in texts) (map plain_command commands.now))
        (AreTrialsToldSoFar (opened_in texts) (map plain_command commands.now)) (λ _. ⊥)
        (W.written out.old) (W.written out.new) result }
    ensures fault { result ≡ Status.WriteFault → Rose (W.faults out.old) (W.faults out.new) }
{
    match Session::begin(rt, workers, texts.board, texts.classes, texts.rules, gate) {
        Ok((mut session, applied)) => {
            drop(applied);
            let status = tried(rt, gate, workers, &mut session, commands, out);
            drop(session);
            status
        }
        Err(_) => Status::OutOfMemory,
    }
}

/// Does what `try BOARD SCRIPT N` asks for. It fetches and reads the board and then the script. Then it tries each command alone on the
/// board as its file has it, by so many workers, from 1 to 8, and writes the rows that would go and come, or the line of the command's
/// refusal. At the end it writes which command leaves the fewest rows.
///
/// Where a text is refused or not read, its line is written and nothing else. The status is 1 where a row would come by a command, and
/// 0 where none would, or says what went wrong. `gate` is called before and after each test of a tile.
pub fn try_each<R: Threads + Sync + AllocGlobal, F: Shelf, W: Sink, G: Gate>(
    rt: &R,
    gate: &G,
    files: Scripted<'_>,
    workers: u32,
    shelf: &mut F,
    out: &mut W,
) -> Status
    requires { (1 ≤ workers) × (workers ≤ 8) }
    ensures ends { EndsFor (try files.entry.board.now files.entry.script.now workers)
        (F.files shelf.old) (F.faults shelf.old) (F.faults shelf.new) (W.written out.old)
        (W.written out.new) result }
    ensures fault { result ≡ Status.WriteFault → Rose (W.faults out.old) (W.faults out.new) }
    ensures same { F.files shelf.new ≡ F.files shelf.old }
{
    let alloc = rt.alloc();
    let (texts, script) = match scripted_texts(rt, alloc, Which::Trials, files, shelf) {
        Ok(texts) => texts,
        Err(stop) => return write_stop(stop, out),
    };
    match trials_in(alloc, &script) {
        Ok(commands) => report(rt, gate, workers, texts, &commands, out),
        Err(stop) => {
            drop(texts);
            write_stop(stop, out)
        }
    }
}
