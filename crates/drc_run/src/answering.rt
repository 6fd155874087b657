//! The program as a function of a whole command line.

ghost use Rattle.std.specs.Prelude.{◌≡◌, IfOk, OnErr, MatchResult};
ghost use Rattle.std.specs.Process.{exit_status};
ghost use Rattle.run_words.specs.Calls.{words_of};
ghost use Rattle.drc_run.specs.CommandLine.{call_of_line, words_after_name};
ghost use Rattle.run_output.specs.RunEndings.{Promises};

use crate::run_all;
use drc_io::{Shelf, Sink};
use run_output::Status;
use std::alloc::{AllocError, Global};
use std::process::ExitCode;
use std::thread::Threads;
use tile_pool::Gate;

/// The words behind the program's name.
fn words_of(alloc: Global, line: &[String]) -> Result<Vec<&str>, AllocError>
    ensures { IfOk result (λ words. words_of words.items ≡ words_after_name line.now) }
{
    line.iter().skip(1).map(|word| word.as_str()).collect(alloc)
}

/// Runs the program on a line and says with which status it ends.
fn status_for<R: Threads + Sync + AllocGlobal, F: Shelf, W: Sink, G: Gate>(
    rt: &R,
    line: &[String],
    shelf: &mut F,
    out: &mut W,
    gate: &G,
) -> u8
    ensures promises { Promises (call_of_line line.now)
        (F.files shelf.old) (F.faults shelf.old) (F.faults shelf.new)
        (W.written out.old) (W.written out.new) (W.faults out.old) (W.faults out.new) result }
    ensures same { F.files shelf.new ≡ F.files shelf.old }
{
    match words_of(rt.alloc(), line) {
        Ok(words) => run_all(rt, &words, shelf, out, gate),
        Err(_) => Status::OutOfMemory as u8,
    }
}

/// Does what a command line asks for, which begins with the program's name, and gives the exit code. It is the status
/// of [`run_all`] for the words behind the name, and 6 where memory had no room for the line.
pub fn answer<R: Threads + Sync + AllocGlobal, F: Shelf, W: Sink, G: Gate>(
    rt: &R,
    line: Result<Vec<String>, AllocError>,
    shelf: &mut F,
    out: &mut W,
    gate: &G,
) -> ExitCode
    // What was written, and that each fault has its cause.
    ensures promises { MatchResult line
        (λ words. Promises (call_of_line words.items)
        (F.files shelf.old) (F.faults shelf.old) (F.faults shelf.new)
        (W.written out.old) (W.written out.new) (W.faults out.old) (W.faults out.new)
        (exit_status result))
        (λ _. exit_status result ≡ 6) }
    // Without a line nothing is read or written.
    ensures untouched { OnErr line ((shelf.new ≡ shelf.old) × (out.new ≡ out.old)) }
    // The files stay as they were.
    ensures same { F.files shelf.new ≡ F.files shelf.old }
{
    let status = match line {
        Ok(line) => status_for(rt, &line, shelf, out, gate),
        Err(_) => Status::OutOfMemory as u8,
    };
    ExitCode::from(status)
}
