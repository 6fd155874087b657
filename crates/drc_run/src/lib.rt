//! The program as a function of its words, its files and its sink.
#![tactic(auto)]

ghost use Rattle.std.specs.Prelude.{◌≡◌, ℕ, List, Option};
ghost use Rattle.drc_io.specs.FaultCounts.{Rose};
ghost use Rattle.run_words.specs.Calls.{check_call, call_of, words_of};
ghost use Rattle.run_words.specs.CallValues.{call_in, CallFits};
ghost use Rattle.run_output.specs.declared.status.Status.{Status};
ghost use Rattle.run_output.specs.RunEndings.{EndsFor, Promises};

mod answering;
pub mod laws;
mod rewriting;
mod stealing;

use crate::laws::{begun_is_prefix, one_output};
use crate::rewriting::rewrite;
use crate::stealing::steal;
pub use answering::answer;
use drc_io::{Shelf, Sink};
use run_output::{Status, usage};
use run_trials::try_each;
use run_turns::{check, undo};
use run_words::{Call, call_of, check_call};
use std::thread::Threads;
use tile_pool::Gate;

/// Does what is asked for, and says how the run ended.
fn carry_out<R: Threads + Sync + AllocGlobal, F: Shelf, W: Sink, G: Gate>(
    rt: &R,
    gate: &G,
    call: Call<'_>,
    shelf: &mut F,
    out: &mut W,
) -> Status
    requires { CallFits call }
    ensures ends { EndsFor (call_in call.entry) (F.files shelf.old) (F.faults shelf.old)
        (F.faults shelf.new) (W.written out.old) (W.written out.new) result }
    ensures fault { result ≡ Status.WriteFault → Rose (W.faults out.old) (W.faults out.new) }
    ensures same { F.files shelf.new ≡ F.files shelf.old }
{
    match call {
        Call::Nothing(line) => usage(line, out),
        Call::Check(request) => check(rt, gate, request, shelf, out),
        Call::Undo(files) => undo(rt, gate, files, shelf, out),
        Call::Try { files, workers } => try_each(rt, gate, files, workers, shelf, out),
        Call::Steal(found) => steal(rt, gate, found, shelf, out),
        Call::Write(files) => rewrite(rt.alloc(), files, shelf, out),
    }
}

/// Checks the board that the words name, under the classes of the project and the rules of the rule file if they name these, and writes
/// its report. Then it carries out the commands of the script, if they name one, and writes for each the report of the board as it then
/// is, or the line of its refusal. `words` are what a command line has behind the name of the program, and `gate` is called before and
/// after each test of a tile.
///
/// The status is 0 where the board as it is at the end has no row, 1 where it has one, 2 where the words are no command line, 3 where a
/// text is refused, 4 where a file was not read, 5 where a write failed and 6 where memory ran out.
pub fn run<R: Threads + Sync + AllocGlobal, F: Shelf, W: Sink, G: Gate>(
    rt: &R,
    words: &[&str],
    shelf: &mut F,
    out: &mut W,
    gate: &G,
) -> u8
    // What was written, and that each fault has its cause.
    ensures promises { Promises (check_call (words_of words.now))
        (F.files shelf.old) (F.faults shelf.old) (F.faults shelf.new)
        (W.written out.old) (W.written out.new) (W.faults out.old) (W.faults out.new) result }
    // The files stay as they were.
    ensures same { F.files shelf.new ≡ F.files shelf.old }
{
    // What is written whole is the one output, and what is begun a prefix of it.
    one_output();
    begun_is_prefix();
    let status = match check_call(rt.alloc(), words) {
        Ok(call) => carry_out(rt, gate, call, shelf, out),
        Err(_) => Status::OutOfMemory,
    };
    status as u8
}

/// Does what the words ask for, and writes what comes of it. `words` are what a command line has behind the name of
/// the program, and `gate` is called before and after each test of a tile. The first word may be one of these; a board
/// whose file is called so is named with its folder, as `./undo`.
///
/// - `undo BOARD SCRIPT`: checks the board, and again after each step of the script, which may also undo what its
///   commands did, and do it again.
/// - `try BOARD SCRIPT N`: what each command of the script would do alone to the board as its file has it, by N workers,
///   from 1 to 8: the rows that would go and come, and at the end the first of the commands that leave the fewest rows.
/// - `steal BOARD N`: the rows alone, by N workers, from 1 to 64, that steal tiles from each other.
/// - `write BOARD SCRIPT`: the text of the board after the commands of the script.
///
/// All other words are those of a check, as [`run`] does it: of a board, under the classes of a project and the rules
/// of a rule file, and again after each command of a script.
///
/// The status is 0 where the board as it is at the end has no row, 1 where it has one, 2 where the words are no command
/// line, 3 where a text is refused, 4 where a file was not read, 5 where a write failed and 6 where memory ran out. Of
/// `try` it is 1 where a row would come by a command, and of `write` where a command is refused.
pub fn run_all<R: Threads + Sync + AllocGlobal, F: Shelf, W: Sink, G: Gate>(
    rt: &R,
    words: &[&str],
    shelf: &mut F,
    out: &mut W,
    gate: &G,
) -> u8
    // What was written, and that each fault has its cause.
    ensures promises { Promises (call_of (words_of words.now))
        (F.files shelf.old) (F.faults shelf.old) (F.faults shelf.new)
        (W.written out.old) (W.written out.new) (W.faults out.old) (W.faults out.new) result }
    // The files stay as they were.
    ensures same { F.files shelf.new ≡ F.files shelf.old }
{
    one_output();
    begun_is_prefix();
    let status = match call_of(rt.alloc(), words) {
        Ok(call) => carry_out(rt, gate, call, shelf, out),
        Err(_) => Status::OutOfMemory,
    };
    status as u8
}
