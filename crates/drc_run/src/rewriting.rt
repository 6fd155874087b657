//! `write BOARD SCRIPT`: from a board and a script to the text of the board after the commands, or to the line that
//! stands in its place.

ghost use Rattle.std.specs.Prelude.{◌≡◌, length, map, All, IfOk, MatchResult};
ghost use Rattle.plain_types.specs.Limits.{IsInText, IsReadable};
ghost use Rattle.drc_io.specs.FaultCounts.{Rose};
ghost use Rattle.edit_script.specs.Commands.{plain_command};
ghost use Rattle.edit_script.specs.Fits.{Fits, AreShallow};
ghost use Rattle.board_write.specs.Sources.{IsSource};
ghost use Rattle.run_words.specs.Calls.{write};
ghost use Rattle.run_texts.specs.declared.texts.Which.{Which};
ghost use Rattle.run_texts.specs.NamedTexts.{a_text, accepted, ReaderSays};
ghost use Rattle.run_texts.specs.RunFindings.{StopsReading};
ghost use Rattle.run_output.specs.declared.status.Status.{Status};
ghost use Rattle.run_output.specs.Output.{IsBoardWritten, status_after};
ghost use Rattle.run_output.specs.RunEndings.{Ends, EndsFor, IsTextOfOne, number_of};

use board_write::{SourceText, WriteError, read_source, write_source};
use drc_io::{Shelf, Sink};
use edit_script::Command;
use roundtrip_edited::laws::read_back;
use run_output::{Status, write_stop};
use run_texts::{Stop, Which, fetch_text, refused, script_in, script_text};
use run_words::Scripted;
use std::alloc::Global;

/// The status after commands of which so many were refused.
fn status_after(refused: u32) -> Status
    ensures { number_of result ≡ status_after refused }
{
    if refused == 0 {
        Status::Clean
    } else {
        Status::Rows
    }
}

/// The board of a text that is wanted itself.
fn source_in<'t>(alloc: Global, text: &'t [u8]) -> Result<SourceText<'t>, Stop>
    requires { IsReadable text.now }
    ensures says { MatchResult result (λ _. ReaderSays Which.Text text.entry.now
        (accepted (a_text text.entry.now))) (StopsReading Which.Text text.entry.now) }
    ensures read { IfOk result (IsSource text.entry.now) }
{
    match read_source(alloc, text) {
        Ok(source) => Ok(source),
        Err(WriteError::Board(e)) => Err(refused(Which::Text, &e)),
        Err(WriteError::Failed | WriteError::OutOfMemory) => Err(Stop::OutOfMemory),
    }
}

/// Writes the text of the board, which was read of it, after the commands.
fn rewritten<W: Sink>(
    alloc: Global,
    text: &[u8],
    source: SourceText<'_>,
    commands: &[Command<'_>],
    out: &mut W,
) -> Status
    requires read { IsSource text.now source }
    requires few { IsInText (length commands.now) }
    requires fit { All Fits (map plain_command commands.now) }
    requires shallow { AreShallow (map plain_command commands.now) }
    ensures ends { Ends (IsBoardWritten text.now (map plain_command commands.now))
        (IsTextOfOne (IsBoardWritten text.now (map plain_command commands.now))) (λ _. ⊥)
        (W.written out.old) (W.written out.new) result }
    ensures fault { result ≡ Status.WriteFault → Rose (W.faults out.old) (W.faults out.new) }
{
    // What is written is read again as the board that the commands leave.
    read_back();
    match write_source(alloc, text, source, commands, out) {
        Ok(refused) => status_after(refused),
        Err(WriteError::Failed) => Status::WriteFault,
        // A board was read before, so none is refused.
        Err(WriteError::Board(_) | WriteError::OutOfMemory) => Status::OutOfMemory,
    }
}

/// Fetches and reads the board and then the script, and writes the text of the board after the script's commands.
pub(crate) fn rewrite<F: Shelf, W: Sink>(
    alloc: Global,
    files: Scripted<'_>,
    shelf: &mut F,
    out: &mut W,
) -> Status
    ensures ends { EndsFor (write files.entry.board.now files.entry.script.now) (F.files shelf.old)
        (F.faults shelf.old) (F.faults shelf.new) (W.written out.old) (W.written out.new) result }
    ensures fault { result ≡ Status.WriteFault → Rose (W.faults out.old) (W.faults out.new) }
    ensures same { F.files shelf.new ≡ F.files shelf.old }
{
    let text = match fetch_text(alloc, Which::Text, files.board, shelf) {
        Ok(text) => text,
        Err(stop) => return write_stop(stop, out),
    };
    let source = match source_in(alloc, &text) {
        Ok(source) => source,
        Err(stop) => return write_stop(stop, out),
    };
    let script = match script_text(alloc, Some(files.script), shelf) {
        Ok(script) => script,
        Err(stop) => {
            drop(source);
            return write_stop(stop, out);
        }
    };
    match script_in(alloc, &script) {
        Ok(commands) => rewritten(alloc, &text, source, &commands, out),
        Err(stop) => {
            drop(source);
            write_stop(stop, out)
        }
    }
}
