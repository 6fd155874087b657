//! The text of a board after commands: byte for byte what it was, but for the lists of units that were taken out, moved or added.
//!
//! The list of a unit that was taken out is left out. In that of one that was moved, places are rewritten, in millimetres with
//! six digits: of a footprint its own, of another unit those of all lists at any depth. Lists that were added stand last in the list of
//! the board, each behind one space, with one space between its parts. What the text is, is defined in `roundtrip_boards`'s `IsWritten`.
#![tactic(auto)]

ghost use Rattle.std.specs.Prelude.{◌≡◌, ◌≤◌, ◌<◌, ◌⊎◌, length, map, All, MatchResult, Err};
ghost use Rattle.board_errors.specs.declared.errors.BoardError.{BoardError};
ghost use Rattle.edit_script.specs.Commands.{plain_command};
ghost use Rattle.edit_script.specs.Fits.{Fits};
ghost use Rattle.pcb_read.specs.BoardText.{BoardSays};
ghost use Rattle.board_write.specs.WriteResults.{WroteWhole, IsCause};
ghost use Rattle.board_write.specs.Sources.{IsSource};
ghost use Rattle.board_write.specs.declared.error.WriteError.{WriteError};

mod distance;
mod edit_state;
mod error;
pub mod laws;
mod marks;
mod places;
mod root;
mod setting;
mod source;
mod written;

use crate::written::text_by;
use drc_io::{Sink, put_all};
use edit_script::Command;
pub use error::WriteError;
use plain_types::crosses_threads;
pub use source::{SourceText, read_source};
use std::alloc::Global;

/// Writes the text of the board after the commands to the sink, and gives how many of them were refused. `text` is that of a board, of
/// at most 33,554,432 bytes, and what is asked of the commands is what `read_script` gives. A board is read again from the text where no
/// added list has more than 63 levels, which those of a script have not.
///
/// A command that is refused leaves the board as it is. Rules, and a report again, change nothing and are not counted. The sink is called
/// only when the whole text stands in memory.
pub fn write_board<W: Sink>(
    alloc: Global,
    text: &[u8],
    commands: &[Command<'_>],
    out: &mut W,
) -> Result<u32, WriteError>
    requires text { length text.now ≤ 33_554_432 }
    requires few { length commands.now < 4_294_967_295 }
    requires fit { All Fits (map plain_command commands.now) }
    ensures written { MatchResult result
        (WroteWhole text.now (map plain_command commands.now) (W.written out.old)
        (W.written out.new))
        (IsCause text.now (map plain_command commands.now) (W.written out.old) (W.written out.new)
        (W.faults out.old) (W.faults out.new)) }
    ensures refused { (why : BoardError) → BoardSays text.now (Err why)
        → (result ≡ Err (WriteError.Board why)) ⊎ (result ≡ Err WriteError.OutOfMemory) }
    ensures counts { W.faults out.old ≤ W.faults out.new }
{
    let source = read_source(alloc, text)?;
    write_source(alloc, text, source, commands, out)
}

/// Writes the text of the board after the commands, of a board that was read of its text before: the text is not read again, and
/// not refused.
pub fn write_source<W: Sink>(
    alloc: Global,
    text: &[u8],
    source: SourceText<'_>,
    commands: &[Command<'_>],
    out: &mut W,
) -> Result<u32, WriteError>
    requires read { IsSource text.now source }
    requires few { length commands.now < 4_294_967_295 }
    requires fit { All Fits (map plain_command commands.now) }
    ensures written { MatchResult result
        (WroteWhole text.now (map plain_command commands.now) (W.written out.old)
        (W.written out.new))
        (IsCause text.now (map plain_command commands.now) (W.written out.old) (W.written out.new)
        (W.faults out.old) (W.faults out.new)) }
    ensures read { (why : BoardError) → result ≡ Err (WriteError.Board why) → ⊥ }
    ensures counts { W.faults out.old ≤ W.faults out.new }
{
    let written = text_by(alloc, text, source, commands)?;
    put_all(out, &written.text)?;
    Ok(written.refused)
}

fn all_cross() {
    crosses_threads::<WriteError>();
}
