//! The text of a board after commands.

ghost use Rattle.std.specs.Prelude.{◌<◌, length, map, All, IfOk};
ghost use Rattle.edit_script.specs.Commands.{plain_command};
ghost use Rattle.edit_script.specs.Fits.{Fits};
ghost use Rattle.board_write.specs.Sources.{IsSource, HasText};

use crate::edit_state::carried_out;
use crate::root::{Units, text_after};
use crate::source::SourceText;
use edit_script::Command;
use std::alloc::{AllocError, Global};

/// The text after commands, and how many of them were refused.
#[derive(Drop)]
pub(crate) struct Written {
    pub text: Vec<u8>,
    pub refused: u32,
}

/// Makes the text after the commands.
pub(crate) fn text_by(
    alloc: Global,
    text: &[u8],
    source: SourceText<'_>,
    commands: &[Command<'_>],
) -> Result<Written, AllocError>
    requires read { IsSource text.now source }
    requires few { length commands.now < 4_294_967_295 }
    requires fit { All Fits (map plain_command commands.now) }
    ensures { IfOk result (HasText text.now (map plain_command commands.now)) }
{
    let SourceText { board, spans, doc } = source;
    let edit_state = carried_out(alloc, board, commands)?;
    let units = Units {
        spans: spans.as_slice(),
        marks: edit_state.marks.as_slice(),
    };
    let text = text_after(alloc, &doc, text, units, &edit_state.added)?;
    Ok(Written {
        text,
        refused: edit_state.refused,
    })
}
