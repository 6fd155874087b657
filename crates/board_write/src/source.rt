//! A board and its text, as they are read.

ghost use Rattle.std.specs.Prelude.{◌≡◌, ◌≤◌, ◌⊎◌, length, IfOk, IfErr, Ok, Err};
ghost use Rattle.board_errors.specs.declared.errors.BoardError.{BoardError};
ghost use Rattle.pcb_read.specs.BoardText.{BoardSays};
ghost use Rattle.board_write.specs.WriteResults.{IsCauseBefore};
ghost use Rattle.board_write.specs.Sources.{IsSource};
ghost use Rattle.board_write.specs.declared.error.WriteError.{WriteError};

use crate::error::WriteError;
use board_items::{Board, BoardError};
use pcb_read::laws::one_reading;
use pcb_read::{Spans, read_tree};
use sexpr_read::{Doc, TextError, parse_one};
use std::alloc::Global;

/// A board, where its units stand in the text, and the tree of the text.
#[derive(Drop)]
pub struct SourceText<'t> {
    pub board: Board,
    pub spans: Spans,
    pub doc: Doc<'t>,
}

/// Reads a board with the tree of its text, which has at most 33,554,432 bytes.
pub fn read_source<'t>(alloc: Global, text: &'t [u8]) -> Result<SourceText<'t>, WriteError>
    requires { length text.now ≤ 33_554_432 }
    ensures read { IfOk result (IsSource text.entry.now) }
    ensures says { IfOk result (λ source. BoardSays text.entry.now (Ok source.board)) }
    ensures cause { IfErr result (IsCauseBefore text.entry.now) }
    ensures refused { (why : BoardError) → BoardSays text.entry.now (Err why)
        → (result ≡ Err (WriteError.Board why)) ⊎ (result ≡ Err WriteError.OutOfMemory) }
{
    one_reading();
    match parse_one(alloc, text) {
        Ok(doc) => {
            let (board, spans) = read_tree(alloc, &doc)?;
            Ok(SourceText { board, spans, doc })
        }
        Err(TextError::OutOfMemory) => Err(WriteError::OutOfMemory),
        Err(error) => Err(WriteError::Board(BoardError::Text(error))),
    }
}
