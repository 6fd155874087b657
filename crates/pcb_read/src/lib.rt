//! Boards of KiCad 7 and KiCad 8, read from their text.
//!
//! The format is that of the KiCad developer documentation, versions 20221018 and 20240108. Lengths are millimetres in the text and
//! whole nanometres on the board, what is finer cut off.
#![tactic(auto)]

ghost use Rattle.std.specs.Prelude.{◌≡◌, ◌⊎◌, length, MatchResult, IfOk, Result, Ok, Err};
ghost use Rattle.plain_types.specs.Limits.{IsReadable};
ghost use Rattle.board_errors.specs.declared.errors.BoardError.{BoardError};
ghost use Rattle.board_items.specs.Boards.{PlainBoard};
ghost use Rattle.pcb_read.specs.BoardText.{BoardSays};
ghost use Rattle.sexpr_read.specs.TreeViews.{root_of};
ghost use Rattle.pcb_read.specs.BoardOf.{SaysBoard};
ghost use Rattle.pcb_read.specs.UnitSpans.{HasSpans, AreSpans, GivesBoardWith};

mod added;
mod adding;
mod aside;
mod drafts;
mod items;
pub mod laws;
mod lists;
mod nets;
mod root;
mod slot;
mod sorts;
mod spans;
mod tracks;
mod usual;

use crate::laws::one_reading;
use crate::root::{board_by, board_of};
pub use added::read_item;
pub use adding::add_items;
use board_items::{Board, BoardError};
use sexpr_read::{Doc, TextError, parse_one};
pub use spans::Spans;
use std::alloc::Global;
use std::thread::Threads;

/// The board of a text of at most 33,554,432 bytes, or the first reason in the text why there is none, with its place.
///
/// All nets and copper layers that the text lists are kept, and the items of its tracks, vias, graphics, texts, dimensions,
/// zones and footprints (`specs/ItemsOf`); lists with other heads are passed over. The reasons are those of [`BoardError`],
/// exactly where the board of a tree (`specs/BoardOf`) has them; running out of memory alone is free.
pub fn read_board(alloc: Global, text: &[u8]) -> Result<Board, BoardError>
    requires { IsReadable text.now }
    ensures says { MatchResult result (λ board. BoardSays text.now (Ok board))
        (λ e. (e ≡ BoardError.OutOfMemory) ⊎ BoardSays text.now (Err e)) }
    ensures only { (answer : Result PlainBoard BoardError) → BoardSays text.now answer
        → MatchResult result
        (λ board. answer ≡ Ok board) (λ e. (e ≡ BoardError.OutOfMemory) ⊎ (answer ≡ Err e)) }
{
    match read_with_spans(alloc, text) {
        Ok((board, _spans)) => Ok(board),
        Err(error) => Err(error),
    }
}

/// The board of a text, as [`read_board`] gives it. With several workers the many tracks and vias of a large text are
/// drafted by as many threads as there are processors, before the parts are read one after the other.
pub fn read_board_by(
    rt: &(impl Threads + Sync),
    alloc: Global,
    workers: u32,
    text: &[u8],
) -> Result<Board, BoardError>
    requires { IsReadable text.now }
    ensures says { MatchResult result (λ board. BoardSays text.now (Ok board))
        (λ e. (e ≡ BoardError.OutOfMemory) ⊎ BoardSays text.now (Err e)) }
    ensures only { (answer : Result PlainBoard BoardError) → BoardSays text.now answer
        → MatchResult result
        (λ board. answer ≡ Ok board) (λ e. (e ≡ BoardError.OutOfMemory) ⊎ (answer ≡ Err e)) }
{
    if workers == 1 {
        return read_board(alloc, text);
    }
    one_reading();
    match parse_one(alloc, text) {
        Ok(doc) => board_by(rt, alloc, doc.root()),
        Err(TextError::OutOfMemory) => Err(BoardError::OutOfMemory),
        Err(error) => Err(BoardError::Text(error)),
    }
}

/// The board of a text, as [`read_board`] gives it, and where its units stand in the text: entry k is the span of the list
/// whose items have the unit number k, and there is one entry for each unit. Lists that give no item have none.
pub fn read_with_spans(alloc: Global, text: &[u8]) -> Result<(Board, Spans), BoardError>
    requires { IsReadable text.now }
    ensures says { MatchResult result (λ read. BoardSays text.now (Ok read.0))
        (λ e. (e ≡ BoardError.OutOfMemory) ⊎ BoardSays text.now (Err e)) }
    ensures only { (answer : Result PlainBoard BoardError) → BoardSays text.now answer
        → MatchResult result
        (λ read. answer ≡ Ok read.0) (λ e. (e ≡ BoardError.OutOfMemory) ⊎ (answer ≡ Err e)) }
    ensures spans { IfOk result (λ read. HasSpans text.now read.1) }
    ensures each { IfOk result (λ read. length read.1 ≡ read.0.next_unit) }
{
    one_reading();
    match parse_one(alloc, text) {
        Ok(doc) => read_tree(alloc, &doc),
        Err(TextError::OutOfMemory) => Err(BoardError::OutOfMemory),
        Err(error) => Err(BoardError::Text(error)),
    }
}

/// The board of a tree that was read of a text, and where its units stand in the text. The tree can be used further.
pub fn read_tree(alloc: Global, doc: &Doc<'_>) -> Result<(Board, Spans), BoardError>
    ensures says { GivesBoardWith result (SaysBoard (root_of doc.now)) }
    ensures spans { IfOk result (λ read. AreSpans (root_of doc.now) read.1) }
    ensures each { IfOk result (λ read. length read.1 ≡ read.0.next_unit) }
{
    board_of(alloc, doc.root())
}
