//! Calls that change a board, or look for a unit of it. The items of a board are shown by their ids and places.

use board_items::{Board, ItemError};
use case_lines::{Fault, add, first_word, number, refused, small, text_of, told};
use drc_io::Name;
use pcb_read::read_board;
use plain_types::HasReason;
use std::alloc::Global;

fn items(alloc: Global, board: &Board) -> Result<Vec<u8>, Fault> {
    let mut out = Vec::new(alloc);
    for (id, item) in board.iter() {
        let (x, y) = (item.x, item.y);
        let bar: &[u8] = if out.is_empty() { b"" } else { b" | " };
        add(&mut out, bar)?;
        add(&mut out, format!(in alloc; "{id} {x} {y}")?.as_bytes())?;
    }
    if out.is_empty() {
        add(&mut out, b"none")?;
    }
    Ok(out)
}

fn removed(alloc: Global, mut board: Board, unit: u32) -> Result<Vec<u8>, Fault> {
    board.remove(unit);
    items(alloc, &board)
}

/// The ids of the items that are taken out of a copy of the board, and what is left in it.
fn taken(alloc: Global, board: &Board, unit: u32) -> Result<Vec<u8>, Fault> {
    let mut copy = board.copy()?;
    let mut out = Vec::new(alloc);
    for kept in &copy.taken(unit)? {
        let id = kept.id;
        add(&mut out, format!(in alloc; "{id} | ")?.as_bytes())?;
    }
    add(&mut out, items(alloc, &copy)?.as_slice())?;
    Ok(out)
}

fn moved(alloc: Global, mut board: Board, unit: u32, steps: &str) -> Result<Vec<u8>, Fault> {
    let (dx, dy) = first_word(steps);
    match board.moved(unit, number(dx)?, number(dy)?) {
        Ok(()) => items(alloc, &board),
        Err(ItemError::OutOfMemory) => Err(Fault::OutOfMemory),
        Err(error) => told(alloc, &error),
    }
}

fn found(alloc: Global, board: &Board, name: &str) -> Result<Vec<u8>, Fault> {
    let name = Name::of(name.to_string(alloc)?.into_bytes());
    let found = board.find(&name);
    Ok(format!(in alloc; "{found:?}")?.into_bytes())
}

fn said(alloc: Global, name: &str, board: Board, asked: &str) -> Result<Vec<u8>, Fault> {
    if name == "find" {
        return found(alloc, &board, asked);
    }
    let (unit, steps) = first_word(asked);
    let unit = small(number(unit)?)?;
    match name {
        "remove" => removed(alloc, board, unit),
        "taken" => taken(alloc, &board, unit),
        _ => moved(alloc, board, unit, steps),
    }
}

/// The answer of the call of this name, where what is asked and the text of a board are written.
pub fn answer(alloc: Global, name: &str, written: &str) -> Result<Vec<u8>, Fault> {
    let (asked, text) = written.split_once(" | ").ok_or(Fault::UnknownCall)?;
    match read_board(alloc, &text_of(alloc, text)?) {
        Ok(board) => said(alloc, name, board, asked),
        Err(error) => refused(alloc, &error, error.reason().place()),
    }
}
