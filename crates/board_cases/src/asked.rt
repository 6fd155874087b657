//! Calls on what is asked of the items of a board, under the classes of no project. Items have their ids.

use board_items::Board;
use case_lines::{Fault, first_word, number, refused, small, text_of, told};
use item_facts::{facts, same};
use net_class::Classes;
use pcb_read::read_board;
use plain_types::HasReason;
use rule_pick::Facts;
use std::alloc::Global;

/// The facts of an item, as a copy of them has them.
fn facts_at(alloc: Global, board: &Board, id: u32) -> Result<Facts, Fault> {
    if board.get(id).is_none() {
        return Err(Fault::NotTaken);
    }
    let classes = Classes::plain(alloc)?;
    Ok(facts(alloc, board, &classes, id)?.copy()?)
}

/// The kind of the item, its class with that class's clearance, its net, and the bits of its layers.
fn shown(alloc: Global, facts: &Facts) -> Result<Vec<u8>, Fault> {
    let kind = facts.kind;
    let class = String::from_utf8_lossy(alloc, facts.class.bytes())?;
    let clearance = facts.class_clearance;
    let net = String::from_utf8_lossy(alloc, facts.net_name.bytes())?;
    let layers = facts.layers.bits;
    Ok(format!(in alloc; "{kind:?} {class} {clearance} {net} {layers}")?.into_bytes())
}

/// What is asked of these items of a board: their facts, or whether those of the two are the same.
fn said(alloc: Global, board: &Board, first: u32, second: Option<u32>) -> Result<Vec<u8>, Fault> {
    let one = facts_at(alloc, board, first)?;
    match second {
        Some(id) => told(alloc, &same(&one, &facts_at(alloc, board, id)?)),
        None => shown(alloc, &one),
    }
}

/// The number in front, and what comes behind it.
fn id_of(written: &str) -> Result<(u32, &str), Fault> {
    let (id, rest) = first_word(written);
    Ok((small(number(id)?)?, rest))
}

/// The answer of the call of this name, where one or two ids and the text of a board are written.
pub fn answer(alloc: Global, name: &str, written: &str) -> Result<Vec<u8>, Fault> {
    let (first, rest) = id_of(written)?;
    let (second, text) = match name {
        "facts" => (None, rest),
        "same" => {
            let (second, text) = id_of(rest)?;
            (Some(second), text)
        }
        _ => return Err(Fault::UnknownCall),
    };
    match read_board(alloc, &text_of(alloc, text)?) {
        Ok(board) => said(alloc, &board, first, second),
        Err(error) => refused(alloc, &error, error.reason().place()),
    }
}
