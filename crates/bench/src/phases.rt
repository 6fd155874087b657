//! What a whole run finds of a board, phase by phase: each with all that comes before it.

ghost use Rattle.board_index.specs.IndexedItems.{HoldsItems};

use board_index::index_of;
use board_items::Board;
use box_index::TileIndex;
use item_facts::{all_facts, reach};
use net_class::Classes;
use net_groups::{anchors, groups};
use pcb_read::read_board;
use ratsnest::nest;
use row_check::{CheckView, rows_of};
use std::alloc::{AllocError, Global};

/// Up to where a run goes.
#[derive(Clone, Copy, PartialEq, Eq)]
pub enum Phase {
    Board,
    Facts,
    Index,
    Rows,
    Groups,
    Links,
}

impl Phase {
    /// The phase of this name.
    pub fn named(name: &str) -> Option<Phase> {
        match name {
            "board" => Some(Phase::Board),
            "facts" => Some(Phase::Facts),
            "index" => Some(Phase::Index),
            "rows" => Some(Phase::Rows),
            "groups" => Some(Phase::Groups),
            "links" => Some(Phase::Links),
            _ => None,
        }
    }
}

/// How many items the board has.
fn items(board: &Board) -> u64 {
    let mut count = 0u64;
    for _ in board.iter() {
        count = count.wrapping_add(1);
    }
    count
}

/// How many groups all nets have.
fn all_groups(alloc: Global, board: &Board, index: &TileIndex) -> Result<u64, AllocError>
    requires { HoldsItems board.now index.now }
{
    let mut count = 0u64;
    for (net, _) in board.nets() {
        let found = groups(alloc, board, net, index)?;
        count = count.wrapping_add(found.len() as u64);
    }
    Ok(count)
}

/// How many links a net has.
fn links_of(alloc: Global, board: &Board, net: u32, index: &TileIndex) -> Result<u64, AllocError>
    requires { HoldsItems board.now index.now }
{
    let found = groups(alloc, board, net, index)?;
    let ends = anchors(alloc, board, net, &found)?;
    let nest = nest(alloc, &ends)?;
    Ok(nest.links.as_slice().len() as u64)
}

/// How many links all nets have.
fn all_links(alloc: Global, board: &Board, index: &TileIndex) -> Result<u64, AllocError>
    requires { HoldsItems board.now index.now }
{
    let mut count = 0u64;
    for (net, _) in board.nets() {
        count = count.wrapping_add(links_of(alloc, board, net, index)?);
    }
    Ok(count)
}

/// What is found of the board up to the phase, under no project and no rules.
fn found_on(alloc: Global, board: &Board, last: Phase) -> Result<u64, AllocError> {
    if last == Phase::Board {
        return Ok(items(board));
    }
    let classes = Classes::plain(alloc)?;
    let facts = all_facts(alloc, board, &classes)?;
    if last == Phase::Facts {
        return Ok(items(board));
    }
    let index = index_of(alloc, board, reach(board, &classes, &[]))?;
    if last == Phase::Index {
        return Ok(u64::from(index.held()));
    }
    let view = CheckView {
        board,
        facts: &facts,
        rules: &[],
        classes: &classes,
    };
    let rows = rows_of(alloc, &view, &index)?;
    match last {
        Phase::Groups => all_groups(alloc, board, &index),
        Phase::Links => all_links(alloc, board, &index),
        _ => Ok(rows.len() as u64),
    }
}

/// How much is found in the phase of the board of the text: items, items with facts, tiles that hold one, rows, groups or links. A
/// text that is not a board has nothing.
pub fn found(alloc: Global, text: &[u8], last: Phase) -> Option<u64> {
    if text.len() > crate::texts::LIMIT {
        return None;
    }
    let board = read_board(alloc, text).ok()?;
    found_on(alloc, &board, last).ok()
}
