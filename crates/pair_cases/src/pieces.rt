//! The pieces of a report, each found by itself.

ghost use Rattle.std.specs.Prelude.{◌≤◌, length};
ghost use Rattle.pair_check.specs.CheckViews.{IsWholeView};

use crate::all_pairs::rows_of_all_pairs;
use crate::nets;
use board_items::Board;
use drc_io::MemSink;
use drc_rows::{write_line, write_notes, write_rows};
use item_facts::all_facts;
use net_class::Classes;
use pcb_read::read_board;
use row_check::{CheckView, Row};
use rule_text::{Rules, read_rules};
use std::alloc::Global;

/// The most bytes of a text.
const LIMIT: usize = 33_554_432;

/// The most bytes of a report.
const ROOM: usize = 1 << 20;

/// Whether each row differs from the one before it.
fn all_differ(rows: &[Row]) -> bool {
    for place in 1..rows.len() {
        if rows[place] == rows[place - 1] {
            return false;
        }
    }
    true
}

/// The rows of the view as a report has them, over all items and all pairs. No row comes twice.
fn written(alloc: Global, view: &CheckView<'_>) -> Option<Vec<u8>>
    requires { IsWholeView view.now }
{
    let rows = match rows_of_all_pairs(alloc, view) {
        Ok(rows) => rows,
        Err(_) => return None,
    };
    if !all_differ(&rows) {
        return None;
    }
    let mut out = MemSink::new(alloc, usize::MAX, ROOM, Vec::new(alloc)).ok()?;
    write_line(b"report ", 0, b"", &mut out).ok()?;
    write_rows(view, &rows, &mut out).ok()?;
    write_line(b"rows ", rows.len() as u64, b"", &mut out).ok()?;
    out.bytes().to_vec(alloc).ok()
}

/// The rows of a board under rules, as a report has them.
fn plain_report(alloc: Global, board: &Board, rules: &Rules) -> Option<Vec<u8>>
    requires { length rules.now.rules ≤ 33_554_432 }
{
    let classes = match Classes::plain(alloc) {
        Ok(classes) => classes,
        Err(_) => return None,
    };
    let facts = match all_facts(alloc, board, &classes) {
        Ok(facts) => facts,
        Err(_) => return None,
    };
    let view = CheckView {
        board,
        facts: &facts,
        rules: rules.rules.as_slice(),
        classes: &classes,
    };
    written(alloc, &view)
}

/// The lines of what is not checked of a board and of rules.
fn plain_notes(alloc: Global, board: &Board, rules: &Rules) -> Option<Vec<u8>> {
    let mut out = MemSink::new(alloc, usize::MAX, ROOM, Vec::new(alloc)).ok()?;
    write_notes(board, rules, &mut out).ok()?;
    out.bytes().to_vec(alloc).ok()
}

/// What a report has, piece by piece, each as its lines.
#[derive(Drop)]
pub struct Pieces {
    /// From the first line of the report to the number of its rows.
    pub rows: Vec<u8>,
    /// What is not checked.
    pub notes: Vec<u8>,
    /// The nets that are open, and how many there are.
    pub nets: Vec<u8>,
}

/// The pieces of the report of a board under the classes of no project and under rules, where both are given as texts. There are none where a
/// text is refused or longer than 33,554,432 bytes, where a piece is longer than 1 MB, where a row comes twice, or where memory runs out.
pub fn pieces_of(alloc: Global, board: &[u8], rules: &[u8]) -> Option<Pieces> {
    if board.len() > LIMIT || rules.len() > LIMIT {
        return None;
    }
    let board = read_board(alloc, board).ok()?;
    let rules = read_rules(alloc, rules).ok()?;
    if rules.rules.as_slice().len() > 33_554_432 {
        return None;
    }
    let nets = nets::told(alloc, &board, ROOM)?;
    let notes = plain_notes(alloc, &board, &rules)?;
    let rows = plain_report(alloc, &board, &rules)?;
    Some(Pieces { rows, notes, nets })
}
