//! Calls on the rows of a board or of a tile of it, under no project and no rules. A row is shown by its items and its kind.

ghost use Rattle.std.specs.Prelude.{◌≡◌, ◌<◌};
ghost use Rattle.pair_check.specs.CheckViews.{checked_by, IsWholeView};
ghost use Rattle.row_check.specs.RowsOfTile.{IsIndexOf};

use board_index::index_of;
use board_items::Board;
use box_index::TileIndex;
use case_lines::{Fault, add, first_word, number, refused, small, text_of};
use item_facts::{all_facts, reach};
use net_class::Classes;
use pcb_read::read_board;
use plain_types::HasReason;
use row_check::{CheckView, Row, Steps, rows_of, rows_of_changed, test_tile};
use std::alloc::{AllocError, Global};
use std::marker::Brand;
use std::sync::ledger::{Blank, Ledger};

/// Which rows are asked for.
#[derive(Clone, Copy)]
enum Wanted {
    /// All rows of the board.
    All,
    /// Those of a tile with the item that changed, and those of that item alone.
    Changed { tile: u32, id: u32 },
    /// Those of a tile with the item that changed.
    Pairs { tile: u32, id: u32 },
}

/// The rows as they are printed: the items and the kind of each, or `none`.
fn shown(alloc: Global, rows: &[Row]) -> Result<Vec<u8>, Fault> {
    if rows.is_empty() {
        return Ok(b"none".to_vec(alloc)?);
    }
    let mut out = Vec::new(alloc);
    for row in rows {
        let (first, second, kind) = (row.first(), row.second(), row.kind());
        let bar: &[u8] = if out.is_empty() { b"" } else { b" | " };
        add(&mut out, bar)?;
        add(
            &mut out,
            format!(in alloc; "{first} {second} {kind:?}")?.as_bytes(),
        )?;
    }
    Ok(out)
}

/// The rows of a tile with the item that changed, on a counter of its own.
fn rows_of_pairs<L: Ledger>(
    alloc: Global,
    view: &CheckView<'_>,
    index: &TileIndex,
    tile: u32,
    id: u32,
    blank: Blank,
) -> Result<Vec<Row>, AllocError>
    requires name { blank.name ≡ L.name }
    requires parts { blank.parts ≡ L.parts }
    requires some { 0 < blank.parts }
    requires view { IsWholeView view.now }
    requires index { IsIndexOf (checked_by view.now) index.now }
{
    let mut steps: Steps<L> = Steps::new(blank);
    test_tile(alloc, view, index, tile, &[id], &mut steps)
}

/// The rows that are asked for.
fn rows_on(alloc: Global, board: &Board, wanted: Wanted) -> Result<Vec<u8>, Fault> {
    let classes = Classes::plain(alloc)?;
    let facts = all_facts(alloc, board, &classes)?;
    let index = index_of(alloc, board, reach(board, &classes, &[]))?;
    let view = CheckView {
        board,
        facts: &facts,
        rules: &[],
        classes: &classes,
    };
    let rows = match wanted {
        Wanted::All => rows_of(alloc, &view, &index)?,
        Wanted::Changed { tile, id } => rows_of_changed(alloc, &view, &index, &[tile], &[id])?,
        Wanted::Pairs { tile, id } => {
            rows_of_pairs::<Brand>(alloc, &view, &index, tile, id, Blank::new(1))?
        }
    };
    shown(alloc, &rows)
}

/// The number of the tile and the id in front, and what comes behind them.
fn changed_of(written: &str) -> Result<((u32, u32), &str), Fault> {
    let (tile, rest) = first_word(written);
    let (id, text) = first_word(rest);
    Ok(((small(number(tile)?)?, small(number(id)?)?), text))
}

/// What the call of this name asks for, and the text of the board.
fn wanted_of<'t>(name: &str, written: &'t str) -> Result<(Wanted, &'t str), Fault> {
    match name {
        "rows_of_changed" => {
            let ((tile, id), text) = changed_of(written)?;
            Ok((Wanted::Changed { tile, id }, text))
        }
        "test_tile" => {
            let ((tile, id), text) = changed_of(written)?;
            Ok((Wanted::Pairs { tile, id }, text))
        }
        _ => Ok((Wanted::All, written)),
    }
}

/// The answer of the call of this name, where the text of a board is written. For the rows of a tile that stands behind the number of
/// the tile and the id of the item that changed.
pub fn answer(alloc: Global, name: &str, written: &str) -> Result<Vec<u8>, Fault> {
    let (wanted, text) = wanted_of(name, written)?;
    match read_board(alloc, &text_of(alloc, text)?) {
        Ok(board) => rows_on(alloc, &board, wanted),
        Err(error) => refused(alloc, &error, error.reason().place()),
    }
}
