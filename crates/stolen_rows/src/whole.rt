//! All rows of a board.

ghost use Rattle.std.specs.Prelude.{◌≡◌, ◌+◌, length, IfOk};
ghost use Rattle.plain_types.specs.Limits.{IsWorkerCount};
ghost use Rattle.pair_check.specs.CheckViews.{checked_by, IsWholeView};
ghost use Rattle.pair_check.specs.Rows.{AreRows};
ghost use Rattle.row_check.specs.RowsOfTile.{IsIndexOf};
ghost use Rattle.steal_pool.specs.StolenViews.{stolen_hands};
ghost use Rattle.stolen_rows.specs.Unruled.{unruled};

use crate::stealing::{StolenTiles, let_go, steal_tiles};
use board_index::index_of;
use board_items::Board;
use box_index::TileIndex;
use item_facts::{all_facts, reach};
use net_class::Classes;
use row_check::{CheckView, Row, all_rows, ids_of};
use std::alloc::{AllocError, Global};
use std::thread::Threads;
use steal_pool::Stolen;
use tile_pool::Gate;
use tile_rows::Tiles;

/// All rows of what is checked, and which seat took which tiles: all tiles that hold an item are gone through.
fn steal_all<R: Threads + Sync, G: Gate>(
    rt: &R,
    alloc: Global,
    workers: u32,
    view: CheckView<'_>,
    index: &TileIndex,
    gate: &G,
) -> Result<(Vec<Row>, Stolen), AllocError>
    requires workers { IsWorkerCount workers }
    requires view { IsWholeView view }
    requires index { IsIndexOf (checked_by view) index.now }
    ensures rows { IfOk result (λ r. AreRows (checked_by view.entry) r.0.items) }
    ensures hands { IfOk result (λ r. length (stolen_hands r.1) ≡ workers + 1) }
{
    let tiles = index.dirty(&[], true)?;
    let ids = ids_of(alloc, view.board)?;
    let work = Tiles {
        view,
        index,
        tiles: &tiles,
        changed: &ids,
    };
    let StolenTiles { batches, stolen } = steal_tiles(rt, alloc, workers, work, gate)?;
    let rows = all_rows(alloc, &view, index, &ids, &tiles, &batches)?;
    Ok((rows, stolen))
}

/// All rows of the board under these classes and no rules, in order. Each tile that holds an item is tested by one of `workers` workers,
/// from 1 to 64, who have deques of their own and steal from each other's; the gate is called before and after each test. What they
/// steal changes no row. Only running out of memory refuses it.
pub fn rows_by_stealing<R: Threads + Sync, G: Gate>(
    rt: &R,
    alloc: Global,
    workers: u32,
    board: &Board,
    classes: &Classes,
    gate: &G,
) -> Result<Vec<Row>, AllocError>
    requires { IsWorkerCount workers }
    ensures { IfOk result (λ rows. AreRows (unruled board.now classes.now) rows.items) }
{
    let facts = all_facts(alloc, board, classes)?;
    let index = index_of(alloc, board, reach(board, classes, &[]))?;
    let view = CheckView {
        board,
        facts: &facts,
        rules: &[],
        classes,
    };
    let (rows, stolen) = steal_all(rt, alloc, workers, view, &index, gate)?;
    let_go(stolen, workers);
    Ok(rows)
}
