//! Tiles that are tested by workers side by side.

ghost use Rattle.std.specs.Prelude.{◌≡◌, ◌≤◌, length, IfOk};
ghost use Rattle.std.specs.List.{AllZip};
ghost use Rattle.std.specs.List.Sorted.{IsStrictlyIncreasing};
ghost use Rattle.plain_types.specs.Limits.{IsWorkerCount, most_tiles};
ghost use Rattle.claim_board.specs.DealViews.{dealt_tiles, dealt_seats};
ghost use Rattle.pair_check.specs.CheckViews.{checked_by, IsWholeView};
ghost use Rattle.row_check.specs.RowsOfTile.{IsIndexOf, AreRowsOfTile};

use crate::work::{AskedTiles, Tiles};
use claim_board::Dealt;
use row_check::TileRows;
use std::alloc::{AllocError, Global};
use std::thread::Threads;
use tile_pool::{Gate, run_tiles};

/// The rows of each of the tiles with an id that changed, in the order of the tiles, and how these were dealt to the workers, of which
/// there are 1 to 64. There are at most 15,625 tiles. Only running out of memory refuses it.
pub fn test_tiles<R: Threads + Sync, G: Gate>(
    rt: &R,
    alloc: Global,
    workers: u32,
    work: Tiles<'_>,
    gate: &G,
) -> Result<(Vec<TileRows>, Dealt), AllocError>
    requires workers { IsWorkerCount workers }
    requires view { IsWholeView work.view }
    requires index { IsIndexOf (checked_by work.view) work.index.now }
    requires changed { IsStrictlyIncreasing work.changed.now }
    requires few { length work.tiles.now ≤ most_tiles }
    ensures rows { IfOk result
        (λ r. AllZip (λ tile batch. AreRowsOfTile
        (checked_by work.entry.view) work.entry.index.now tile work.entry.changed.now batch)
        work.entry.tiles.now r.0.items) }
    ensures dealt { IfOk result
        (λ r. (dealt_tiles r.1 ≡ length work.entry.tiles.now) × (dealt_seats r.1 ≡ workers)) }
{
    let count = work.tiles.len() as u32;
    let asked = AskedTiles::of(work);
    run_tiles(rt, alloc, workers, count, &asked, gate)
}
