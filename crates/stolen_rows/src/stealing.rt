//! Tiles that are tested by workers who steal them from each other.

ghost use Rattle.std.specs.Prelude.{◌≡◌, ◌+◌, ◌≤◌, length, IfOk};
ghost use Rattle.std.specs.List.{AllZip};
ghost use Rattle.std.specs.List.Sorted.{IsStrictlyIncreasing};
ghost use Rattle.plain_types.specs.Limits.{IsWorkerCount, most_tiles};
ghost use Rattle.pair_check.specs.CheckViews.{checked_by, IsWholeView};
ghost use Rattle.row_check.specs.RowsOfTile.{IsIndexOf, AreRowsOfTile};
ghost use Rattle.steal_pool.specs.StolenViews.{stolen_tiles, stolen_hands};

use row_check::TileRows;
use std::alloc::{AllocError, Global};
use std::thread::Threads;
use steal_pool::{Stolen, run_stolen};
use tile_pool::Gate;
use tile_rows::{AskedTiles, Tiles};

/// The rows of tiles, and which seat took which tiles.
#[derive(Drop)]
pub(crate) struct StolenTiles {
    pub(crate) batches: Vec<TileRows>,
    pub(crate) stolen: Stolen,
}

/// The rows of each of the tiles with an id that changed, in the order of the tiles. There are 1 to 64 workers and at most 15,625
/// tiles. Only running out of memory refuses it.
pub(crate) fn steal_tiles<R: Threads + Sync, G: Gate>(
    rt: &R,
    alloc: Global,
    workers: u32,
    work: Tiles<'_>,
    gate: &G,
) -> Result<StolenTiles, AllocError>
    requires workers { IsWorkerCount workers }
    requires view { IsWholeView work.view }
    requires index { IsIndexOf (checked_by work.view) work.index.now }
    requires changed { IsStrictlyIncreasing work.changed.now }
    requires few { length work.tiles.now ≤ most_tiles }
    ensures rows { IfOk result
        (λ r. AllZip (λ tile batch. AreRowsOfTile
        (checked_by work.entry.view) work.entry.index.now tile work.entry.changed.now batch)
        work.entry.tiles.now r.batches.items) }
    ensures hands { IfOk result
        (λ r. (stolen_tiles r.stolen ≡ length work.entry.tiles.now)
        × (length (stolen_hands r.stolen) ≡ workers + 1)) }
{
    let count = work.tiles.len() as u32;
    let asked = AskedTiles::of(work);
    let (batches, stolen) = run_stolen(rt, alloc, workers, count, &asked, gate)?;
    Ok(StolenTiles { batches, stolen })
}

/// Frees what was stolen by `workers` workers: there is a hand for each of them, and one for the caller.
pub(crate) fn let_go(stolen: Stolen, workers: u32)
    requires { length (stolen_hands stolen) ≡ workers + 1 }
{
    drop(stolen);
}
