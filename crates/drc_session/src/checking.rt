//! Rows from nothing, and rows after an edit.

ghost use Rattle.std.specs.Prelude.{◌≡◌, ◌<◌, true, false, List, length, All, IfOk};
ghost use Rattle.std.specs.List.Sorted.{IsStrictlyIncreasing};
ghost use Rattle.plain_types.specs.Limits.{IsWorkerCount};
ghost use Rattle.geo_seg.specs.declared.boxes.Bounds.{Bounds};
ghost use Rattle.geo_seg.specs.Boxes.{FitsIndex};
ghost use Rattle.box_index.specs.Tiles.{dirty_of, held_of};
ghost use Rattle.pair_check.specs.CheckViews.{checked_by, IsWholeView};
ghost use Rattle.pair_check.specs.Rows.{Checked, AreRows};
ghost use Rattle.row_check.specs.RowsOfTile.{IsIndexOf};
ghost use Rattle.row_check.specs.Whole.{AreEnough};
ghost use Rattle.kept_rows.specs.CheckChanges.{IsCheckChange};
ghost use Rattle.drc_session.specs.Sessions.{IsDealt};

use crate::applied::Applied;
use box_index::TileIndex;
use geo_seg::Bounds;
use kept_rows::update_rows;
use row_check::{CheckView, Row, all_rows, ids_of};
use std::alloc::{AllocError, Global};
use std::thread::Threads;
use tile_pool::Gate;
use tile_rows::{Tiles, test_tiles};

/// All rows of what is checked: all tiles that hold an item are gone through.
pub(crate) fn check_all<R: Threads + Sync, G: Gate>(
    rt: &R,
    alloc: Global,
    workers: u32,
    view: CheckView<'_>,
    index: &TileIndex,
    gate: &G,
) -> Result<(Vec<Row>, Applied), AllocError>
    requires workers { IsWorkerCount workers }
    requires view { IsWholeView view }
    requires index { IsIndexOf (checked_by view) index.now }
    ensures rows { IfOk result (λ r. AreRows (checked_by view.entry) r.0.items) }
    ensures dealt { IfOk result (λ r. IsDealt workers r.1) }
    ensures tiles { IfOk result (λ r. (boxes : List Bounds)
        → r.1.tiles.items ≡ dirty_of index.now boxes true) }
    ensures held { IfOk result (λ r. r.1.held ≡ length (held_of index.now)) }
{
    let tiles = index.dirty(&[], true)?;
    let ids = ids_of(alloc, view.board)?;
    let work = Tiles {
        view,
        index,
        tiles: &tiles,
        changed: &ids,
    };
    let (batches, dealt) = test_tiles(rt, alloc, workers, work, gate)?;
    let rows = all_rows(alloc, &view, index, &ids, &tiles, &batches)?;
    let applied = Applied {
        dealt,
        tiles,
        held: index.held(),
    };
    Ok((rows, applied))
}

/// Makes the rows before an edit those of what is checked now. `changed` are the ids of all that changed, rising, and the boxes are theirs,
/// as they were and as they are: the tiles that these meet are gone through. Only running out of memory fails it, and the rows are then of
/// no use.
pub(crate) fn check_near<R: Threads + Sync, G: Gate>(
    rt: &R,
    alloc: Global,
    workers: u32,
    near: Near<'_>,
    rows: &mut Vec<Row>,
    gate: &G,
) -> Result<Applied, AllocError>
    requires workers { IsWorkerCount workers }
    requires view { IsWholeView near.view }
    requires index { IsIndexOf (checked_by near.view) near.index.now }
    requires changed { IsStrictlyIncreasing near.changed.now }
    requires boxes { All FitsIndex near.boxes.now }
    requires enough { AreEnough near.index.now near.changed.now
        (dirty_of near.index.now near.boxes.now false) }
    ensures rows { (old : Checked) → IsCheckChange old
        (checked_by near.entry.view) near.entry.changed.now
        → AreRows old rows.old.items
        → IfOk result (λ _. AreRows (checked_by near.entry.view) rows.new.items) }
    ensures dealt { IfOk result (λ applied. IsDealt workers applied) }
    ensures tiles { IfOk result (λ applied. applied.tiles.items
        ≡ dirty_of near.entry.index.now near.entry.boxes.now false) }
    ensures held { IfOk result (λ applied. applied.held ≡ length (held_of near.entry.index.now)) }
{
    let tiles = near.index.dirty(near.boxes, false)?;
    let work = Tiles {
        view: near.view,
        index: near.index,
        tiles: &tiles,
        changed: near.changed,
    };
    let (batches, dealt) = test_tiles(rt, alloc, workers, work, gate)?;
    update_rows(
        alloc,
        &near.view,
        near.index,
        rows,
        near.changed,
        &tiles,
        &batches,
    )?;
    Ok(Applied {
        dealt,
        tiles,
        held: near.index.held(),
    })
}

/// What is checked after an edit: through this view, by this index, of which these ids changed, with these boxes before and after.
#[derive(Drop)]
pub(crate) struct Near<'a> {
    pub(crate) view: CheckView<'a>,
    pub(crate) index: &'a TileIndex,
    pub(crate) changed: &'a [u32],
    pub(crate) boxes: &'a [Bounds],
}
