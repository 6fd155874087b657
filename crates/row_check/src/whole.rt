//! The rows of many tiles and items, and of a whole board.

ghost use Rattle.std.specs.Prelude.{◌≡◌, ◌<◌, ℕ, true, List, ◌++◌, take, IfOk, IfSome, OnOk, OnErr};
ghost use Rattle.std.specs.List.{AllZip, flat_map};
ghost use Rattle.std.specs.List.Sorted.{IsStrictlyIncreasing};
ghost use Rattle.box_index.specs.Tiles.{IsSoundIndex};
ghost use Rattle.pair_check.specs.Alone.{AreEnoughAlone, BreaksNothing};
ghost use Rattle.pair_check.specs.Pairs.{Deciders};
ghost use Rattle.pair_check.specs.PlainRow.{PlainRow};
ghost use Rattle.pair_check.specs.Rows.{AreRows, AreRowsOfItem, AreRowsWhere};
ghost use Rattle.pair_check.specs.CheckViews.{checked_by, deciders_of, IsWholeView};
ghost use Rattle.row_check.specs.Asks.{AreAsksOf};
ghost use Rattle.row_check.specs.RowsOfTile.{IsIndexOf, AreRowsOfTile};
ghost use Rattle.row_check.specs.EntryWalks.{HasAddedRows};
ghost use Rattle.row_check.specs.Whole.{AreEnough, AreOnceWhere, AreSingles, IsOfTiles, IsOfChanged, ids_of};

use crate::asks::PairAsks;
use crate::batch::TileRows;
use crate::order::put_in_order;
use crate::sound::soundness;
use crate::tile::test_tile_by;
use board_items::{Board, Item};
use box_index::TileIndex;
use pair_check::{CheckView, Enough, Row, Steps, enough_alone, test_item};
use std::alloc::{AllocError, Global};
use std::marker::Brand;
use std::sync::ledger::{Blank, Ledger};

/// The ids of all items of the board, which rise. Only running out of memory refuses it.
pub fn ids_of(alloc: Global, board: &Board) -> Result<Vec<u32>, AllocError>
    ensures ids { IfOk result (λ ids. ids.items ≡ ids_of board.now) }
    ensures rise { IfOk result (λ ids. IsStrictlyIncreasing ids.items) }
{
    let mut ids = Vec::new(alloc);
    for (id, _) in board.iter() {
        ids.push(id)?;
    }
    Ok(ids)
}

/// Appends the rows of a tile.
fn push_tile<L: Ledger>(
    view: &CheckView,
    asks: PairAsks,
    index: &TileIndex,
    tile: u32,
    changed: &[u32],
    rows: &mut Vec<Row>,
    steps: &mut Steps<L>,
) -> Result<(), AllocError>
    requires view { IsWholeView view.now }
    requires asks { AreAsksOf (deciders_of view.now) asks }
    requires index { IsIndexOf (checked_by view.now) index.now }
    requires changed { IsStrictlyIncreasing changed.now }
    ensures { OnOk result
        (HasAddedRows (AreRowsOfTile (checked_by view.now) index.now tile changed.now)
        rows.old.items rows.new.items) }
{
    let alloc = *rows.allocator();
    let found = test_tile_by(alloc, view, asks, index, tile, changed, steps)?;
    rows.extend_from_slice(&found)?;
    Ok(())
}

/// The rows of the pairs that the tiles answer for.
fn rows_of_tiles<L: Ledger>(
    alloc: Global,
    view: &CheckView,
    index: &TileIndex,
    tiles: &[u32],
    changed: &[u32],
    steps: &mut Steps<L>,
) -> Result<Vec<Row>, AllocError>
    requires view { IsWholeView view.now }
    requires index { IsIndexOf (checked_by view.now) index.now }
    requires sound { IsSoundIndex index.now }
    requires tiles { IsStrictlyIncreasing tiles.now }
    requires changed { IsStrictlyIncreasing changed.now }
    ensures { IfOk result
        (λ rows. AreOnceWhere
        (IsOfTiles (checked_by view.now) index.now tiles.now changed.now) rows.items) }
{
    let asks = PairAsks::by(view);
    let mut rows = Vec::new(alloc);
    for tile in tiles {
        push_tile(view, asks, index, *tile, changed, &mut rows, steps)?;
    }
    Ok(rows)
}

/// Whether the item is known to break nothing. Only a yes is sure.
fn breaks_nothing(enough: Option<Enough>, item: &Item) -> bool
    ensures { (d : Deciders) → IfSome enough (AreEnoughAlone d) → result ≡ true
        → BreaksNothing d item.now }
{
    match enough {
        Some(enough) => enough.is_had_by(item),
        None => false,
    }
}

/// Appends the rows of a single item, if there is one of the id. Most items have enough of all that is asked for.
fn push_single(
    alloc: Global,
    view: &CheckView,
    enough: Option<Enough>,
    id: u32,
    rows: &mut Vec<Row>,
) -> Result<(), AllocError>
    requires view { IsWholeView view.now }
    requires enough { IfSome enough (AreEnoughAlone (deciders_of view.now)) }
    ensures rows { OnOk result
        (HasAddedRows (AreRowsOfItem (checked_by view.now) id) rows.old.items rows.new.items) }
    ensures same { OnErr result (rows.new.items ≡ rows.old.items) }
{
    match view.board.get(id) {
        None => Ok(()),
        Some(item) => {
            if breaks_nothing(enough, item) {
                return Ok(());
            }
            let found = test_item(alloc, view, id);
            rows.extend_from_slice(found.as_slice())?;
            Ok(())
        }
    }
}

/// Appends the rows of each of these items alone, in order. The ids rise; one that no item has gives none. Only running out of memory
/// fails it; what was in the list is then followed by the rows of some of the first ids alone.
pub fn push_singles(
    alloc: Global,
    view: &CheckView,
    ids: &[u32],
    rows: &mut Vec<Row>,
) -> Result<(), AllocError>
    requires view { IsWholeView view.now }
    requires rise { IsStrictlyIncreasing ids.now }
    ensures rows { OnOk result
        (HasAddedRows (AreSingles (checked_by view.now) ids.now) rows.old.items rows.new.items) }
    ensures first { OnErr result
        ((count : ℕ) × HasAddedRows
        (AreSingles (checked_by view.now) (take count ids.now)) rows.old.items rows.new.items) }
{
    let enough = enough_alone(view);
    for id in ids {
        push_single(alloc, view, enough, *id, rows)?;
    }
    Ok(())
}

/// Appends the rows of each batch. Only running out of memory fails it; what was in the list is then followed by the rows of the first
/// batches alone.
pub fn push_batches(rows: &mut Vec<Row>, batches: &[TileRows]) -> Result<(), AllocError>
    ensures rows { OnOk result
        (rows.new.items ≡ rows.old.items ++ flat_map
        (λ (batch : List PlainRow). batch) batches.now) }
    ensures first { OnErr result
        ((count : ℕ) × (rows.new.items ≡ rows.old.items ++ flat_map
        (λ (batch : List PlainRow). batch) (take count batches.now))) }
{
    for batch in batches {
        // most tiles have no rows
        if !batch.as_slice().is_empty() {
            rows.extend_from_slice(batch.as_slice())?;
        }
    }
    Ok(())
}

/// The rows of what changed, with a blank for the count of the steps that they take.
fn rows_counted<L: Ledger>(
    alloc: Global,
    view: &CheckView,
    index: &TileIndex,
    tiles: &[u32],
    changed: &[u32],
    blank: Blank,
) -> Result<Vec<Row>, AllocError>
    requires name { blank.name ≡ L.name }
    requires parts { blank.parts ≡ L.parts }
    requires some { 0 < blank.parts }
    requires view { IsWholeView view.now }
    requires index { IsIndexOf (checked_by view.now) index.now }
    requires sound { IsSoundIndex index.now }
    requires tiles { IsStrictlyIncreasing tiles.now }
    requires changed { IsStrictlyIncreasing changed.now }
    ensures { IfOk result
        (λ rows. AreRowsWhere
        (IsOfChanged (checked_by view.now) index.now tiles.now changed.now) rows.items) }
{
    let mut steps: Steps<L> = Steps::new(blank);
    let mut rows = rows_of_tiles(alloc, view, index, tiles, changed, &mut steps)?;
    push_singles(alloc, view, changed, &mut rows)?;
    put_in_order(&mut rows)?;
    Ok(rows)
}

/// The rows of what changed: those of all pairs that have an id in `changed` and for which one of the tiles answers, and those of
/// the single items in `changed`; by the first id, then by the second, then by the number of the kind.
///
/// `tiles` and `changed` rise. The index holds the items of the board under their bounds, and reaches as far as anything is
/// asked for. Only running out of memory refuses it.
pub fn rows_of_changed(
    alloc: Global,
    view: &CheckView,
    index: &TileIndex,
    tiles: &[u32],
    changed: &[u32],
) -> Result<Vec<Row>, AllocError>
    requires view { IsWholeView view.now }
    requires index { IsIndexOf (checked_by view.now) index.now }
    requires tiles { IsStrictlyIncreasing tiles.now }
    requires changed { IsStrictlyIncreasing changed.now }
    ensures { IfOk result
        (λ rows. AreRowsWhere
        (IsOfChanged (checked_by view.now) index.now tiles.now changed.now) rows.items) }
{
    soundness(index);
    rows_counted::<Brand>(alloc, view, index, tiles, changed, Blank::new(1))
}

/// All rows of the board under its classes and rules, by the first id, then by the second, then by the number of the kind.
///
/// The index holds the items of the board under their bounds, and reaches as far as anything is asked for. Two items are
/// compared in one tile, and only where their bounds, widened so, meet. Only running out of memory refuses it.
pub fn rows_of(alloc: Global, view: &CheckView, index: &TileIndex) -> Result<Vec<Row>, AllocError>
    requires view { IsWholeView view.now }
    requires index { IsIndexOf (checked_by view.now) index.now }
    ensures { IfOk result (λ rows. AreRows (checked_by view.now) rows.items) }
{
    let tiles = index.dirty(&[], true)?;
    let ids = ids_of(alloc, view.board)?;
    rows_of_changed(alloc, view, index, &tiles, &ids)
}

/// The rows of all that is checked. `ids` are those of all items, and the batches are the rows of all tiles that hold an entry. The tiles
/// tell the contract alone which rows these are. Only running out of memory refuses it.
pub fn all_rows(
    alloc: Global,
    view: &CheckView,
    index: &TileIndex,
    ids: &[u32],
    tiles: &[u32],
    batches: &[TileRows],
) -> Result<Vec<Row>, AllocError>
    requires view { IsWholeView view.now }
    requires index { IsIndexOf (checked_by view.now) index.now }
    requires ids { ids.now ≡ ids_of (checked_by view.now).board }
    requires rise { IsStrictlyIncreasing ids.now }
    requires enough { AreEnough index.now ids.now tiles.now }
    requires batches { AllZip
        (λ tile batch. AreRowsOfTile (checked_by view.now) index.now tile ids.now batch) tiles.now
        batches.now }
    ensures { IfOk result (λ rows. AreRows (checked_by view.now) rows.items) }
{
    soundness(index);
    let mut rows = Vec::new(alloc);
    push_singles(alloc, view, ids, &mut rows)?;
    push_batches(&mut rows, batches)?;
    put_in_order(&mut rows)?;
    Ok(rows)
}
