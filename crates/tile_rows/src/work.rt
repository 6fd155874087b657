//! Tiles as the work of workers.

ghost use Rattle.std.specs.Prelude.{◌≡◌, ◌<◌, IfOk};
ghost use Rattle.pair_check.specs.CheckViews.{deciders_of};
ghost use Rattle.row_check.specs.Asks.{AreAsksOf};
ghost use Rattle.tile_rows.specs.Work.{AreReady, AreRowsOf};

use box_index::TileIndex;
use row_check::{CheckView, PairAsks, Row, Steps, TileRows, test_tile_by};
use std::alloc::{AllocError, Global};
use std::marker::Brand;
use std::sync::ledger::{Blank, Ledger};
use tile_pool::TileWork;

/// Tiles of which the rows with an id that changed are wanted. The index is that of what is checked through the view, and the ids that
/// changed rise.
#[derive(Drop)]
pub struct Tiles<'a> {
    pub view: CheckView<'a>,
    pub index: &'a TileIndex,
    pub tiles: &'a [u32],
    pub changed: &'a [u32],
}

/// Tiles with what rules and the board ask of pairs, found once for all of them. The number k of the work is `tiles[k]`, and gives the
/// rows of all pairs with an id that changed for which this tile answers.
#[derive(Drop)]
pub struct AskedTiles<'a> {
    pub(crate) tiles: Tiles<'a>,
    pub(crate) asks: PairAsks,
}

impl<'a> AskedTiles<'a> {
    /// These tiles, with what is asked of pairs there. It takes no memory.
    pub fn of(tiles: Tiles<'a>) -> AskedTiles<'a>
        ensures tiles { result.tiles ≡ tiles.entry }
        ensures asks { AreAsksOf (deciders_of tiles.entry.view) result.asks }
    {
        let asks = PairAsks::by(&tiles.view);
        AskedTiles { tiles, asks }
    }
}

/// The rows of a tile, on a counter of its own.
fn rows_counted<L: Ledger>(
    alloc: Global,
    work: &AskedTiles<'_>,
    tile: u32,
    blank: Blank,
) -> Result<Vec<Row>, AllocError>
    requires name { blank.name ≡ L.name }
    requires parts { blank.parts ≡ L.parts }
    requires some { 0 < blank.parts }
    requires ready { AreReady work.now }
    ensures { IfOk result (λ rows. AreRowsOf work.now.tiles tile rows.items) }
{
    let mut steps: Steps<L> = Steps::new(blank);
    test_tile_by(
        alloc,
        &work.tiles.view,
        work.asks,
        work.tiles.index,
        tile,
        work.tiles.changed,
        &mut steps,
    )
}

/// The rows of a tile.
fn rows_of_tile(alloc: Global, work: &AskedTiles<'_>, tile: u32) -> Result<TileRows, AllocError>
    requires { AreReady work.now }
    ensures { IfOk result (AreRowsOf work.now.tiles tile) }
{
    let rows = rows_counted::<Brand>(alloc, work, tile, Blank::new(1))?;
    Ok(TileRows::of(rows))
}

impl<'a> TileWork for AskedTiles<'a> {
    type Out = TileRows;

    ghost use Rattle.std.specs.Prelude.{length};
    ghost use Rattle.tile_rows.specs.Work.{AreReady, AreRowsAt};

    ghost ready = { AreReady };

    ghost count = { λ work. length work.tiles.tiles.now };

    ghost gives = { λ work. AreRowsAt work.tiles };

    fn test(&self, alloc: Global, number: u32) -> Result<TileRows, AllocError> {
        rows_of_tile(alloc, self, self.tiles.tiles[number as usize])
    }
}
