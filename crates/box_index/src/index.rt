//! The index.

ghost use Rattle.std.specs.Prelude.{◌≡◌, ◌<◌, ◌≤ℤ◌, pos, ◌&&◌, false, [], ℕ, length, slice_index_or, filter, All, IfOk, OnOk, OnErr};
ghost use Rattle.geo_seg.specs.Boxes.{widened, FitsIndex};
ghost use Rattle.box_index.specs.declared.entry.Entry.{Entry};
ghost use Rattle.box_index.specs.Areas.{has_tile};
ghost use Rattle.box_index.specs.TileRanges.{HasAll};
ghost use Rattle.box_index.specs.Tiles.{PlainIndex, IsSoundIndex, IsComplete, AnswersForNone, IsAbsent, OwnsBoth, meets_tile, near_of, owner_of, margin, placed, without, held_of, is_held, dirty_of, numbers_below, tile_count};

use crate::area::Area;
use crate::entry::Entry;
use crate::fills::filled;
use crate::grid::Grid;
use crate::kept::KeptBoxes;
use crate::lanes::{LANES, TILES, owner, widen};
use crate::spans::Span;
use crate::walks::mark_boxes;
use geo_seg::Bounds;
use std::alloc::{AllocError, Global};
use std::marker::Model;

/// A length in nanometres.
pub type Nm = i64;

/// The boxes of items, found by tiles of 8 mm. Contracts see the plain list of entries by rising id, and the reach.
///
/// It takes boxes that are not empty and reach no farther than 2,000,000,000 half nanometres from the axes, and widens
/// them by the reach on each side.
#[derive(Drop)]
pub struct TileIndex {
    reach: Nm,
    // the box of each id
    boxes: KeptBoxes,
    // of each tile the entries that meet it, by rising id
    grid: Grid,
    // how many tiles hold an entry
    held: u32,
}

impl Model for TileIndex {
    ghost use Rattle.std.specs.Prelude.{◌≡◌, length};
    ghost use Rattle.box_index.specs.Tiles.{PlainIndex, IsSoundIndex, near_of, held_of};
    ghost use Rattle.box_index.specs.SharedLists.{AreShared, IsEvenAt};

    ghost Value = { PlainIndex };

    ghost view = { λ t. record { reach = t.reach; entries = t.boxes } };

    ghost invariant = { λ t. IsSoundIndex (record { reach = t.reach; entries = t.boxes })
        × AreShared (near_of (record {
          reach = t.reach;
          entries = t.boxes;
        })) t.grid.tiles.items t.grid.lists.items
        × IsEvenAt t.grid.even t.grid.tiles.items
        × (t.held ≡ length (held_of (record { reach = t.reach; entries = t.boxes }))) };
}

impl TileIndex {
    /// An index without entries. The reach is from 0 to 500,000,000 nanometres. Only running out of memory refuses it.
    pub fn new(alloc: Global, reach: Nm) -> Result<TileIndex, AllocError>
        requires from { pos 0 ≤ℤ reach }
        requires to { reach ≤ℤ pos 500000000 }
        ensures { IfOk result (λ index. index ≡ record { reach = reach; entries = [] }) }
    {
        Ok(TileIndex {
            reach,
            boxes: KeptBoxes::new(alloc),
            grid: Grid::new(alloc)?,
            held: 0,
        })
    }

    /// An equal index. Only running out of memory refuses it.
    pub fn copy(&self) -> Result<TileIndex, AllocError>
        ensures { IfOk result (λ copy. copy ≡ self.now) }
    {
        Ok(TileIndex {
            reach: self.reach,
            boxes: self.boxes.copy()?,
            grid: self.grid.copy()?,
            held: self.held,
        })
    }

    /// Puts an entry into each tile that is met by the bounds, where they are widened by the reach. No entry has the id
    /// yet. Only running out of memory refuses it, and the index is then as it was.
    pub fn insert(&mut self, id: u32, bounds: Bounds) -> Result<(), AllocError>
        requires bounds { FitsIndex bounds }
        requires absent { IsAbsent id self.old.entries }
        ensures ok { OnOk result (self.new ≡ record self.old {
          entries = placed
              (record { id = id; bounds = bounds }) self.old.entries;
        }) }
        ensures unchanged { OnErr result (self.new ≡ self.old) }
    {
        let entry = Entry { id, bounds };
        let area = Area::around(2 * self.reach, bounds);
        self.grid.reserve_one(area)?;
        self.boxes.put(entry)?;
        self.held += self.grid.vacant(area);
        self.grid.put(area, entry);
        Ok(())
    }

    /// Takes out the entry of this id, if there is one. It takes no memory.
    pub fn remove(&mut self, id: u32)
        ensures { self.new ≡ record self.old { entries = without id self.old.entries } }
    {
        if let Some(entry) = self.boxes.take_out(id) {
            let area = Area::around(2 * self.reach, entry.bounds);
            self.grid.take_out(area, id);
            self.held -= self.grid.vacant(area);
        }
    }

    /// The entries that meet a tile where they are widened by the reach, by rising id, lent; none at a tile past the last. The
    /// tile that answers for two near entries lends both. It takes no memory.
    pub fn near(&self, tile: u32) -> &[Entry]
        ensures entries { result.now ≡ near_of self.now tile }
        ensures complete { IsComplete self.now }
        ensures sound { IsSoundIndex self.now }
    {
        let tile = tile as usize;
        if tile < TILES {
            &self.grid.at(tile).entries
        } else {
            &[]
        }
    }

    /// The tile that answers for a pair, the box of the lesser id first: that of the left top corner of what the first,
    /// widened by the reach, shares with the second. Where the two meet so, it is met by both widened boxes, whether they
    /// are in the index or not. It takes no memory.
    pub fn owner(&self, first: Bounds, second: Bounds) -> u32
        requires first { FitsIndex first }
        requires second { FitsIndex second }
        ensures value { result ≡ owner_of (margin self.now) first second }
        ensures within { result < tile_count }
        ensures both { OwnsBoth (margin self.now) first second result }
    {
        owner(2 * self.reach, first, second) as u32
    }

    /// The box, widened by the reach: what it meets, also by touching, is near the box. It takes no memory.
    pub fn widened(&self, bounds: Bounds) -> Bounds
        requires { FitsIndex bounds }
        ensures { result ≡ widened bounds (margin self.now) }
    {
        widen(bounds, 2 * self.reach)
    }

    /// The tiles that the box meets where it is widened by the reach: those that lend the box's entry, where it is in the
    /// index. It takes no memory.
    pub fn area(&self, bounds: Bounds) -> Area
        requires { FitsIndex bounds }
        ensures tiles { (tile : ℕ) → has_tile result tile
            ≡ meets_tile (widened bounds (margin self.now)) tile }
        ensures sound { IsSoundIndex self.now }
    {
        Area::around(2 * self.reach, bounds)
    }

    /// Whether the tile may answer for two of the entries that are near each other. Only a no is sure: no entry begins in its
    /// column or right of it, or none in its row or below. It takes no memory.
    pub fn may_answer(&self, tile: u32) -> bool
        ensures { result ≡ false → AnswersForNone self.now tile }
    {
        let tile = tile as usize;
        if tile >= TILES {
            return true;
        }
        let last = self.grid.at(tile).last;
        tile % LANES <= last.column && tile / LANES <= last.row
    }

    /// Whether the tile holds an entry.
    fn holds(&self, tile: usize) -> bool
        requires { tile < tile_count }
        ensures { result ≡ is_held self.now tile }
    {
        !self.grid.at(tile).entries.is_empty()
    }

    /// How many tiles hold an entry. It takes no memory.
    pub fn held(&self) -> u32
        ensures { result ≡ length (held_of self.now) }
    {
        self.held
    }

    /// The numbers, rising, of the tiles with an entry that one of the boxes meets once it is widened by the reach; with
    /// `all`, of all tiles with an entry. Only running out of memory refuses it.
    pub fn dirty(&self, boxes: &[Bounds], all: bool) -> Result<Vec<u32>, AllocError>
        requires { All (λ b. FitsIndex b) boxes.now }
        ensures tiles { IfOk result (λ tiles. tiles.items ≡ dirty_of self.now boxes.now all) }
        ensures sound { IsSoundIndex self.now }
    {
        let alloc = *self.grid.tiles.allocator();
        // What no box marks is not walked over.
        if boxes.is_empty() && !all {
            return Ok(Vec::new(alloc));
        }
        let mut marks = filled(alloc, all)?;
        mark_boxes(&mut marks, 2 * self.reach, boxes);
        let span = Span::reached(2 * self.reach, boxes, all);
        self.marked(alloc, &marks, span)
    }

    /// Whether the tile holds an entry and is marked.
    fn holds_marked(&self, marks: &[bool], tile: usize) -> bool
        requires marks { length marks.now ≡ tile_count }
        requires within { tile < tile_count }
        ensures { result ≡ (is_held self.now tile && slice_index_or marks.now tile false) }
    {
        // Few tiles are marked, and the mark is at hand.
        marks[tile] && self.holds(tile)
    }

    /// The marked tiles that hold an entry. All that are marked lie in the span.
    fn marked(&self, alloc: Global, marks: &[bool], span: Span) -> Result<Vec<u32>, AllocError>
        requires long { length marks.now ≡ tile_count }
        requires span { HasAll (λ tile. slice_index_or marks.now tile false) span }
        ensures { IfOk result (λ tiles. tiles.items ≡ filter
            (λ tile. is_held self.now tile && slice_index_or marks.now tile false)
            (numbers_below tile_count)) }
    {
        let mut tiles = Vec::new(alloc);
        for tile in span.first..span.end {
            if self.holds_marked(marks, tile) {
                tiles.push(tile as u32)?;
            }
        }
        Ok(tiles)
    }
}
