//! The entries of each tile. Tiles that have the same may share a list: an area or a fill lies in thousands of tiles.

ghost use Rattle.std.specs.Prelude.{◌≡◌, ℕ, ◌<◌, ◌≤◌, true, List, [], ◌∷◌, ◌++◌, length, IfOk, OnOk};
ghost use Rattle.std.specs.List.{AllZip};
ghost use Rattle.geo_seg.specs.Boxes.{FitsIndex};
ghost use Rattle.box_index.specs.declared.entry.Entry.{Entry};
ghost use Rattle.box_index.specs.declared.shared.Shared.{Shared};
ghost use Rattle.box_index.specs.Tiles.{tile_count};
ghost use Rattle.box_index.specs.Areas.{has_tile, end_of, IsSubarea};
ghost use Rattle.box_index.specs.SharedLists.{AreHomed, AreShared, AreReady, AreRising, CanTake, IsEven, IsEvenAt, IsEqual, IsPutNear, IsTakenNear, DoMeetAll, list_at, vacant_of};

use crate::area::Area;
use crate::entry::Entry;
use crate::fills::filled;
use crate::parting::{part_each, part_one};
use crate::shared::Shared;
use crate::walks::{count_vacant, is_even, put_each, take_out_each};
use std::alloc::{AllocError, Global};

/// The lists of all tiles.
///
/// A list is at home in an area, and only tiles of that have it. So an entry that is near each tile of an area goes into the lists that
/// are at home within the area as they are, and the others are parted first. No two lists are ever joined.
#[derive(Drop)]
pub(crate) struct Grid {
    /// Of each tile the number of its list.
    pub(crate) tiles: Vec<u32>,
    pub(crate) lists: Vec<Shared>,
    /// An area of which all tiles have the same list, so that one of them stands for all.
    pub(crate) even: Option<Area>,
}

impl Grid {
    /// Tiles without entries. Only running out of memory refuses it.
    pub(crate) fn new(alloc: Global) -> Result<Grid, AllocError>
        ensures shared { IfOk result (λ grid. AreShared (λ tile.
            []) grid.tiles.items grid.lists.items) }
        ensures even { IfOk result (λ grid. IsEvenAt grid.even grid.tiles.items) }
    {
        let mut lists = Vec::new(alloc);
        lists.push(Shared::new(alloc, Area::all()))?;
        Ok(Grid {
            tiles: filled(alloc, 0)?,
            lists,
            even: None,
        })
    }

    /// Equal lists of all tiles. Only running out of memory refuses it.
    pub(crate) fn copy(&self) -> Result<Grid, AllocError>
        ensures shared { IfOk result (λ copy. (near : ℕ → List Entry)
            → AreShared near self.now.tiles.items self.now.lists.items
            → AreShared near copy.tiles.items copy.lists.items) }
        ensures even { IsEvenAt self.now.even self.now.tiles.items
            → IfOk result (λ copy. IsEvenAt copy.even copy.tiles.items) }
    {
        Ok(Grid {
            tiles: copy_numbers(*self.tiles.allocator(), &self.tiles)?,
            lists: copy_lists(&self.lists)?,
            even: self.even,
        })
    }

    /// Whether all tiles of the area are known to have the same list.
    fn is_known_even(&self, area: Area) -> bool
        requires { IsEvenAt self.now.even self.now.tiles.items }
        ensures { result ≡ true → IsEven area self.now.tiles.items }
    {
        match self.even {
            Some(even) => area.lies_in(even),
            None => false,
        }
    }

    /// The area, where it is wide and all its tiles have one list, or else the one that was known so far.
    fn even_with(&self, area: Area) -> Option<Area>
        requires homed { AreHomed self.now.tiles.items self.now.lists.items }
        requires even { IsEvenAt self.now.even self.now.tiles.items }
        ensures { IsEvenAt result self.now.tiles.items }
    {
        if area.is_wide() && !self.is_known_even(area) && is_even(&self.tiles, area) {
            Some(area)
        } else {
            self.even
        }
    }

    /// Where a walk over the area that meets each of its lists may end.
    fn end_of_walk(&self, area: Area) -> usize
        requires { IsEvenAt self.now.even self.now.tiles.items }
        ensures all { DoMeetAll area self.now.tiles.items result }
        ensures within { result ≤ end_of area }
    {
        if self.is_known_even(area) {
            area.first() + 1
        } else {
            area.end()
        }
    }

    /// Whether the tiles of the area are known to have the same list, and no other tile has it.
    fn is_one(&self, area: Area) -> bool
        requires homed { AreHomed self.now.tiles.items self.now.lists.items }
        requires even { IsEvenAt self.now.even self.now.tiles.items }
        ensures even { result ≡ true → IsEven area self.now.tiles.items }
        ensures lies { result ≡ true → (tile d : ℕ) (s : Shared) → has_tile area tile ≡ true
            → IsSubarea (list_at self.now.tiles.items self.now.lists.items tile d s).home area }
    {
        self.is_known_even(area) && self.at(area.first()).home.lies_in(area)
    }

    /// Whether the tiles of the area are known to have the same list, and it has an entry.
    fn is_filled(&self, area: Area) -> bool
        requires homed { AreHomed self.now.tiles.items self.now.lists.items }
        requires even { IsEvenAt self.now.even self.now.tiles.items }
        ensures { result ≡ true → (near : ℕ → List Entry)
            → AreShared near self.now.tiles.items self.now.lists.items → vacant_of near area ≡ [] }
    {
        self.is_known_even(area) && !self.at(area.first()).entries.is_empty()
    }

    /// How many tiles of the area have no entries.
    pub(crate) fn vacant(&self, area: Area) -> u32
        requires homed { AreHomed self.now.tiles.items self.now.lists.items }
        requires even { IsEvenAt self.now.even self.now.tiles.items }
        ensures { (near : ℕ → List Entry) → AreShared near self.now.tiles.items self.now.lists.items
            → result ≡ length (vacant_of near area) }
    {
        if self.is_filled(area) {
            return 0;
        }
        count_vacant(&self.tiles, &self.lists, area)
    }

    /// The list of a tile.
    pub(crate) fn at(&self, tile: usize) -> &Shared
        requires homed { AreHomed self.now.tiles.items self.now.lists.items }
        requires within { tile < tile_count }
        ensures { (d : ℕ) (s : Shared)
            → result.now ≡ list_at self.now.tiles.items self.now.lists.items tile d s }
    {
        &self.lists[self.tiles[tile] as usize]
    }

    /// Sees to it that the lists of an area's tiles are theirs alone, and that each has room for one more entry. What each tile has
    /// stays. Only running out of memory refuses it.
    pub(crate) fn reserve_one(&mut self, area: Area) -> Result<(), AllocError>
        requires homed { AreHomed self.old.tiles.items self.old.lists.items }
        requires even { IsEvenAt self.old.even self.old.tiles.items }
        ensures shared { (near : ℕ → List Entry)
            → AreShared near self.old.tiles.items self.old.lists.items
            → AreShared near self.new.tiles.items self.new.lists.items }
        ensures even { IsEvenAt self.new.even self.new.tiles.items }
        ensures ready { OnOk result (AreReady area self.new.tiles.items self.new.lists.items) }
    {
        self.even = self.even_with(area);
        if self.is_one(area) {
            let number = self.tiles[area.first()] as usize;
            return self.lists[number].reserve_one();
        }
        if area.is_wide() && self.is_known_even(area) {
            self.even = Some(area);
            return part_one(&mut self.tiles, &mut self.lists, area);
        }
        self.even = None;
        part_each(&mut self.tiles, &mut self.lists, area)
    }

    /// Puts the entry into the list of each tile of the area. There is room for it.
    pub(crate) fn put(&mut self, area: Area, entry: Entry)
        requires homed { AreHomed self.old.tiles.items self.old.lists.items }
        requires even { IsEvenAt self.old.even self.old.tiles.items }
        requires ready { AreReady area self.old.tiles.items self.old.lists.items }
        requires open { CanTake entry area self.old.tiles.items self.old.lists.items }
        requires fits { FitsIndex entry.bounds }
        ensures shared { (near now : ℕ → List Entry)
            → AreShared near self.old.tiles.items self.old.lists.items
            → IsPutNear entry area near now
            → AreShared now self.new.tiles.items self.new.lists.items }
        ensures even { IsEvenAt self.new.even self.new.tiles.items }
    {
        let end = self.end_of_walk(area);
        put_each(&self.tiles, &mut self.lists, area, end, entry);
    }

    /// Takes the entry of this id, if there is one, out of the list of each tile of the area.
    pub(crate) fn take_out(&mut self, area: Area, id: u32)
        requires homed { AreHomed self.old.tiles.items self.old.lists.items }
        requires even { IsEvenAt self.old.even self.old.tiles.items }
        requires rising { AreRising area self.old.tiles.items self.old.lists.items }
        ensures shared { (near now : ℕ → List Entry)
            → AreShared near self.old.tiles.items self.old.lists.items
            → IsTakenNear id area near now
            → AreShared now self.new.tiles.items self.new.lists.items }
        ensures even { IsEvenAt self.new.even self.new.tiles.items }
    {
        let end = self.end_of_walk(area);
        take_out_each(&self.tiles, &mut self.lists, area, end, id);
    }
}

/// A copy of the numbers.
fn copy_numbers(alloc: Global, numbers: &[u32]) -> Result<Vec<u32>, AllocError>
    ensures { IfOk result (λ copy. copy.items ≡ numbers.now) }
{
    let mut copy = Vec::with_capacity(alloc, numbers.len())?;
    copy.extend_from_slice(numbers)?;
    Ok(copy)
}

/// Appends an equal list.
fn push_copy(copies: &mut Vec<Shared>, list: &Shared) -> Result<(), AllocError>
    ensures { OnOk result ((lists : List Shared) → AllZip IsEqual lists copies.old.items
        → AllZip IsEqual (lists ++ list.now ∷ []) copies.new.items) }
{
    copies.push(list.copy()?)?;
    Ok(())
}

/// Equal lists.
fn copy_lists(lists: &Vec<Shared>) -> Result<Vec<Shared>, AllocError>
    ensures { IfOk result (λ copy. AllZip IsEqual lists.now.items copy.items) }
{
    let mut copies = Vec::with_capacity(*lists.allocator(), lists.len())?;
    for list in lists {
        push_copy(&mut copies, list)?;
    }
    Ok(copies)
}
