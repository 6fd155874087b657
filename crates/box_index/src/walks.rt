//! Walks over the tiles of an area.

ghost use Rattle.std.specs.Prelude.{◌≡◌, ℕ, ◌<◌, ◌≤◌, length, true, slice_index_or, Bool, List, All, pos, ◌≤ℤ◌, ◌||◌};
ghost use Rattle.geo_seg.specs.Boxes.{FitsIndex};
ghost use Rattle.box_index.specs.declared.entry.Entry.{Entry};
ghost use Rattle.box_index.specs.Tiles.{is_met_by, tile_count};
ghost use Rattle.box_index.specs.Areas.{end_of, IsSubarea};
ghost use Rattle.box_index.specs.AreaWalks.{IsChanged};
ghost use Rattle.box_index.specs.SharedLists.{AreHomed, AreReady, AreRising, AreShared, AreListsChanged, CanTake, IsEven, IsPut, IsEntryRemoved, DoMeetAll, vacant_of};

use crate::area::Area;
use crate::entry::Entry;
use crate::shared::Shared;
use geo_seg::Bounds;

/// Whether all tiles of the area have the same list.
pub(crate) fn is_even(tiles: &[u32], area: Area) -> bool
    requires { length tiles.now ≡ tile_count }
    ensures { result ≡ true → IsEven area tiles.now }
{
    let end = area.end();
    let number = tiles[area.first()];
    let mut tile = area.first();
    'tiles: while tile < end {
        if tiles[tile] != number {
            return false;
        }
        tile = area.after(tile);
    }
    true
}

/// Puts the entry into the list of each tile of the area. All that is met beyond the end is met before it.
pub(crate) fn put_each(tiles: &[u32], lists: &mut [Shared], area: Area, end: usize, entry: Entry)
    requires homed { AreHomed tiles.now lists.old }
    requires ready { AreReady area tiles.now lists.old }
    requires open { CanTake entry area tiles.now lists.old }
    requires fits { FitsIndex entry.bounds }
    requires end { end ≤ end_of area }
    requires all { DoMeetAll area tiles.now end }
    ensures { AreListsChanged (IsPut entry)
        (λ list. IsSubarea list.home area) area tiles.now lists.old lists.new }
{
    let mut tile = area.first();
    'tiles: while tile < end {
        lists[tiles[tile] as usize].put(entry);
        tile = area.after(tile);
    }
}

/// Takes the entry of this id out of the list of each tile of the area. All that is met beyond the end is met before it.
pub(crate) fn take_out_each(tiles: &[u32], lists: &mut [Shared], area: Area, end: usize, id: u32)
    requires homed { AreHomed tiles.now lists.old }
    requires rising { AreRising area tiles.now lists.old }
    requires end { end ≤ end_of area }
    requires all { DoMeetAll area tiles.now end }
    ensures { AreListsChanged (IsEntryRemoved id) (λ list.
        Unit) area tiles.now lists.old lists.new }
{
    let mut tile = area.first();
    'tiles: while tile < end {
        lists[tiles[tile] as usize].take_out(id);
        tile = area.after(tile);
    }
}

/// How many tiles of the area have no entries.
pub(crate) fn count_vacant(tiles: &[u32], lists: &[Shared], area: Area) -> u32
    requires { AreHomed tiles.now lists.now }
    ensures { (near : ℕ → List Entry) → AreShared near tiles.now lists.now
        → result ≡ length (vacant_of near area) }
{
    let end = area.end();
    let mut count = 0;
    let mut tile = area.first();
    'tiles: while tile < end {
        if lists[tiles[tile] as usize].entries.is_empty() {
            count += 1;
        }
        tile = area.after(tile);
    }
    count
}

/// Gives each tile of the area the value.
pub(crate) fn fill_area<T: Copy>(values: &mut [T], area: Area, value: T)
    requires { length values.old ≡ tile_count }
    ensures { IsChanged (λ was is. is ≡ value) area values.old values.new }
{
    let end = area.end();
    let mut tile = area.first();
    'tiles: while tile < end {
        values[tile] = value;
        tile = area.after(tile);
    }
}

/// Marks each tile that is met by one of the boxes, where these are widened by the margin, in half nanometres.
pub(crate) fn mark_boxes(marks: &mut [bool], margin: i64, boxes: &[Bounds])
    requires long { length marks.old ≡ tile_count }
    requires from { pos 0 ≤ℤ margin }
    requires to { margin ≤ℤ pos 1000000000 }
    requires boxes { All (λ b. FitsIndex b) boxes.now }
    ensures { (tile : ℕ) → (d : Bool) → tile < tile_count
        → slice_index_or marks.new tile d
        ≡ (slice_index_or marks.old tile d || is_met_by margin boxes.now tile) }
{
    for bounds in boxes {
        fill_area(marks, Area::around(margin, *bounds), true);
    }
}
