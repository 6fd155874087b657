//! Lists that several tiles share, parted where an area has only some of these tiles.

ghost use Rattle.std.specs.Prelude.{◌≡◌, ℕ, ◌<◌, true, false, List, length, slice_index_or, IfOk, IfSome, OnOk};
ghost use Rattle.box_index.specs.declared.entry.Entry.{Entry};
ghost use Rattle.box_index.specs.declared.shared.Shared.{Shared};
ghost use Rattle.box_index.specs.Tiles.{tile_count};
ghost use Rattle.box_index.specs.Areas.{has_tile};
ghost use Rattle.box_index.specs.SharedLists.{AreHomed, AreShared, AreReady, IsEven, HasMoved, HasSameEntries, IsParted, IsReady, list_at};

use crate::area::Area;
use crate::shared::Shared;
use crate::walks::fill_area;
use std::alloc::AllocError;

/// The list that was parted last, and the one that was made of it: further tiles of the area that have the first get the second.
#[derive(Clone, Copy)]
pub(crate) struct Parted {
    pub(crate) from: u32,
    pub(crate) to: u32,
}

/// Gives the tile the list that was made last, where it has the one of which that was made and the new one is at home there. Says
/// whether it did.
fn take_made(tiles: &mut [u32], lists: &[Shared], tile: usize, parted: Parted) -> bool
    requires homed { AreHomed tiles.old lists.now }
    requires within { tile < tile_count }
    requires to { parted.to < length lists.now }
    requires alike { (s : Shared) → HasSameEntries (slice_index_or lists.now parted.from s)
        (slice_index_or lists.now parted.to s) }
    ensures moved { HasMoved tile tiles.old lists.now tiles.new lists.now }
    ensures taken { result ≡ true → (d : ℕ) → slice_index_or tiles.new tile d ≡ parted.to }
    ensures left { result ≡ false → tiles.new ≡ tiles.old }
{
    let takes = tiles[tile] == parted.from && lists[parted.to as usize].home.has(tile);
    if takes {
        tiles[tile] = parted.to;
    }
    takes
}

/// Gives the tile a list of its own or of the area's tiles, made of the one that it has.
fn make_list(
    tiles: &mut [u32],
    lists: &mut Vec<Shared>,
    area: Area,
    tile: usize,
) -> Result<Parted, AllocError>
    requires homed { AreHomed tiles.old lists.old.items }
    requires within { tile < tile_count }
    requires inside { has_tile area tile ≡ true }
    ensures moved { HasMoved tile tiles.old lists.old.items tiles.new lists.new.items }
    ensures parted { IfOk result (λ p. IsParted area p lists.new.items) }
    ensures ready { OnOk result ((d : ℕ) (s : Shared)
        → IsReady area (list_at tiles.new lists.new.items tile d s)) }
{
    let from = tiles[tile];
    let list = &lists[from as usize];
    let made = list.moved_to(list.home.home(area, tile))?;
    let Ok(to) = u32::try_from(lists.len()) else {
        return Err(AllocError);
    };
    lists.push(made)?;
    tiles[tile] = to;
    Ok(Parted { from, to })
}

/// Sees to it that the tile has a list that is of tiles of the area alone, with room for one more entry.
fn part_tile(
    tiles: &mut [u32],
    lists: &mut Vec<Shared>,
    area: Area,
    tile: usize,
    parted: Option<Parted>,
) -> Result<Option<Parted>, AllocError>
    requires homed { AreHomed tiles.old lists.old.items }
    requires within { tile < tile_count }
    requires inside { has_tile area tile ≡ true }
    requires parted { IfSome parted (λ p. IsParted area p lists.old.items) }
    ensures moved { HasMoved tile tiles.old lists.old.items tiles.new lists.new.items }
    ensures parted { IfOk result (λ last. IfSome last (λ p. IsParted area p lists.new.items)) }
    ensures ready { OnOk result ((d : ℕ) (s : Shared)
        → IsReady area (list_at tiles.new lists.new.items tile d s)) }
{
    if let Some(made) = parted {
        if take_made(tiles, lists, tile, made) {
            return Ok(parted);
        }
    }
    let number = tiles[tile] as usize;
    if lists[number].home.lies_in(area) {
        lists[number].reserve_one()?;
        return Ok(parted);
    }
    let made = make_list(tiles, lists, area, tile)?;
    Ok(Some(made))
}

/// Sees to it that each tile of the area has a list that is of such tiles alone, with room for one more entry. What each tile has
/// stays.
pub(crate) fn part_each(
    tiles: &mut [u32],
    lists: &mut Vec<Shared>,
    area: Area,
) -> Result<(), AllocError>
    requires { AreHomed tiles.old lists.old.items }
    ensures homed { AreHomed tiles.new lists.new.items }
    ensures shared { (near : ℕ → List Entry) → AreShared near tiles.old lists.old.items
        → AreShared near tiles.new lists.new.items }
    ensures ready { OnOk result (AreReady area tiles.new lists.new.items) }
{
    let end = area.end();
    let mut tile = area.first();
    let mut parted = None;
    'tiles: while tile < end {
        parted = part_tile(tiles, lists, area, tile, parted)?;
        tile = area.after(tile);
    }
    Ok(())
}

/// Sees to the same where all tiles of the area have one list. They have one afterwards, too.
pub(crate) fn part_one(
    tiles: &mut [u32],
    lists: &mut Vec<Shared>,
    area: Area,
) -> Result<(), AllocError>
    requires homed { AreHomed tiles.old lists.old.items }
    requires even { IsEven area tiles.old }
    ensures even { IsEven area tiles.new }
    ensures shared { (near : ℕ → List Entry) → AreShared near tiles.old lists.old.items
        → AreShared near tiles.new lists.new.items }
    ensures ready { OnOk result (AreReady area tiles.new lists.new.items) }
{
    let first = area.first();
    let list = &lists[tiles[first] as usize];
    let made = list.moved_to(list.home.common(area, first))?;
    let Ok(to) = u32::try_from(lists.len()) else {
        return Err(AllocError);
    };
    lists.push(made)?;
    fill_area(tiles, area, to);
    Ok(())
}
