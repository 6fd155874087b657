//! Calls on an index. Most have one box: the first part has the reach in nanometres, the id and the sides of the box in half
//! nanometres: left, top, right and bottom. `ids_near` has the reach and a tile there, and a box in each other part.

ghost use Rattle.std.specs.Prelude.{pos, IfOk};
ghost use Rattle.geo_seg.specs.Boxes.{FitsWithin};

use box_index::TileIndex;
use case_lines::{Fault, add, crosses_threads, parts_of, small, told};
use geo_seg::Bounds;
use std::alloc::Global;

/// The number of tiles of a board.
const TILES: u32 = 15_625;

/// A box that is not empty and lies no farther out than an index takes.
fn bounds(sides: &[i64]) -> Result<Bounds, Fault>
    ensures { IfOk result (λ b. FitsWithin (pos 2000000000) b) }
{
    let [left, top, right, bottom] = sides else {
        return Err(Fault::BadNumber);
    };
    let (left, top, right, bottom) = (*left, *top, *right, *bottom);
    if left < -2_000_000_000 || right < left || 2_000_000_000 < right {
        return Err(Fault::BadNumber);
    }
    if top < -2_000_000_000 || bottom < top || 2_000_000_000 < bottom {
        return Err(Fault::BadNumber);
    }
    Ok(Bounds {
        left,
        top,
        right,
        bottom,
    })
}

/// The index of one box.
fn index(alloc: Global, part: &[i64]) -> Result<TileIndex, Fault> {
    let [reach, id, sides @ ..] = part else {
        return Err(Fault::BadNumber);
    };
    let reach = *reach;
    if reach < 0 || 500_000_000 < reach {
        return Err(Fault::BadNumber);
    }
    let mut index = TileIndex::new(alloc, reach)?;
    index.insert(small(*id)?, bounds(sides)?)?;
    Ok(index)
}

/// The numbers, or `none`.
fn shown(alloc: Global, numbers: &[u32]) -> Result<Vec<u8>, Fault> {
    if numbers.is_empty() {
        return Ok(b"none".to_vec(alloc)?);
    }
    let mut out = Vec::new(alloc);
    for number in numbers {
        let space: &[u8] = if out.is_empty() { b"" } else { b" " };
        add(&mut out, space)?;
        add(&mut out, format!(in alloc; "{number}")?.as_bytes())?;
    }
    Ok(out)
}

/// All tiles that the box is near, and one past the last.
fn near(alloc: Global, index: &TileIndex) -> Result<Vec<u8>, Fault> {
    let mut tiles = Vec::new(alloc);
    for tile in 0..TILES + 1 {
        if !index.near(tile).is_empty() {
            tiles.push(tile)?;
        }
    }
    shown(alloc, &tiles)
}

/// Puts in a box, in place of that of its id, or takes the id out where there are no sides.
fn put_or_take(index: &mut TileIndex, step: &[i64]) -> Result<(), Fault> {
    let [id, sides @ ..] = step else {
        return Err(Fault::BadNumber);
    };
    let id = small(*id)?;
    index.remove(id);
    if sides.is_empty() {
        return Ok(());
    }
    Ok(index.insert(id, bounds(sides)?)?)
}

/// The ids that the tile lends once all steps are done, from a copy of the index.
fn ids_near(alloc: Global, first: &[i64], steps: &[Vec<i64>]) -> Result<Vec<u8>, Fault> {
    let [reach, tile] = first else {
        return Err(Fault::BadNumber);
    };
    let (reach, tile) = (*reach, small(*tile)?);
    if reach < 0 || 500_000_000 < reach {
        return Err(Fault::BadNumber);
    }
    let mut index = TileIndex::new(alloc, reach)?;
    for step in steps {
        put_or_take(&mut index, step)?;
    }
    let copy = index.copy()?;
    let mut ids = Vec::new(alloc);
    for entry in copy.near(tile) {
        ids.push(entry.id)?;
    }
    shown(alloc, &ids)
}

/// The answer of a call on an index, and on what another part has.
fn asked(
    alloc: Global,
    name: &str,
    mut index: TileIndex,
    other: Option<&Vec<i64>>,
) -> Result<Vec<u8>, Fault> {
    match (name, other) {
        ("near_tiles", None) => near(alloc, &index),
        ("held", None) => told(alloc, &index.held()),
        ("dirty", None) => shown(alloc, &index.dirty(&[], true)?),
        ("dirty", Some(sides)) => shown(alloc, &index.dirty(&[bounds(sides)?], false)?),
        ("remove", Some(ids)) => {
            index.remove(small(*ids.first().ok_or(Fault::BadNumber)?)?);
            told(alloc, &index.held())
        }
        _ => Err(Fault::UnknownCall),
    }
}

/// The answer of the call of this name, from a copy of the index.
pub fn answer(alloc: Global, name: &str, written: &str) -> Result<Vec<u8>, Fault> {
    let parts = parts_of(alloc, written)?;
    let Some((first, others)) = parts.split_first() else {
        return Err(Fault::UnknownCall);
    };
    if name == "ids_near" {
        return ids_near(alloc, first, others);
    }
    let index = index(alloc, first)?.copy()?;
    crosses_threads(&index);
    asked(alloc, name, index, others.first())
}
