//! Blocks of the entries of a tile, each under one box, so that what is far is passed over together.

ghost use Rattle.std.specs.Prelude.{◌≡◌, ◌<◌, true, All, IfOk, ◌∷◌};
ghost use Rattle.geo_seg.specs.Boxes.{IsPartOf};
ghost use Rattle.row_check.specs.Blocks.{AreBlocks, AreBoxes, IsFar};

use box_index::{Entry, do_boxes_meet};
use geo_seg::Bounds;
use std::alloc::{AllocError, Global};

/// How many entries have one box in a short block.
pub(crate) const SHORT: usize = 4;

/// And in a long one.
pub(crate) const LONG: usize = 32;

/// The boxes of blocks of both sizes, the last block first. Blocks are counted from the end, so that they are the same for each end
/// of the entries.
#[derive(Clone, Copy)]
pub(crate) struct Boxes<'a> {
    pub(crate) short: &'a [Bounds],
    pub(crate) long: &'a [Bounds],
}

/// The boxes of no blocks.
pub(crate) fn no_boxes<'a>(_entries: &[Entry]) -> Boxes<'a>
    ensures { AreBoxes result _entries.now }
{
    Boxes {
        short: &[],
        long: &[],
    }
}

/// A box that holds the first and the others.
fn box_with(first: &Entry, others: &[Entry]) -> Bounds
    ensures { All (λ e. IsPartOf e.bounds result) (first.now ∷ others.now) }
{
    let mut bounds = first.bounds;
    for entry in others {
        bounds = bounds.union(entry.bounds);
    }
    bounds
}

/// A box that holds all of the block.
fn box_of(block: &[Entry]) -> Bounds
    ensures { All (λ e. IsPartOf e.bounds result) block.now }
{
    match block.split_first() {
        Some((first, others)) => box_with(first, others),
        None => Bounds {
            left: 0,
            top: 0,
            right: 0,
            bottom: 0,
        },
    }
}

/// The boxes of all blocks of so many entries, the last block first. Only running out of memory refuses it.
pub(crate) fn boxes_of(
    alloc: Global,
    entries: &[Entry],
    size: usize,
) -> Result<Vec<Bounds>, AllocError>
    requires { 0 < size }
    ensures { IfOk result (λ boxes. AreBlocks size boxes.items entries.now) }
{
    let mut boxes = Vec::new(alloc);
    let mut left = entries;
    'walk: while size <= left.len() {
        let (prefix, block) = left.split_at(left.len() - size);
        boxes.push(box_of(block))?;
        left = prefix;
    }
    Ok(boxes)
}

/// Whether so many entries begin with a block whose box does not meet the wide one. Only a yes is sure.
#[inline(always)]
pub(crate) fn is_far(wide: Bounds, size: usize, boxes: &[Bounds], count: usize) -> bool
    requires { 0 < size }
    ensures { result ≡ true → IsFar wide size boxes.now count }
{
    // only whole blocks have boxes
    if count % size != 0 || count < size {
        return false;
    }
    match boxes.get(count / size - 1) {
        Some(bounds) => !do_boxes_meet(wide, *bounds),
        None => false,
    }
}
