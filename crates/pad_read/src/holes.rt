//! The hole of a pad: round or oval, through all copper layers, at the position of the pad.

ghost use Rattle.std.specs.Prelude.{◌≡◌, IfOk, IfSome};
ghost use Rattle.plain_types.specs.Lengths.{is_length};
ghost use Rattle.part_read.specs.OnBoard.{tested};
ghost use Rattle.part_read.specs.Placements.{IsPlacementRawPoint};
ghost use Rattle.pad_read.specs.PadSizes.{AreRead, least_of};
ghost use Rattle.pad_read.specs.PadFrames.{IsFramed, is_plated};
ghost use Rattle.pad_read.specs.PadOf.{hole_with, hole_of, frame_hole};

use crate::pads::{Frame, PadType};
use crate::rounded_rects::{oval_rounded_rect, rounded_rect_at, turned_rounded_rect};
use crate::sizes::{Sizes, least_of};
use crate::turning::hole_sizes;
use board_items::Hole;
use copper_layers::LayerSet;
use geo_seg::Shape;
use part_read::RawPoint;
use plain_types::is_length;
use std::alloc::{AllocError, Global};

/// Whether the hole of a pad of this type is plated.
fn is_plated(pad_type: PadType) -> bool
    ensures { result ≡ is_plated pad_type }
{
    matches!(pad_type, PadType::ThruHole)
}

/// The hole of these sizes and this shape, unless its smaller size is above 500 mm.
fn hole_with(layers: LayerSet, plated: bool, sizes: Sizes, shape: Shape) -> Option<Hole>
    ensures { result ≡ tested (is_length (least_of sizes)) (hole_with layers plated sizes shape) }
{
    let least = least_of(sizes);
    if !is_length(least) {
        return None;
    }
    Some(Hole {
        shape,
        layers,
        plated,
        least,
    })
}

/// A hole of these sizes, round or oval, through these layers, unless it leaves the board.
fn hole_of(
    alloc: Global,
    layers: LayerSet,
    at: RawPoint,
    quarter: u32,
    plated: bool,
    sizes: Option<Sizes>,
) -> Result<Option<Option<Hole>>, AllocError>
    requires at { IsPlacementRawPoint at }
    requires read { IfSome sizes AreRead }
    ensures { IfOk result (λ hole. hole ≡ hole_of layers at quarter plated sizes) }
{
    let Some(sizes) = sizes else {
        return Ok(Some(None));
    };
    let rounded_rect = turned_rounded_rect(quarter, oval_rounded_rect(sizes));
    let Some(shape) = rounded_rect_at(alloc, at, rounded_rect)? else {
        return Ok(None);
    };
    match hole_with(layers, plated, sizes, shape) {
        Some(hole) => Ok(Some(Some(hole))),
        None => Ok(None),
    }
}

/// The hole of a pad, if it has one, unless it leaves the board. It stands at the position of the
/// pad and is turned with it.
pub(crate) fn frame_hole(
    alloc: Global,
    copper: LayerSet,
    frame: Frame,
) -> Result<Option<Option<Hole>>, AllocError>
    requires { IsFramed frame }
    ensures { IfOk result (λ hole. hole ≡ frame_hole copper frame) }
{
    let sizes = hole_sizes(frame.pad_type, frame.drilling.sizes);
    let plated = is_plated(frame.pad_type);
    hole_of(alloc, copper, frame.at, frame.quarter, plated, sizes)
}
