//! The copper of a pad: its rounded rectangle and the primitives around it, where they lie on the board.

ghost use Rattle.std.specs.Prelude.{◌≡◌, ◌<◌, ◌++◌, All, IfOk, List, Option, Some, None, if◌then◌else◌};
ghost use Rattle.one_item.specs.declared.parts.Part.{Part};
ghost use Rattle.part_read.specs.There.{both, after};
ghost use Rattle.part_read.specs.Figures.{drawn, IsDrawable};
ghost use Rattle.part_read.specs.Placements.{IsPlacementRawPoint};
ghost use Rattle.pad_read.specs.PadShapes.{IsSmall};
ghost use Rattle.pad_read.specs.PadFrames.{IsFramed};
ghost use Rattle.pad_read.specs.PadOf.{all_drawn, copper_of, middle_of, frame_copper};

use crate::forms::Form;
use crate::pads::Frame;
use crate::rounded_rects::{rounded_rect_at, turned_rounded_rect};
use crate::turning::has_copper;
use board_items::{Part, Parts};
use copper_layers::LayerSet;
use part_read::{Drawing, Placement, draw_into, no_parts, stand};
use smallvec::SmallVec;
use std::alloc::{AllocError, Global};

/// Appends the parts that a drawing gives on these layers and answers true, unless it leaves the
/// board.
fn draw_next(
    alloc: Global,
    layers: LayerSet,
    placement: Placement,
    drawing: &Drawing,
    list: &mut SmallVec<Part, 1>,
) -> Result<bool, AllocError>
    requires quarter { placement.quarter < 4 }
    requires at { IsPlacementRawPoint placement.at }
    requires drawable { IsDrawable drawing.now }
    ensures { IfOk result (λ drew. (rest : Option (List Part)) →
        after list.old.items (both (λ ps qs. ps ++ qs) (drawn layers placement drawing.now) rest)
        ≡ (if drew then after list.new.items rest else None)) }
{
    let drew = draw_into(alloc, layers, placement, drawing, list)?;
    Ok(drew)
}

/// Appends the parts that all drawings give on these layers and answers true, unless one leaves the
/// board.
fn draw_all(
    alloc: Global,
    layers: LayerSet,
    placement: Placement,
    drawings: &[Drawing],
    list: &mut SmallVec<Part, 1>,
) -> Result<bool, AllocError>
    requires quarter { placement.quarter < 4 }
    requires at { IsPlacementRawPoint placement.at }
    requires drawable { All IsDrawable drawings.now }
    ensures { IfOk result (λ drew. after list.old.items (all_drawn layers placement drawings.now)
        ≡ (if drew then Some list.new.items else None)) }
{
    for drawing in drawings {
        if !draw_next(alloc, layers, placement, drawing, list)? {
            return Ok(false);
        }
    }
    Ok(true)
}

/// The copper of a form that stands so, unless it leaves the board.
fn copper_of(
    alloc: Global,
    layers: LayerSet,
    placement: Placement,
    form: &Form,
) -> Result<Option<Parts>, AllocError>
    requires quarter { placement.quarter < 4 }
    requires at { IsPlacementRawPoint placement.at }
    requires small { IsSmall form.now.rounded_rect }
    ensures { IfOk result (λ parts. parts ≡ copper_of layers placement form.now) }
{
    let rounded_rect = turned_rounded_rect(placement.quarter, form.rounded_rect);
    let Some(shape) = rounded_rect_at(alloc, placement.at, rounded_rect)? else {
        return Ok(None);
    };
    let mut list = SmallVec::new(alloc);
    list.push_reserved(Part { layers, shape });
    match draw_all(
        alloc,
        layers,
        placement,
        form.primitives.as_slice(),
        &mut list,
    ) {
        Ok(true) => Ok(Some(Parts::of(list))),
        Ok(false) => {
            drop(list);
            Ok(None)
        }
        Err(error) => {
            drop(list);
            Err(error)
        }
    }
}

/// The middle of the copper of a pad: its offset is turned with it.
pub(crate) fn middle_of(frame: Frame) -> Placement
    requires { IsFramed frame }
    ensures middle { result ≡ middle_of frame }
    ensures within { IsPlacementRawPoint result.at }
{
    let placement = Placement {
        quarter: frame.quarter,
        at: frame.at,
    };
    Placement {
        quarter: frame.quarter,
        at: stand(placement, frame.drilling.offset),
    }
}

/// The copper of a pad on these layers, unless it leaves the board.
pub(crate) fn frame_copper(
    alloc: Global,
    layers: LayerSet,
    frame: Frame,
    form: &Form,
) -> Result<Option<Parts>, AllocError>
    requires framed { IsFramed frame }
    requires small { IsSmall form.now.rounded_rect }
    ensures { IfOk result (λ parts. parts ≡ frame_copper layers frame form.now) }
{
    if !has_copper(frame.pad_type, layers, frame.sizes, frame.drilling.sizes) {
        return Ok(Some(no_parts(alloc)));
    }
    copper_of(alloc, layers, middle_of(frame), form)
}
