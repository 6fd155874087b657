//! The courtyard of a side: its figures and the closed outlines of its lines, where it has no curve
//! and no loose line.

ghost use Rattle.std.specs.Prelude.{◌≡◌, ◌<◌, ◌++◌, map, IfOk, OnOk, All, option_map};
ghost use Rattle.part_read.specs.Placements.{IsPlacementRawPoint};
ghost use Rattle.part_read.specs.Figures.{IsDrawable};
ghost use Rattle.footprint_read.specs.Bare.{AreBare};
ghost use Rattle.footprint_read.specs.Courtyards.{seg_of, segs_of, figure_parts, outline_part, parts_in, IsCourt};

use crate::closing::{is_closed, is_long};
use crate::sides::{CourtSide, RawSegment};
use board_items::{Part, Parts};
use copper_layers::LayerSet;
use courtyard::closed_outlines;
use geo_seg::{Core, Poly, Seg};
use part_read::{Drawing, Placement, around, draw_into, no_radius, point_at};
use smallvec::SmallVec;
use std::alloc::{AllocError, Global};

/// What a side of a footprint keeps clear.
#[derive(Drop)]
pub enum Court {
    /// It has a curve or a loose line, and is not checked.
    Unchecked,
    /// What lies within these parts, none where the side has no courtyard.
    Parts(Parts),
    /// It leaves the board, or the diameter of a circle is above 500 mm.
    Off,
}

// ---- lines

/// The line, unless an end lies off the board.
fn seg_of(line: RawSegment) -> Option<Seg>
    ensures { result ≡ seg_of line }
{
    let Some(a) = point_at(line.a) else {
        return None;
    };
    let Some(b) = point_at(line.b) else {
        return None;
    };
    Some(Seg { a, b })
}

/// The lines that have a length, unless one of them leaves the board.
fn segs_of(alloc: Global, lines: &[RawSegment]) -> Result<Option<Vec<Seg>>, AllocError>
    ensures { IfOk result (λ segs. option_map (λ found. found.items) segs ≡ segs_of lines.now) }
{
    let mut segs = Vec::new(alloc);
    for line in lines {
        if !is_long(*line) {
            continue;
        }
        let Some(seg) = seg_of(*line) else {
            return Ok(None);
        };
        segs.push(seg)?;
    }
    Ok(Some(segs))
}

// ---- figures

/// The parts of all figures, unless one leaves the board or its diameter is above 500 mm. An
/// outline keeps the boxes of its runs of corners.
fn figure_parts(
    alloc: Global,
    placement: Placement,
    drawings: &[Drawing],
) -> Result<Option<SmallVec<Part, 1>>, AllocError>
    requires quarter { placement.quarter < 4 }
    requires at { IsPlacementRawPoint placement.at }
    requires drawable { All IsDrawable drawings.now }
    ensures { IfOk result (λ parts.
        option_map (λ found. found.items) parts ≡ figure_parts placement drawings.now) }
{
    let layers = LayerSet { bits: 0 };
    let mut parts = SmallVec::new(alloc);
    for drawing in drawings {
        if !draw_into(alloc, layers, placement, drawing, &mut parts)? {
            drop(parts);
            return Ok(None);
        }
    }
    Ok(Some(parts))
}

// ---- the whole side

/// What a closed outline encloses.
fn outline_part(poly: Poly) -> Part
    ensures { result ≡ outline_part poly }
{
    Part {
        layers: LayerSet { bits: 0 },
        shape: around(no_radius(), Core::Area(poly)),
    }
}

/// Puts what these outlines enclose behind the others.
fn append_outlines(parts: &mut SmallVec<Part, 1>, polys: Vec<Poly>) -> Result<(), AllocError>
    ensures { OnOk result (parts.new.items ≡ parts.old.items ++ map outline_part polys.items) }
{
    for poly in polys {
        parts.push(outline_part(poly))?;
    }
    Ok(())
}

/// The courtyard of a side, in the footprint that stands so: its figures, and then the closed
/// outlines of its lines.
#[tactic(auto, using(crate::proofs::Bared::court_bare))]
pub(crate) fn court_of(
    alloc: Global,
    placement: Placement,
    side: &CourtSide,
) -> Result<Court, AllocError>
    requires quarter { placement.quarter < 4 }
    requires at { IsPlacementRawPoint placement.at }
    ensures court { IfOk result (IsCourt placement side.now) }
    ensures bare { IfOk result (λ court. AreBare (parts_in court)) }
{
    let court = court_by(alloc, placement, side)?;
    Ok(court)
}

/// The courtyard of a side, by its definition alone.
fn court_by(alloc: Global, placement: Placement, side: &CourtSide) -> Result<Court, AllocError>
    requires quarter { placement.quarter < 4 }
    requires at { IsPlacementRawPoint placement.at }
    ensures { IfOk result (IsCourt placement side.now) }
{
    if side.curved {
        return Ok(Court::Unchecked);
    }
    if !is_closed(alloc, side.lines.as_slice())? {
        return Ok(Court::Unchecked);
    }
    let Some(segs) = segs_of(alloc, side.lines.as_slice())? else {
        return Ok(Court::Off);
    };
    let polys = closed_outlines(alloc, &segs)?;
    let mut parts = match figure_parts(alloc, placement, side.drawings.as_slice()) {
        Ok(Some(parts)) => parts,
        Ok(None) => {
            drop(polys);
            return Ok(Court::Off);
        }
        Err(error) => {
            drop(polys);
            return Err(error);
        }
    };
    match append_outlines(&mut parts, polys) {
        Ok(()) => Ok(Court::Parts(Parts::of(parts))),
        Err(error) => {
            drop(parts);
            Err(error)
        }
    }
}
