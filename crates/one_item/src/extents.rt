//! The bounds of an item.

ghost use Rattle.std.specs.Prelude.{◌≡◌, ◌++◌, List, Option, IfSome, [], ◌∷◌};
ghost use Rattle.geo_seg.specs.declared.boxes.Bounds.{Bounds};
ghost use Rattle.geo_seg.specs.Boxes.{FitsShape};
ghost use Rattle.one_item.specs.declared.parts.Part.{Part};
ghost use Rattle.one_item.specs.Extents.{AreBoundsOf};
ghost use Rattle.one_item.specs.ItemParts.{parts_of, hole_parts, kind_parts};

use crate::item::{Hole, Item, What};
use crate::parts::Part;
use geo_seg::{Bounds, Shape};
use std::slice;

/// The box around what was found so far and one shape more.
fn grown(found: Option<Bounds>, shape: &Shape) -> Bounds
    requires fits { IfSome found FitsShape }
    ensures grown { (parts : List Part) (part : Part) → part.shape ≡ shape.now
        → AreBoundsOf parts found →
        AreBoundsOf (parts ++ part ∷ []) (Some result) }
    ensures fits { FitsShape result }
{
    let bounds = shape.bounds();
    match found {
        None => bounds,
        Some(box_so_far) => box_so_far.union(bounds),
    }
}

/// The box around what was found so far and more parts.
fn around(found: Option<Bounds>, parts: &[Part]) -> Option<Bounds>
    requires fits { IfSome found FitsShape }
    ensures grown { (before : List Part) → AreBoundsOf before found
        → AreBoundsOf (before ++ parts.now) result }
    ensures fits { IfSome result FitsShape }
{
    let mut so_far = found;
    for part in parts {
        so_far = Some(grown(so_far, &part.shape));
    }
    so_far
}

/// The box around what was found so far and a hole.
fn around_hole(found: Option<Bounds>, hole: &Option<Hole>) -> Option<Bounds>
    requires fits { IfSome found FitsShape }
    ensures grown { (before : List Part) → AreBoundsOf before found → AreBoundsOf (before ++
        hole_parts hole.now) result }
    ensures fits { IfSome result FitsShape }
{
    match hole {
        None => found,
        Some(hole) => Some(grown(found, &hole.shape)),
    }
}

impl What {
    /// The parts that the kind gives, as the lines of an edge or the courtyards of a footprint: the first list, and then
    /// the second.
    pub fn parts(&self) -> (&[Part], &[Part])
        ensures { result.0.now ++ result.1.now ≡ kind_parts self.now }
    {
        match self {
            What::Edge { lines } => (lines.get().as_slice(), &[]),
            What::Area { shape, .. } => (slice::from_ref(shape.get()), &[]),
            What::Body { front, back, .. } => (front.get().as_slice(), back.get().as_slice()),
            What::Track { .. }
            | What::Via { .. }
            | What::Pad { .. }
            | What::Graphic
            | What::Fill
            | What::Note { .. } => (&[], &[]),
        }
    }
}

impl Item {
    /// The least box that holds its copper, its hole, and the lines, the area or the courtyards that its kind has, each
    /// with its radius; None exactly where it has none of them. The box is in half nanometres.
    pub fn bounds(&self) -> Option<Bounds>
        ensures least { AreBoundsOf (parts_of self.now) result }
        ensures fits { IfSome result FitsShape }
    {
        let (first, second) = self.what.parts();
        let copper = around(None, self.copper.as_slice());
        let drilled = around_hole(copper, &self.hole);
        around(around(drilled, first), second)
    }
}
