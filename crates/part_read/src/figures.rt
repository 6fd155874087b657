//! What graphics draw, and the parts that they give where they lie on a board.

ghost use Rattle.std.specs.Prelude.{◌≡◌, ◌<◌, ◌≤◌, ◌∷◌, ◌++◌, [], true, OnOk, Some, None, if◌then◌else◌, length, option_map, IfOk};
ghost use Rattle.plain_types.specs.Lengths.{is_length};
ghost use Rattle.part_read.specs.There.{both, after};
ghost use Rattle.part_read.specs.Placements.{IsReadRawPoint, IsPlacementRawPoint};
ghost use Rattle.part_read.specs.declared.figures.Figure.{Figure};
ghost use Rattle.part_read.specs.declared.figures.Drawing.{Drawing};
ghost use Rattle.part_read.specs.Figures.{sides, box_corners, box_core, line_cores, line_between, box_between, cores_around, cores_of, parts_around, radius_with, drawn, drawn_edge, first_raw_point, is_ring, is_circle, HasReach, IsDrawable};

use crate::corners::Corners;
use crate::numbers::RawPoint;
use crate::placements::{Placement, point_stood, points_stood};
use crate::radii::Radius;
use crate::rounding::{around, radius_of};
use board_items::{Nm, Part, Parts};
use copper_layers::LayerSet;
use geo_seg::{Core, Point, Poly, Seg, Shape};
use plain_types::{is_length, one};
use smallvec::SmallVec;
use std::alloc::{AllocError, Global};

/// What a graphic draws, in nanometres, relative to what it stands on.
#[derive(Drop)]
pub enum Figure {
    Line(RawPoint, RawPoint),
    /// A rectangle, by two opposite corners.
    Rect(RawPoint, RawPoint),
    /// A circle, by its centre and its radius.
    Circle(RawPoint, Nm),
    Outline(Corners),
}

/// A figure, the width with which it is drawn, and whether it is filled.
#[derive(Drop)]
pub struct Drawing {
    pub figure: Figure,
    pub width: Nm,
    pub filled: bool,
}

// ---- cores

/// The lines between the corners, of which there is one at least.
fn side_cores(alloc: Global, corners: &[Point]) -> Result<Vec<Core>, AllocError>
    requires { 1 ≤ length corners.now }
    ensures { IfOk result (λ cores. cores.items ≡ line_cores (sides corners.now)) }
{
    let mut cores = Vec::with_capacity(alloc, corners.len())?;
    let first = corners[0];
    let mut last = first;
    for corner in &corners[1..] {
        cores.push(Core::Line(Seg {
            a: last,
            b: *corner,
        }))?;
        last = *corner;
    }
    cores.push(Core::Line(Seg { a: last, b: first }))?;
    Ok(cores)
}

/// The corners of a box, of which two that lie across are given.
fn box_corners(p: Point, q: Point) -> [Point; 4]
    ensures { result ≡ box_corners p q }
{
    [p, Point { x: q.x, y: p.y }, q, Point { x: p.x, y: q.y }]
}

/// A box, or a line where it has no extent in one direction.
pub fn box_core(alloc: Global, p: Point, q: Point) -> Result<Core, AllocError>
    ensures { IfOk result (λ core. core ≡ box_core p q) }
{
    if p.x == q.x || p.y == q.y {
        return Ok(Core::Line(Seg { a: p, b: q }));
    }
    let mut corners = Vec::with_capacity(alloc, 4)?;
    corners.extend_from_slice(&box_corners(p, q))?;
    Ok(Core::Area(Poly::of(corners)))
}

/// The line between two points, if both are there.
fn line_between(
    alloc: Global,
    p: Option<Point>,
    q: Option<Point>,
) -> Result<Option<Vec<Core>>, AllocError>
    ensures { IfOk result (λ cores.
        option_map (λ found. found.items) cores ≡ both line_between p q) }
{
    let Some(a) = p else {
        return Ok(None);
    };
    let Some(b) = q else {
        return Ok(None);
    };
    Ok(Some(one(alloc, Core::Line(Seg { a, b }))?))
}

/// A rectangle by two corners that lie across, if both are there: its area, or its four sides.
fn box_between(
    alloc: Global,
    filled: bool,
    p: Option<Point>,
    q: Option<Point>,
) -> Result<Option<Vec<Core>>, AllocError>
    ensures { IfOk result (λ cores.
        option_map (λ found. found.items) cores ≡ both (box_between filled) p q) }
{
    let Some(a) = p else {
        return Ok(None);
    };
    let Some(b) = q else {
        return Ok(None);
    };
    if filled {
        return Ok(Some(one(alloc, box_core(alloc, a, b)?)?));
    }
    let corners = box_corners(a, b);
    Ok(Some(side_cores(alloc, &corners)?))
}

/// An outline of three corners at least: its area, or its sides.
fn cores_around(alloc: Global, filled: bool, points: Vec<Point>) -> Result<Vec<Core>, AllocError>
    requires { 3 ≤ length points.items }
    ensures { IfOk result (λ cores. cores.items ≡ cores_around filled points.items) }
{
    if filled {
        return one(alloc, Core::Area(Poly::indexed(alloc, points)?));
    }
    side_cores(alloc, &points)
}

/// The cores of a figure that stands so, unless it leaves the board. What is not filled is one line
/// for each side.
fn cores_of(
    alloc: Global,
    placement: Placement,
    filled: bool,
    figure: &Figure,
) -> Result<Option<Vec<Core>>, AllocError>
    requires quarter { placement.quarter < 4 }
    requires at { IsPlacementRawPoint placement.at }
    requires reach { HasReach figure.now }
    ensures { IfOk result (λ cores.
        option_map (λ found. found.items) cores ≡ cores_of placement filled figure.now) }
{
    match figure {
        Figure::Line(start, end) => line_between(
            alloc,
            point_stood(placement, *start),
            point_stood(placement, *end),
        ),
        Figure::Rect(start, end) => box_between(
            alloc,
            filled,
            point_stood(placement, *start),
            point_stood(placement, *end),
        ),
        Figure::Circle(center, _) => {
            let point = point_stood(placement, *center);
            line_between(alloc, point, point)
        }
        Figure::Outline(corners) => {
            let Some(points) = points_stood(alloc, placement, corners.as_slice())? else {
                return Ok(None);
            };
            Ok(Some(cores_around(alloc, filled, points)?))
        }
    }
}

// ---- parts

/// Puts a part behind the others.
fn push_part(list: &mut SmallVec<Part, 1>, layers: LayerSet, shape: Shape) -> Result<(), AllocError>
    ensures { OnOk result
        (list.new.items ≡ list.old.items ++ record { layers = layers; shape = shape } ∷ []) }
{
    list.push(Part { layers, shape })?;
    Ok(())
}

/// The cores with the radius around them, on these layers.
fn push_around(
    layers: LayerSet,
    radius: Radius,
    cores: Vec<Core>,
    list: &mut SmallVec<Part, 1>,
) -> Result<(), AllocError>
    ensures { OnOk result
        (list.new.items ≡ list.old.items ++ parts_around layers radius cores.items) }
{
    for core in cores {
        push_part(list, layers, around(radius, core))?;
    }
    Ok(())
}

/// The radius in half nanometres.
fn radius_with(drawing: &Drawing) -> Nm
    requires { IsDrawable drawing.now }
    ensures { result ≡ radius_with drawing.now.width drawing.now.figure }
{
    match drawing.figure {
        Figure::Circle(_, radius) => 2 * radius + drawing.width,
        _ => drawing.width,
    }
}

/// Appends the parts that a drawing gives on these layers and answers true, unless it leaves the
/// board or its width, or the diameter of its disc, is above 500 mm.
pub fn draw_into(
    alloc: Global,
    layers: LayerSet,
    placement: Placement,
    drawing: &Drawing,
    list: &mut SmallVec<Part, 1>,
) -> Result<bool, AllocError>
    requires quarter { placement.quarter < 4 }
    requires at { IsPlacementRawPoint placement.at }
    requires drawable { IsDrawable drawing.now }
    ensures { IfOk result (λ drew. after list.old.items (drawn layers placement drawing.now)
        ≡ (if drew then Some list.new.items else None)) }
{
    let Some(radius) = radius_of(radius_with(drawing)) else {
        return Ok(false);
    };
    let Some(cores) = cores_of(alloc, placement, drawing.filled, &drawing.figure)? else {
        return Ok(false);
    };
    push_around(layers, radius, cores, list)?;
    Ok(true)
}

/// The parts that a drawing gives on these layers, unless it leaves the board or its width, or the
/// diameter of its disc, is above 500 mm.
#[tactic(auto, using(crate::proofs::Gathering::after_none))]
pub(crate) fn draw(
    alloc: Global,
    layers: LayerSet,
    placement: Placement,
    drawing: &Drawing,
) -> Result<Option<Parts>, AllocError>
    requires quarter { placement.quarter < 4 }
    requires at { IsPlacementRawPoint placement.at }
    requires drawable { IsDrawable drawing.now }
    ensures { IfOk result (λ parts. parts ≡ drawn layers placement drawing.now) }
{
    let mut list = SmallVec::new(alloc);
    match draw_into(alloc, layers, placement, drawing, &mut list) {
        Ok(true) => Ok(Some(Parts::of(list))),
        Ok(false) => {
            drop(list);
            Ok(None)
        }
        Err(error) => {
            drop(list);
            Err(error)
        }
    }
}

/// The raw point by which a report names a figure.
pub(crate) fn first_raw_point(figure: &Figure) -> RawPoint
    requires { HasReach figure.now }
    ensures raw_point { result ≡ first_raw_point figure.now }
    ensures within { IsReadRawPoint result }
{
    match figure {
        Figure::Line(start, _) | Figure::Rect(start, _) => *start,
        Figure::Circle(center, _) => *center,
        Figure::Outline(corners) => corners.as_slice()[0],
    }
}

/// Whether it is an open circle: not filled, and with a width.
pub fn is_ring(drawing: &Drawing) -> bool
    ensures { result ≡ is_ring drawing.now }
{
    match drawing.figure {
        Figure::Circle(..) => !drawing.filled && drawing.width != 0,
        _ => false,
    }
}

/// Whether it is a circle.
pub(crate) fn is_circle(figure: &Figure) -> bool
    ensures { result ≡ is_circle figure.now }
{
    matches!(figure, Figure::Circle(..))
}

/// The lines that a drawing gives on Edge.Cuts, unless it leaves the board or its width is above
/// 500 mm.
pub(crate) fn draw_edge(
    alloc: Global,
    placement: Placement,
    drawing: Drawing,
) -> Result<Option<Parts>, AllocError>
    requires quarter { placement.quarter < 4 }
    requires at { IsPlacementRawPoint placement.at }
    requires drawable { IsDrawable drawing }
    ensures { IfOk result (λ parts. parts ≡ drawn_edge placement drawing) }
{
    if !is_length(drawing.width) {
        return Ok(None);
    }
    let lines = Drawing {
        figure: drawing.figure,
        width: 0,
        filled: false,
    };
    draw(alloc, LayerSet { bits: 0 }, placement, &lines)
}
