//! What graphics draw, read from their lists.

ghost use Rattle.std.specs.Prelude.{◌≡◌, ◌≤◌, ◌≤ℤ◌, pos, codes, option_map, option_and_then, ◌++◌, ◌∷◌, [], IfOk, OnOk, All};
ghost use Rattle.sexpr_read.specs.TreeViews.{tree_of};
ghost use Rattle.list_read.specs.NamedElements.{element};
ghost use Rattle.part_read.specs.ElementResults.{in_needed, given_or};
ghost use Rattle.part_read.specs.BoardNumbers.{raw_point_at, size_at};
ghost use Rattle.part_read.specs.NodeResults.{Gives};
ghost use Rattle.part_read.specs.Lists.{GivesItems};
ghost use Rattle.sexpr_read.specs.Tree.{parts};
ghost use Rattle.part_read.specs.Placements.{greatest_size, IsReadRawPoint};
ghost use Rattle.part_read.specs.Figures.{IsDrawable};
ghost use Rattle.part_read.specs.Drawings.{raw_points_among, TakesRawPoint, corners_in, corners_of, width_of, filled_by, fill_of, line_drawing, rect_drawing, circle_drawing, outline_drawing, drawing_of};

use crate::atoms::{first_atom, missing};
use crate::circles::radius_between;
use crate::corners::Corners;
use crate::figures::{Drawing, Figure};
use crate::numbers::{RawPoint, raw_point_at, size_at};
use board_items::{BoardError, Nm};
use list_read::{element, has_head, place};
use sexpr_read::Node;
use std::alloc::{AllocError, Global};

/// What a graphic is, by its head.
#[derive(Clone, Copy, Debug, PartialEq, Eq, Drop)]
pub enum GraphicKind {
    Line,
    Rect,
    Circle,
    Outline,
}

/// The raw point of `(HEAD X Y)`. Each number is at most 10^12 nanometres from 0.
pub fn raw_point_in(list: Node<'_, '_>) -> Result<RawPoint, BoardError>
    ensures raw_point { result ≡ raw_point_at (tree_of list.entry) }
    ensures within { IfOk result IsReadRawPoint }
{
    let raw_point = raw_point_at(list)?;
    Ok(raw_point)
}

/// The raw point of an element which must be there.
fn raw_point_needed(node: Node<'_, '_>, head: &[u8]) -> Result<RawPoint, BoardError>
    ensures raw_point { result
        ≡ in_needed raw_point_at (tree_of node.entry) (element head.now (tree_of node.entry)) }
    ensures within { IfOk result IsReadRawPoint }
{
    match element(node, head) {
        None => Err(missing(node)),
        Some(list) => raw_point_in(list),
    }
}

/// Puts a raw point behind the others.
fn gather(raw_points: &mut Vec<RawPoint>, raw_point: RawPoint) -> Result<(), AllocError>
    ensures { OnOk result (raw_points.new.items ≡ raw_points.old.items ++ raw_point ∷ []) }
{
    raw_points.push(raw_point)?;
    Ok(())
}

/// Takes the raw point of a part, if it is `(xy X Y)`. An arc is refused, or passed over where curves may
/// stand.
fn take_raw_point(
    part: Node<'_, '_>,
    curved: bool,
    raw_points: &mut Vec<RawPoint>,
) -> Result<(), BoardError>
    requires { All IsReadRawPoint raw_points.old.items }
    ensures taken { TakesRawPoint result curved
        (tree_of part.entry) raw_points.old.items raw_points.new.items }
    ensures within { OnOk result (All IsReadRawPoint raw_points.new.items) }
{
    if has_head(part, b"xy") {
        let raw_point = raw_point_in(part)?;
        gather(raw_points, raw_point)?;
        return Ok(());
    }
    if has_head(part, b"arc") && !curved {
        return Err(BoardError::Arc { at: place(part) });
    }
    Ok(())
}

/// The raw points of each `(xy X Y)`, each number at most 10^12 nanometres from 0. An arc is refused, or
/// passed over where curves may stand.
pub fn raw_points_in(
    alloc: Global,
    list: Node<'_, '_>,
    curved: bool,
) -> Result<Vec<RawPoint>, BoardError>
    ensures raw_points { GivesItems result (raw_points_among curved (parts (tree_of list.entry))) }
    ensures within { IfOk result (λ raw_points. All IsReadRawPoint raw_points.items) }
{
    let mut raw_points = Vec::new(alloc);
    for part in list.children() {
        take_raw_point(part, curved, &mut raw_points)?;
    }
    Ok(raw_points)
}

/// The corners of `(pts (xy X Y) ..)`.
#[tactic(auto, unfolding(crate::specs::Drawings::corners_in))]
fn corners_in(alloc: Global, list: Node<'_, '_>) -> Result<Corners, BoardError>
    ensures { Gives result (corners_in (tree_of list.entry)) }
{
    let raw_points = raw_points_in(alloc, list, false)?;
    if raw_points.len() < 3 {
        return Err(missing(list));
    }
    Ok(Corners::of(raw_points))
}

/// The corners in the element `pts`, which must be there.
pub fn corners_of(alloc: Global, node: Node<'_, '_>) -> Result<Corners, BoardError>
    ensures { Gives result (corners_of (tree_of node.entry)) }
{
    match element(node, b"pts") {
        None => Err(missing(node)),
        Some(list) => corners_in(alloc, list),
    }
}

// ---- width and fill

/// The list of the width in that of a stroke.
fn stroke_width<'d, 't>(stroke: Option<Node<'d, 't>>) -> Option<Node<'d, 't>>
    ensures { option_map tree_of result
        ≡ option_and_then (element (codes "width")) (option_map tree_of stroke.entry) }
{
    match stroke {
        None => None,
        Some(list) => element(list, b"width"),
    }
}

/// A size that is 0 where its list is missing.
fn width_among(found: Option<Node<'_, '_>>) -> Result<Nm, BoardError>
    ensures width { result ≡ given_or (pos 0) size_at (option_map tree_of found.entry) }
    ensures from { IfOk result (λ width. pos 0 ≤ℤ width) }
    ensures to { IfOk result (λ width. width ≤ℤ greatest_size) }
{
    match found {
        None => Ok(0),
        Some(list) => {
            let width = size_at(list)?;
            Ok(width)
        }
    }
}

/// The width in `(stroke (width W) ..)`, else that in `(width W)`, else 0.
#[tactic(auto, unfolding(crate::specs::Drawings::width_of))]
fn width_of(node: Node<'_, '_>) -> Result<Nm, BoardError>
    ensures width { result ≡ width_of (tree_of node.entry) }
    ensures from { IfOk result (λ width. pos 0 ≤ℤ width) }
    ensures to { IfOk result (λ width. width ≤ℤ greatest_size) }
{
    match stroke_width(element(node, b"stroke")) {
        Some(list) => width_among(Some(list)),
        None => width_among(element(node, b"width")),
    }
}

/// What the word of a fill says, or `otherwise`.
fn filled_by(otherwise: bool, atom: Node<'_, '_>) -> bool
    ensures { result ≡ filled_by otherwise (tree_of atom.entry) }
{
    if atom.is(b"solid") || atom.is(b"yes") {
        return true;
    }
    if atom.is(b"none") || atom.is(b"no") {
        return false;
    }
    otherwise
}

/// Whether `(fill WORD)` says that it is filled.
#[tactic(auto, unfolding(crate::specs::Drawings::fill_of))]
fn fill_of(otherwise: bool, node: Node<'_, '_>) -> Result<bool, BoardError>
    ensures { result ≡ fill_of otherwise (tree_of node.entry) }
{
    match element(node, b"fill") {
        None => Ok(otherwise),
        Some(list) => Ok(filled_by(otherwise, first_atom(list)?)),
    }
}

// ---- drawings

/// A line from its start to its end.
#[tactic(auto, unfolding(crate::specs::Drawings::line_drawing))]
fn line_drawing(node: Node<'_, '_>) -> Result<Drawing, BoardError>
    ensures drawing { Gives result (line_drawing (tree_of node.entry)) }
    ensures drawable { IfOk result IsDrawable }
{
    let start = raw_point_needed(node, b"start")?;
    let end = raw_point_needed(node, b"end")?;
    let width = width_of(node)?;
    Ok(Drawing {
        figure: Figure::Line(start, end),
        width,
        filled: true,
    })
}

/// A rectangle, of which two corners that lie across are given.
#[tactic(auto, unfolding(crate::specs::Drawings::rect_drawing))]
fn rect_drawing(node: Node<'_, '_>) -> Result<Drawing, BoardError>
    ensures drawing { Gives result (rect_drawing (tree_of node.entry)) }
    ensures drawable { IfOk result IsDrawable }
{
    let start = raw_point_needed(node, b"start")?;
    let end = raw_point_needed(node, b"end")?;
    let width = width_of(node)?;
    let filled = fill_of(false, node)?;
    Ok(Drawing {
        figure: Figure::Rect(start, end),
        width,
        filled,
    })
}

/// A circle around its centre through its end.
#[tactic(auto, unfolding(crate::specs::Drawings::circle_drawing))]
fn circle_drawing(node: Node<'_, '_>) -> Result<Drawing, BoardError>
    ensures drawing { Gives result (circle_drawing (tree_of node.entry)) }
    ensures drawable { IfOk result IsDrawable }
{
    let center = raw_point_needed(node, b"center")?;
    let end = raw_point_needed(node, b"end")?;
    let width = width_of(node)?;
    let filled = fill_of(false, node)?;
    Ok(Drawing {
        figure: Figure::Circle(center, radius_between(center, end)),
        width,
        filled,
    })
}

/// An outline by its corners, filled where nothing is said.
#[tactic(auto, unfolding(crate::specs::Drawings::outline_drawing))]
fn outline_drawing(alloc: Global, node: Node<'_, '_>) -> Result<Drawing, BoardError>
    ensures drawing { Gives result (outline_drawing (tree_of node.entry)) }
    ensures drawable { IfOk result IsDrawable }
{
    let corners = corners_of(alloc, node)?;
    let width = width_of(node)?;
    let filled = fill_of(true, node)?;
    Ok(Drawing {
        figure: Figure::Outline(corners),
        width,
        filled,
    })
}

/// What a graphic of this kind draws.
pub fn drawing_of(
    alloc: Global,
    kind: GraphicKind,
    node: Node<'_, '_>,
) -> Result<Drawing, BoardError>
    ensures drawing { Gives result (drawing_of kind (tree_of node.entry)) }
    ensures drawable { IfOk result IsDrawable }
{
    match kind {
        GraphicKind::Line => line_drawing(node),
        GraphicKind::Rect => rect_drawing(node),
        GraphicKind::Circle => circle_drawing(node),
        GraphicKind::Outline => outline_drawing(alloc, node),
    }
}
