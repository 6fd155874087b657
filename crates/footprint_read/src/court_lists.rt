//! The graphics on the layer of a courtyard: lines, rectangles, circles and outlines, read from
//! their lists and added to the side.

ghost use Rattle.std.specs.Prelude.{◌≡◌, ◌<◌, ◌∷◌, [], IfOk, OnOk};
ghost use Rattle.sexpr_read.specs.TreeViews.{tree_of};
ghost use Rattle.list_read.specs.ListHeads.{has_head};
ghost use Rattle.list_read.specs.NamedElements.{element};
ghost use Rattle.part_read.specs.ElementResults.{in_needed};
ghost use Rattle.part_read.specs.NodeResults.{Leaves};
ghost use Rattle.part_read.specs.BoardNumbers.{raw_point_at};
ghost use Rattle.part_read.specs.Placements.{IsReadRawPoint, IsPlacementRawPoint};
ghost use Rattle.part_read.specs.Figures.{HasReach};
ghost use Rattle.footprint_read.specs.Courtyards.{empty_side, side_then, figure_side, line_side, rect_side, circle_side, has_arc, outline_side, graphic_side};
ghost use Rattle.footprint_read.specs.Appending.{onto_side};

use crate::sides::{CourtSide, RawSegment};
use board_items::BoardError;
use list_read::{element, has_head};
use part_read::{
    Corners, Drawing, Figure, GraphicKind, Placement, RawPoint, missing, radius_between,
    raw_point_in, raw_points_in, stand,
};
use sexpr_read::Node;
use std::alloc::{AllocError, Global};

/// The raw point of an element which must be there.
fn raw_point_needed(node: Node<'_, '_>, head: &[u8]) -> Result<RawPoint, BoardError>
    ensures raw_point { result
        ≡ in_needed raw_point_at (tree_of node.entry) (element head.now (tree_of node.entry)) }
    ensures within { IfOk result IsReadRawPoint }
{
    match element(node, head) {
        None => Err(missing(node)),
        Some(list) => raw_point_in(list),
    }
}

/// Adds a figure and all that it encloses, and nothing around it.
fn add_figure(side: &mut CourtSide, figure: Figure) -> Result<(), AllocError>
    requires { HasReach figure }
    ensures { OnOk result (side.new ≡ side_then side.old (figure_side figure)) }
{
    let drawing = Drawing {
        figure,
        width: 0,
        filled: true,
    };
    side.drawings.push(drawing)
}

/// Adds a line that was read.
fn add_segment(side: &mut CourtSide, segment: RawSegment) -> Result<(), AllocError>
    ensures { OnOk result
        (side.new ≡ side_then side.old (record empty_side { lines = segment ∷ [] })) }
{
    side.lines.push(segment)
}

/// Adds a line, which goes from one raw point of the board to another.
#[tactic(auto, unfolding(crate::specs::Courtyards::line_side))]
fn add_line(
    placement: Placement,
    side: &mut CourtSide,
    node: Node<'_, '_>,
) -> Result<(), BoardError>
    requires quarter { placement.quarter < 4 }
    requires at { IsPlacementRawPoint placement.at }
    ensures { Leaves result side.new
        (onto_side side.old (line_side placement (tree_of node.entry))) }
{
    let start = raw_point_needed(node, b"start")?;
    let end = raw_point_needed(node, b"end")?;
    let segment = RawSegment {
        a: stand(placement, start),
        b: stand(placement, end),
    };
    Ok(add_segment(side, segment)?)
}

/// Adds a rectangle.
#[tactic(auto, unfolding(crate::specs::Courtyards::rect_side))]
fn add_rect(side: &mut CourtSide, node: Node<'_, '_>) -> Result<(), BoardError>
    ensures { Leaves result side.new (onto_side side.old (rect_side (tree_of node.entry))) }
{
    let start = raw_point_needed(node, b"start")?;
    let end = raw_point_needed(node, b"end")?;
    Ok(add_figure(side, Figure::Rect(start, end))?)
}

/// Adds a circle.
#[tactic(auto, unfolding(crate::specs::Courtyards::circle_side))]
fn add_circle(side: &mut CourtSide, node: Node<'_, '_>) -> Result<(), BoardError>
    ensures { Leaves result side.new (onto_side side.old (circle_side (tree_of node.entry))) }
{
    let center = raw_point_needed(node, b"center")?;
    let end = raw_point_needed(node, b"end")?;
    let radius = radius_between(center, end);
    Ok(add_figure(side, Figure::Circle(center, radius))?)
}

/// Whether an arc stands among the raw points.
fn has_arc(list: Node<'_, '_>) -> bool
    ensures { result ≡ has_arc (tree_of list.entry) }
{
    for part in list.children() {
        if has_head(part, b"arc") {
            return true;
        }
    }
    false
}

/// Adds an outline; one with an arc leaves the side unchecked.
#[tactic(auto, unfolding(crate::specs::Courtyards::outline_side))]
fn add_outline(alloc: Global, side: &mut CourtSide, node: Node<'_, '_>) -> Result<(), BoardError>
    ensures { Leaves result side.new (onto_side side.old (outline_side (tree_of node.entry))) }
{
    let Some(list) = element(node, b"pts") else {
        return Err(missing(node));
    };
    let raw_points = raw_points_in(alloc, list, true)?;
    if has_arc(list) {
        side.note_curve();
        return Ok(());
    }
    if raw_points.len() < 3 {
        return Err(missing(list));
    }
    Ok(add_figure(side, Figure::Outline(Corners::of(raw_points)))?)
}

/// Adds a graphic of this kind.
pub(crate) fn add_graphic(
    alloc: Global,
    placement: Placement,
    kind: GraphicKind,
    side: &mut CourtSide,
    node: Node<'_, '_>,
) -> Result<(), BoardError>
    requires quarter { placement.quarter < 4 }
    requires at { IsPlacementRawPoint placement.at }
    ensures { Leaves result side.new
        (onto_side side.old (graphic_side placement kind (tree_of node.entry))) }
{
    match kind {
        GraphicKind::Line => add_line(placement, side, node),
        GraphicKind::Rect => add_rect(side, node),
        GraphicKind::Circle => add_circle(side, node),
        GraphicKind::Outline => add_outline(alloc, side, node),
    }
}
