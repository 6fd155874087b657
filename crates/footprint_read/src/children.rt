//! The children of a footprint, in the order of the text: what each adds to its items and to its
//! sides.

ghost use Rattle.std.specs.Prelude.{◌≡◌, ◌<◌, ◌∷◌, [], ℕ, Ok, IfOk, OnOk, All};
ghost use Rattle.sexpr_read.specs.TreeViews.{tree_of};
ghost use Rattle.board_items.specs.Boards.{PlainBoard};
ghost use Rattle.one_item.specs.declared.item.About.TheVariants.{FootZone};
ghost use Rattle.part_read.specs.ElementResults.{name_in};
ghost use Rattle.part_read.specs.Graphics.{note_of};
ghost use Rattle.part_read.specs.NodeResults.{Gives, Leaves};
ghost use Rattle.part_read.specs.LayerRoles.{HasLayerOfRole};
ghost use Rattle.part_read.specs.Placements.{IsReadRawPoint, IsPlacementRawPoint};
ghost use Rattle.part_read.specs.Ready.{IsReady};
ghost use Rattle.footprint_read.specs.FootprintOf.{items_of, giving, drawn_gives, arc_gives, drawn_kind, is_curve, is_writing, other_gives, child_gives, contents_of};
ghost use Rattle.footprint_read.specs.Appending.{onto};

use crate::contents::Contents;
use crate::court_lists::add_graphic;
use crate::notes::note_on;
use board_items::{About, Board, BoardError, Item};
use list_read::{has_head, place};
use pad_read::{Head, pad_of};
use part_read::{GraphicKind, LayerRole, curve_by, layer_role_of, read_graphic, read_text};
use plain_types::one;
use sexpr_read::Node;
use std::alloc::{AllocError, Global};

/// What a graphic is, and where it lies.
#[derive(Clone, Copy)]
struct Drawn {
    kind: GraphicKind,
    lies: LayerRole,
}

/// What a graphic of a footprint is, by its head.
fn drawn_kind(node: Node<'_, '_>) -> Option<GraphicKind>
    ensures { result ≡ drawn_kind (tree_of node.entry) }
{
    if has_head(node, b"fp_line") {
        return Some(GraphicKind::Line);
    }
    if has_head(node, b"fp_rect") {
        return Some(GraphicKind::Rect);
    }
    if has_head(node, b"fp_circle") {
        return Some(GraphicKind::Circle);
    }
    if has_head(node, b"fp_poly") {
        return Some(GraphicKind::Outline);
    }
    None
}

/// Whether it is an arc or a curve.
fn is_curve(node: Node<'_, '_>) -> bool
    ensures { result ≡ is_curve (tree_of node.entry) }
{
    has_head(node, b"fp_arc") || has_head(node, b"fp_curve")
}

/// Whether it is a text, or a property, which KiCad 8 shows as a text.
fn is_writing(node: Node<'_, '_>) -> bool
    ensures { result ≡ is_writing (tree_of node.entry) }
{
    has_head(node, b"fp_text") || has_head(node, b"fp_text_box") || has_head(node, b"property")
}

/// Adds items that this list gives.
fn add_items(
    contents: &mut Contents,
    node: Node<'_, '_>,
    items: Vec<Item>,
) -> Result<(), AllocError>
    ensures with { OnOk result
        (onto contents.old (giving (tree_of node.entry) (Ok items.items)) ≡ Ok contents.new) }
    ensures ready { (board : PlainBoard) (unit : ℕ)
        → All (IsReady board unit) (items_of contents.old.given)
        → All (IsReady board unit) items.items
        → OnOk result (All (IsReady board unit) (items_of contents.new.given)) }
{
    contents.given.append(place(node), items)
}

/// Adds a graphic on copper, on Edge.Cuts or in a courtyard.
#[tactic(auto, using(crate::proofs::Appending::front_onto, crate::proofs::Appending::back_onto))]
fn add_drawn(
    alloc: Global,
    board: &Board,
    unit: u32,
    head: &Head,
    contents: &mut Contents,
    node: Node<'_, '_>,
    drawn: Drawn,
) -> Result<(), BoardError>
    requires quarter { head.now.placement.quarter < 4 }
    requires at { IsPlacementRawPoint head.now.placement.at }
    requires on { HasLayerOfRole board.now.copper drawn.lies }
    requires ready { All (IsReady board.now unit) (items_of contents.old.given) }
    ensures read { Leaves result contents.new (onto contents.old
        (drawn_gives board.now unit head.now drawn.kind (tree_of node.entry) drawn.lies)) }
    ensures ready { OnOk result (All (IsReady board.now unit) (items_of contents.new.given)) }
{
    match drawn.lies {
        LayerRole::Front => add_graphic(
            alloc,
            head.placement,
            drawn.kind,
            &mut contents.front,
            node,
        ),
        LayerRole::Back => add_graphic(alloc, head.placement, drawn.kind, &mut contents.back, node),
        lies => {
            let items = read_graphic(alloc, board, unit, head.placement, drawn.kind, node, lies)?;
            Ok(add_items(contents, node, items)?)
        }
    }
}

/// Adds a curve: it is refused on copper and on Edge.Cuts, and in a courtyard it leaves the side
/// unchecked.
#[tactic(auto, using(crate::proofs::Appending::front_onto, crate::proofs::Appending::back_onto))]
fn add_arc(
    alloc: Global,
    contents: &mut Contents,
    node: Node<'_, '_>,
    lies: LayerRole,
) -> Result<(), BoardError>
    ensures read { Leaves result contents.new
        (onto contents.old (arc_gives (tree_of node.entry) lies)) }
    ensures same { OnOk result (items_of contents.new.given ≡ items_of contents.old.given) }
{
    match lies {
        LayerRole::Front => {
            contents.front.note_curve();
            Ok(())
        }
        LayerRole::Back => {
            contents.back.note_curve();
            Ok(())
        }
        lies => {
            let items = curve_by(alloc, node, lies)?;
            Ok(add_items(contents, node, items)?)
        }
    }
}

/// The note of a zone, which is not checked.
fn zone_notes(
    alloc: Global,
    board: &Board,
    unit: u32,
    node: Node<'_, '_>,
) -> Result<Vec<Item>, AllocError>
    ensures notes { IfOk result (λ notes.
        notes.items ≡ note_of (name_in (tree_of node.entry)) unit FootZone [] ∷ []) }
    ensures ready { IfOk result (λ notes. All (IsReady board.now unit) notes.items) }
{
    board.soundness();
    let notes = one(alloc, note_on(alloc, unit, About::FootZone, "", node)?)?;
    Ok(notes)
}

/// Adds what is neither a pad nor a graphic.
#[tactic(auto, using(crate::proofs::Appending::then_nothing))]
fn add_other(
    alloc: Global,
    board: &Board,
    unit: u32,
    contents: &mut Contents,
    node: Node<'_, '_>,
) -> Result<(), BoardError>
    requires ready { All (IsReady board.now unit) (items_of contents.old.given) }
    ensures read { Leaves result contents.new
        (onto contents.old (other_gives board.now unit (tree_of node.entry))) }
    ensures ready { OnOk result (All (IsReady board.now unit) (items_of contents.new.given)) }
{
    if is_curve(node) {
        let lies = layer_role_of(board.copper(), node)?;
        return add_arc(alloc, contents, node, lies);
    }
    if is_writing(node) {
        let lies = layer_role_of(board.copper(), node)?;
        let notes = read_text(alloc, board, unit, About::Text, node, lies)?;
        return Ok(add_items(contents, node, notes)?);
    }
    if has_head(node, b"zone") {
        let notes = zone_notes(alloc, board, unit, node)?;
        return Ok(add_items(contents, node, notes)?);
    }
    Ok(())
}

/// Adds a pad, a graphic, an edge, a note, or nothing.
#[tactic(auto, using(crate::proofs::Standing::wider), unfolding(crate::specs::FootprintOf::child_gives))]
fn add_child(
    alloc: Global,
    board: &Board,
    unit: u32,
    head: &Head,
    contents: &mut Contents,
    node: Node<'_, '_>,
) -> Result<(), BoardError>
    requires quarter { head.now.placement.quarter < 4 }
    requires at { IsReadRawPoint head.now.placement.at }
    requires ready { All (IsReady board.now unit) (items_of contents.old.given) }
    ensures read { Leaves result contents.new
        (onto contents.old (child_gives board.now unit head.now (tree_of node.entry))) }
    ensures ready { OnOk result (All (IsReady board.now unit) (items_of contents.new.given)) }
{
    if has_head(node, b"pad") {
        let pad = pad_of(alloc, board, unit, head, node)?;
        return Ok(add_items(contents, node, one(alloc, pad)?)?);
    }
    let Some(kind) = drawn_kind(node) else {
        return add_other(alloc, board, unit, contents, node);
    };
    let lies = layer_role_of(board.copper(), node)?;
    let drawn = Drawn { kind, lies };
    add_drawn(alloc, board, unit, head, contents, node, drawn)
}

/// What all children give, in the order of the text.
#[tactic(auto, using(crate::proofs::Standing::none_ready, crate::proofs::Appending::then_nothing, crate::proofs::Appending::onto_both))]
pub(crate) fn contents_of(
    alloc: Global,
    board: &Board,
    unit: u32,
    head: &Head,
    node: Node<'_, '_>,
) -> Result<Contents, BoardError>
    requires quarter { head.now.placement.quarter < 4 }
    requires at { IsReadRawPoint head.now.placement.at }
    ensures read { Gives result (contents_of board.now unit head.now (tree_of node.entry)) }
    ensures ready { IfOk result (λ all. All (IsReady board.now unit) (items_of all.given)) }
{
    let mut contents = Contents::new(alloc);
    for part in node.children() {
        if let Err(error) = add_child(alloc, board, unit, head, &mut contents, part) {
            drop(contents);
            return Err(error);
        }
    }
    Ok(contents)
}
