//! Custom pads: the anchor in the middle, and the primitives around it.

ghost use Rattle.std.specs.Prelude.{◌≡◌, ◌++◌, OnOk, IfOk, All};
ghost use Rattle.sexpr_read.specs.Tree.{parts};
ghost use Rattle.sexpr_read.specs.TreeViews.{tree_of};
ghost use Rattle.part_read.specs.Lists.{GivesItems};
ghost use Rattle.part_read.specs.NodeResults.{Gives};
ghost use Rattle.part_read.specs.Figures.{IsDrawable};
ghost use Rattle.pad_read.specs.PadSizes.{AreRead};
ghost use Rattle.pad_read.specs.PadShapes.{IsSmall};
ghost use Rattle.pad_read.specs.PrimitiveSteps.{TakesPrimitive};
ghost use Rattle.pad_read.specs.CustomPads.{anchor_by_word, anchor_of, primitive_kind, primitive_by, primitives_among, primitives_of};

use crate::primitives::Primitives;
use crate::rounded_rects::{circle_rounded_rect, rect_rounded_rect};
use crate::sizes::{RoundedRect, Sizes};
use board_items::BoardError;
use list_read::{element, has_head, place};
use part_read::{Drawing, GraphicKind, drawing_of, first_atom, is_ring};
use plain_types::one;
use sexpr_read::Node;
use std::alloc::{AllocError, Global};

/// What a primitive is, by its head.
fn primitive_kind(node: Node<'_, '_>) -> Option<GraphicKind>
    ensures { result ≡ primitive_kind (tree_of node.entry) }
{
    if has_head(node, b"gr_line") {
        return Some(GraphicKind::Line);
    }
    if has_head(node, b"gr_rect") {
        return Some(GraphicKind::Rect);
    }
    if has_head(node, b"gr_circle") {
        return Some(GraphicKind::Circle);
    }
    if has_head(node, b"gr_poly") {
        return Some(GraphicKind::Outline);
    }
    None
}

/// What a primitive draws: an open circle is refused at the pad, and a curve where it stands.
fn primitive_by(
    alloc: Global,
    pad: Node<'_, '_>,
    node: Node<'_, '_>,
    kind: Option<GraphicKind>,
) -> Result<Vec<Drawing>, BoardError>
    ensures drawings { GivesItems result
        (primitive_by (tree_of pad.entry) (tree_of node.entry) kind) }
    ensures drawable { IfOk result (λ drawings. All IsDrawable drawings.items) }
{
    let Some(kind) = kind else {
        if has_head(node, b"gr_arc") || has_head(node, b"gr_curve") {
            return Err(BoardError::Arc { at: place(node) });
        }
        return Ok(Vec::new(alloc));
    };
    let drawing = drawing_of(alloc, kind, node)?;
    if is_ring(&drawing) {
        drop(drawing);
        return Err(BoardError::Ring { at: place(pad) });
    }
    Ok(one(alloc, drawing)?)
}

/// The anchor of this word; another word is refused at the pad.
fn anchor_by_word(
    pad: Node<'_, '_>,
    sizes: Sizes,
    atom: Node<'_, '_>,
) -> Result<RoundedRect, BoardError>
    requires { AreRead sizes }
    ensures anchor { result ≡ anchor_by_word (tree_of pad.entry) sizes (tree_of atom.entry) }
    ensures small { IfOk result IsSmall }
{
    if atom.is(b"circle") {
        return Ok(circle_rounded_rect(sizes));
    }
    if atom.is(b"rect") {
        return Ok(rect_rounded_rect(sizes));
    }
    Err(BoardError::PadShape { at: place(pad) })
}

/// The anchor of a custom pad, a disc where it is missing.
#[tactic(auto, unfolding(crate::specs::CustomPads::anchor_of))]
pub(crate) fn anchor_of(sizes: Sizes, pad: Node<'_, '_>) -> Result<RoundedRect, BoardError>
    requires { AreRead sizes }
    ensures anchor { result ≡ anchor_of sizes (tree_of pad.entry) }
    ensures small { IfOk result IsSmall }
{
    let Some(options) = element(pad, b"options") else {
        return Ok(circle_rounded_rect(sizes));
    };
    match element(options, b"anchor") {
        None => Ok(circle_rounded_rect(sizes)),
        Some(list) => anchor_by_word(pad, sizes, first_atom(list)?),
    }
}

/// Puts drawings behind the others.
fn append_all(drawings: &mut Vec<Drawing>, more: Vec<Drawing>) -> Result<(), AllocError>
    ensures { OnOk result (drawings.new.items ≡ drawings.old.items ++ more.items) }
{
    for drawing in more {
        drawings.push(drawing)?;
    }
    Ok(())
}

/// Takes what a part of the primitives draws.
fn take_primitive(
    alloc: Global,
    pad: Node<'_, '_>,
    part: Node<'_, '_>,
    drawings: &mut Vec<Drawing>,
) -> Result<(), BoardError>
    requires { All IsDrawable drawings.old.items }
    ensures taken { TakesPrimitive result (tree_of pad.entry) (tree_of part.entry)
        drawings.old.items drawings.new.items }
    ensures drawable { OnOk result (All IsDrawable drawings.new.items) }
{
    let more = primitive_by(alloc, pad, part, primitive_kind(part))?;
    append_all(drawings, more)?;
    Ok(())
}

/// What the parts of this list draw, in order.
fn primitives_in(
    alloc: Global,
    pad: Node<'_, '_>,
    list: Node<'_, '_>,
) -> Result<Vec<Drawing>, BoardError>
    ensures drawings { GivesItems result
        (primitives_among (tree_of pad.entry) (parts (tree_of list.entry))) }
    ensures drawable { IfOk result (λ drawings. All IsDrawable drawings.items) }
{
    let mut drawings = Vec::new(alloc);
    for part in list.children() {
        if let Err(error) = take_primitive(alloc, pad, part, &mut drawings) {
            drop(drawings);
            return Err(error);
        }
    }
    Ok(drawings)
}

/// What `(primitives ..)` draws.
#[tactic(auto, unfolding(crate::specs::CustomPads::primitives_of))]
pub(crate) fn primitives_of(alloc: Global, pad: Node<'_, '_>) -> Result<Primitives, BoardError>
    ensures { Gives result (primitives_of (tree_of pad.entry)) }
{
    match element(pad, b"primitives") {
        None => Ok(Primitives::none(alloc)),
        Some(list) => Ok(Primitives::of(primitives_in(alloc, pad, list)?)),
    }
}
