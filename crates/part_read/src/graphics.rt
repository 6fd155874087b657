//! Graphics and texts of boards and of footprints.

ghost use Rattle.std.specs.Prelude.{◌≡◌, ◌<◌, ◌∷◌, [], false, Some, IfOk, All, codes};
ghost use Rattle.one_item.specs.declared.item.Item.{Item};
ghost use Rattle.sexpr_read.specs.TreeViews.{tree_of};
ghost use Rattle.part_read.specs.NodeResults.{Gives};
ghost use Rattle.list_read.specs.NamedElements.{element};
ghost use Rattle.part_read.specs.ElementResults.{name_among, name_in};
ghost use Rattle.part_read.specs.Lists.{GivesItems};
ghost use Rattle.part_read.specs.Placements.{IsPlacementRawPoint};
ghost use Rattle.part_read.specs.LayerRoles.{HasLayerOfRole};
ghost use Rattle.part_read.specs.Ready.{IsReady};
ghost use Rattle.part_read.specs.PlainItems.{is_measured, plain_item};
ghost use Rattle.part_read.specs.Graphics.{layer_role_by, layer_role_of, copper_graphic, edge_graphic, note_of, graphic_by, curve_by, text_by};

use crate::atoms::first_atom;
use crate::drawings::{GraphicKind, drawing_of};
use crate::figures::{draw, draw_edge, first_raw_point, is_circle, is_ring};
use crate::layers::drawn_on;
use crate::names::name_in;
use crate::nets::net_of;
use crate::numbers::RawPoint;
use crate::placements::{Placement, stand};
use board_items::{About, Board, BoardError, Boxed, Item, Part, Parts, What};
use copper_layers::LayerSet;
use drc_io::Name;
use geo_seg::Shape;
use list_read::{element, naming, place};
use plain_types::one;
use sexpr_read::Node;
use smallvec::SmallVec;
use std::alloc::{AllocError, Global};

/// Where a graphic lies.
#[derive(Clone, Copy, Debug, PartialEq, Eq, Drop)]
pub enum LayerRole {
    /// On the copper layer with this number, which the board has.
    Copper(u32),
    /// On Edge.Cuts.
    Outlines,
    /// On F.CrtYd.
    Front,
    /// On B.CrtYd.
    Back,
    /// On a layer where graphics are passed over.
    Elsewhere,
}

/// Where a graphic lies whose layer has this name: on the copper layer of this number, where it is
/// one.
fn layer_role_by(atom: Node<'_, '_>, layer: Option<u32>) -> LayerRole
    ensures { result ≡ layer_role_by (tree_of atom.entry) layer }
{
    if let Some(layer) = layer {
        return LayerRole::Copper(layer);
    }
    if atom.is(b"Edge.Cuts") {
        return LayerRole::Outlines;
    }
    if atom.is(b"F.CrtYd") {
        return LayerRole::Front;
    }
    if atom.is(b"B.CrtYd") {
        return LayerRole::Back;
    }
    LayerRole::Elsewhere
}

/// The role of the layer that `(layer NAME)` names. A copper layer that the board has not is refused.
#[tactic(auto, unfolding(crate::specs::Graphics::layer_role_of))]
pub fn layer_role_of(copper: LayerSet, node: Node<'_, '_>) -> Result<LayerRole, BoardError>
    ensures lies { result ≡ layer_role_of copper (tree_of node.entry) }
    ensures on { IfOk result (HasLayerOfRole copper) }
{
    let Some(list) = element(node, b"layer") else {
        return Ok(LayerRole::Elsewhere);
    };
    let atom = first_atom(list)?;
    let layer = drawn_on(copper, atom)?;
    Ok(layer_role_by(atom, layer))
}

// ---- items

/// An item without a hole and without a clearance of its own.
pub fn plain_item(name: Name, unit: u32, net: u32, at: RawPoint, copper: Parts, what: What) -> Item
    requires { is_measured what ≡ false }
    ensures { (h : is_measured what ≡ false) → result ≡ plain_item name unit net at copper what h }
{
    Item {
        name,
        unit,
        net,
        x: at.x,
        y: at.y,
        copper,
        hole: None,
        local: None,
        what,
    }
}

/// The copper of what has none.
pub fn no_parts(alloc: Global) -> Parts
    ensures { result ≡ [] }
{
    Parts::of(SmallVec::new(alloc))
}

/// The graphic on a copper layer, which the board has.
#[tactic(auto, unfolding(crate::specs::Graphics::copper_graphic))]
fn copper_graphic(
    alloc: Global,
    board: &Board,
    unit: u32,
    placement: Placement,
    kind: GraphicKind,
    layer: u32,
    node: Node<'_, '_>,
) -> Result<Item, BoardError>
    requires quarter { placement.quarter < 4 }
    requires at { IsPlacementRawPoint placement.at }
    requires below { layer < 32 }
    ensures read { Gives result
        (copper_graphic board.now unit placement kind layer (tree_of node.entry)) }
{
    let drawing = drawing_of(alloc, kind, node)?;
    let net = match net_of(board, element(node, b"net")) {
        Ok(net) => net,
        Err(error) => {
            drop(drawing);
            return Err(error);
        }
    };
    if is_ring(&drawing) {
        drop(drawing);
        return Err(BoardError::Ring { at: place(node) });
    }
    let at = stand(placement, first_raw_point(&drawing.figure));
    let drawn = draw(alloc, LayerSet::of(layer), placement, &drawing);
    drop(drawing);
    let Some(copper) = drawn? else {
        return Err(BoardError::OutOfBoard { at: place(node) });
    };
    match name_of_list(alloc, node) {
        Ok(name) => Ok(plain_item(name, unit, net, at, copper, What::Graphic)),
        Err(_) => {
            drop(copper);
            Err(BoardError::OutOfMemory)
        }
    }
}

/// The graphic on Edge.Cuts.
#[tactic(auto, unfolding(crate::specs::Graphics::edge_graphic))]
fn edge_graphic(
    alloc: Global,
    unit: u32,
    placement: Placement,
    kind: GraphicKind,
    node: Node<'_, '_>,
) -> Result<Item, BoardError>
    requires quarter { placement.quarter < 4 }
    requires at { IsPlacementRawPoint placement.at }
    ensures read { Gives result (edge_graphic unit placement kind (tree_of node.entry)) }
{
    let drawing = drawing_of(alloc, kind, node)?;
    if is_circle(&drawing.figure) {
        drop(drawing);
        return Err(BoardError::Ring { at: place(node) });
    }
    let at = stand(placement, first_raw_point(&drawing.figure));
    let Some(lines) = draw_edge(alloc, placement, drawing)? else {
        return Err(BoardError::OutOfBoard { at: place(node) });
    };
    let lines = Boxed::new(alloc, lines)?;
    match name_of_list(alloc, node) {
        Ok(name) => Ok(plain_item(name, unit, 0, at, no_parts(alloc), What::Edge { lines })),
        Err(_) => {
            drop(lines);
            Err(BoardError::OutOfMemory)
        }
    }
}

/// The note of a text or a dimension on copper.
fn note_of(alloc: Global, unit: u32, about: About, node: Node<'_, '_>) -> Result<Item, AllocError>
    ensures { IfOk result (λ item. item ≡ note_of (name_in (tree_of node.entry)) unit about
        (name_among (element (codes "layer") (tree_of node.entry)))) }
{
    let layer = Boxed::new(alloc, name_in(alloc, element(node, b"layer"))?)?;
    let at = RawPoint { x: 0, y: 0 };
    match name_of_list(alloc, node) {
        Ok(name) => Ok(plain_item(
            name,
            unit,
            0,
            at,
            no_parts(alloc),
            What::Note { about, layer },
        )),
        Err(error) => {
            drop(layer);
            Err(error)
        }
    }
}

/// The list of one part.
pub fn one_part(alloc: Global, layers: LayerSet, shape: Shape) -> Parts
    ensures { result ≡ record { layers = layers; shape = shape } ∷ [] }
{
    let mut list = SmallVec::new(alloc);
    list.push_reserved(Part { layers, shape });
    Parts::of(list)
}

/// The name that a list gives its item, or the empty one.
pub fn name_of_list(alloc: Global, node: Node<'_, '_>) -> Result<Name, AllocError>
    ensures { IfOk result (λ name. name ≡ name_in (tree_of node.entry)) }
{
    name_in(alloc, naming(node))
}

// ---- by where they lie

/// An arc or a curve is refused on copper and on Edge.Cuts.
pub fn curve_by(alloc: Global, node: Node<'_, '_>, lies: LayerRole) -> Result<Vec<Item>, BoardError>
    ensures { GivesItems result (curve_by (tree_of node.entry) lies) }
{
    match lies {
        LayerRole::Copper(_) | LayerRole::Outlines => Err(BoardError::Arc { at: place(node) }),
        LayerRole::Front | LayerRole::Back | LayerRole::Elsewhere => Ok(Vec::new(alloc)),
    }
}

/// The items that a graphic gives by where it lies: one on copper or on Edge.Cuts, and none
/// elsewhere. The board takes them, as far as it has room.
#[tactic(auto, using(crate::proofs::Graphical::graphic_ready))]
pub fn read_graphic(
    alloc: Global,
    board: &Board,
    unit: u32,
    placement: Placement,
    kind: GraphicKind,
    node: Node<'_, '_>,
    lies: LayerRole,
) -> Result<Vec<Item>, BoardError>
    requires quarter { placement.quarter < 4 }
    requires at { IsPlacementRawPoint placement.at }
    requires on { HasLayerOfRole board.now.copper lies }
    ensures items { GivesItems result
        (graphic_by board.now unit placement kind (tree_of node.entry) lies) }
    ensures ready { IfOk result (λ items. All (IsReady board.now unit) items.items) }
{
    board.soundness();
    match lies {
        LayerRole::Copper(layer) => {
            let item = copper_graphic(alloc, board, unit, placement, kind, layer, node)?;
            Ok(one(alloc, item)?)
        }
        LayerRole::Outlines => {
            let item = edge_graphic(alloc, unit, placement, kind, node)?;
            Ok(one(alloc, item)?)
        }
        LayerRole::Front | LayerRole::Back | LayerRole::Elsewhere => Ok(Vec::new(alloc)),
    }
}

/// The note of a text or a dimension on copper. The board takes it, as far as it has room.
#[tactic(auto, using(crate::proofs::Graphical::text_ready))]
pub fn read_text(
    alloc: Global,
    board: &Board,
    unit: u32,
    about: About,
    node: Node<'_, '_>,
    lies: LayerRole,
) -> Result<Vec<Item>, BoardError>
    ensures items { GivesItems result (text_by unit about (tree_of node.entry) lies) }
    ensures ready { IfOk result (λ items. All (IsReady board.now unit) items.items) }
{
    board.soundness();
    match lies {
        LayerRole::Copper(_) => {
            let note = note_of(alloc, unit, about, node)?;
            Ok(one(alloc, note)?)
        }
        LayerRole::Outlines | LayerRole::Front | LayerRole::Back | LayerRole::Elsewhere => {
            Ok(Vec::new(alloc))
        }
    }
}
