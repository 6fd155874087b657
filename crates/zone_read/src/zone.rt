//! The items of a zone: a rule area by its polygon, or the fills on copper.

ghost use Rattle.std.specs.Prelude.{◌≡◌, ◌+◌, ◌<◌, ◌∷◌, ◌++◌, [], true, false, Some, is_some, IfOk, IfSome, OnOk, IsTrue, option_map};
ghost use Rattle.board_items.specs.Boards.{PlainBoard, name_of};
ghost use Rattle.copper_layers.specs.Layers.{has_layer, is_within};
ghost use Rattle.part_read.specs.OnBoard.{fits_board};
ghost use Rattle.part_read.specs.Ready.{IsReady, AreReady};
ghost use Rattle.part_read.specs.Capacity.{has_capacity_after};
ghost use Rattle.sexpr_read.specs.Tree.{parts};
ghost use Rattle.sexpr_read.specs.TreeViews.{tree_of};
ghost use Rattle.part_read.specs.NodeResults.{Gives};
ghost use Rattle.part_read.specs.Lists.{GivesItems};
ghost use Rattle.list_read.specs.NamedElements.{element};
ghost use Rattle.part_read.specs.NetsOf.{net_of};
ghost use Rattle.part_read.specs.Figures.{first_of};
ghost use Rattle.zone_read.specs.FillSteps.{TakesFill};
ghost use Rattle.zone_read.specs.ZoneOf.{layers_among, zone_layers, title_of, area_of, ban_of, bans_in, polygon_of, area_in_capacity, rule_area, is_thin, fill_layer, fill_on, fill_in_capacity, fills_after, zone_of};

use board_items::{Bans, Board, BoardError, Boxed, Item, Part, What};
use copper_layers::LayerSet;
use drc_io::Name;
use geo_seg::{Core, Poly, Shape};
use list_read::{element, has_head, name_from, place};
use part_read::{
    Corners, Placement, RawPoint, around, corners_of, first_atom, has_capacity_after, layer_in,
    layers_named, missing, name_of_list, named, net_of, no_parts, no_radius, one_part, plain_item,
    points_stood,
};
use plain_types::one;
use sexpr_read::Node;
use std::alloc::{AllocError, Global};

/// What the items of a zone belong to: a board, a unit and a net.
#[derive(Clone, Copy)]
struct Owner<'a> {
    board: &'a Board,
    unit: u32,
    net: u32,
}

// ---- net, layers and name

/// The net of a zone, or 0, which is always there.
fn declared_net(board: &Board, node: Node<'_, '_>) -> Result<u32, BoardError>
    ensures net { result ≡ net_of board.now (tree_of node.entry) }
    ensures declared { IfOk result (λ net. is_some (name_of board.now net) ≡ true) }
{
    board.soundness();
    net_of(board, element(node, b"net"))
}

/// The copper layers that the element `layer` names, else those of the element `layers`.
fn layers_among(
    copper: LayerSet,
    node: Node<'_, '_>,
    layer: Option<Node<'_, '_>>,
    layers: Option<Node<'_, '_>>,
) -> Result<LayerSet, BoardError>
    ensures layers { result ≡ layers_among copper (tree_of node.entry)
        (option_map tree_of layer.entry) (option_map tree_of layers.entry) }
    ensures on { IfOk result (λ layers. IsTrue (is_within layers copper)) }
{
    if let Some(list) = layer {
        let atom = first_atom(list)?;
        let set = named(copper, atom)?;
        return Ok(set);
    }
    match layers {
        Some(list) => layers_named(copper, list),
        None => Err(missing(node)),
    }
}

/// The copper layers of `(layer NAME)`, else of `(layers NAME ..)`.
#[tactic(auto, unfolding(crate::specs::ZoneOf::zone_layers))]
fn zone_layers(copper: LayerSet, node: Node<'_, '_>) -> Result<LayerSet, BoardError>
    ensures layers { result ≡ zone_layers copper (tree_of node.entry) }
    ensures on { IfOk result (λ layers. IsTrue (is_within layers copper)) }
{
    layers_among(
        copper,
        node,
        element(node, b"layer"),
        element(node, b"layers"),
    )
}

/// The text of `(name TEXT)`, or the empty one.
#[tactic(auto, unfolding(crate::specs::ZoneOf::title_of))]
fn title_of(alloc: Global, node: Node<'_, '_>) -> Result<Name, BoardError>
    ensures { Gives result (title_of (tree_of node.entry)) }
{
    match element(node, b"name") {
        None => Ok(Name::of(Vec::new(alloc))),
        Some(list) => {
            let atom = first_atom(list)?;
            Ok(name_from(alloc, atom)?)
        }
    }
}

// ---- areas

/// The polygon of these corners, unless it leaves the board.
fn area_of(alloc: Global, corners: &Corners) -> Result<Option<Shape>, AllocError>
    ensures shape { IfOk result (λ shape. shape ≡ area_of corners.now) }
    ensures near { IfOk result (λ shape.
        IfSome shape (λ _. fits_board (first_of corners.now) ≡ true)) }
{
    let placement = Placement {
        quarter: 0,
        at: RawPoint { x: 0, y: 0 },
    };
    match points_stood(alloc, placement, corners.as_slice())? {
        None => Ok(None),
        Some(points) => {
            let core = Core::Area(Poly::indexed(alloc, points)?);
            Ok(Some(around(no_radius(), core)))
        }
    }
}

/// The first corner, by which a report names an area.
fn first_of(corners: &Corners) -> RawPoint
    ensures { result ≡ first_of corners.now }
{
    corners.as_slice()[0]
}

// ---- rule areas

/// Whether `(HEAD not_allowed)` stands in the list.
fn ban_of(list: Node<'_, '_>, head: &[u8]) -> Result<bool, BoardError>
    ensures { result ≡ ban_of head.now (tree_of list.entry) }
{
    match element(list, head) {
        None => Ok(false),
        Some(ban) => {
            let atom = first_atom(ban)?;
            Ok(atom.is(b"not_allowed"))
        }
    }
}

/// What a rule area bans.
#[tactic(auto, unfolding(crate::specs::ZoneOf::bans_in))]
fn bans_in(list: Node<'_, '_>) -> Result<Bans, BoardError>
    ensures { result ≡ bans_in (tree_of list.entry) }
{
    let tracks = ban_of(list, b"tracks")?;
    let vias = ban_of(list, b"vias")?;
    let pads = ban_of(list, b"pads")?;
    let footprints = ban_of(list, b"footprints")?;
    Ok(Bans {
        tracks,
        vias,
        pads,
        footprints,
    })
}

/// The corners of `(polygon (pts (xy X Y) ..))`.
#[tactic(auto, unfolding(crate::specs::ZoneOf::polygon_of))]
fn polygon_of(alloc: Global, node: Node<'_, '_>) -> Result<Corners, BoardError>
    ensures { Gives result (polygon_of (tree_of node.entry)) }
{
    match element(node, b"polygon") {
        None => Err(missing(node)),
        Some(list) => corners_of(alloc, list),
    }
}

/// The area of these corners, where it lies on the board and there is room for it.
#[tactic(auto, unfolding(crate::specs::ZoneOf::area_in_capacity))]
fn area_in_capacity(
    alloc: Global,
    board: &Board,
    unit: u32,
    node: Node<'_, '_>,
    corners: &Corners,
) -> Result<Shape, BoardError>
    ensures shape { Gives result (area_in_capacity board.now unit
        (tree_of node.entry) corners.now) }
    ensures near { OnOk result (fits_board (first_of corners.now) ≡ true) }
    ensures capacity { OnOk result (has_capacity_after 0 board.now unit ≡ true) }
{
    let Some(shape) = area_of(alloc, corners)? else {
        return Err(BoardError::OutOfBoard { at: place(node) });
    };
    if !has_capacity_after(0, board, unit) {
        return Err(BoardError::TooMany { at: place(node) });
    }
    Ok(shape)
}

/// The rule area of a zone.
#[tactic(auto, unfolding(crate::specs::ZoneOf::rule_area))]
fn rule_area(
    alloc: Global,
    owner: &Owner<'_>,
    node: Node<'_, '_>,
    layers: LayerSet,
    title: Name,
    keepout: Node<'_, '_>,
) -> Result<Item, BoardError>
    requires net { is_some (name_of owner.now.board.now owner.now.net) ≡ true }
    requires on { IsTrue (is_within layers owner.now.board.now.copper) }
    ensures area { Gives result (rule_area owner.now.board.now owner.now.unit (tree_of node.entry)
        owner.now.net layers title (tree_of keepout.entry)) }
    ensures ready { IfOk result (IsReady owner.now.board.now owner.now.unit) }
    ensures capacity { OnOk result (has_capacity_after 0 owner.now.board.now owner.now.unit
        ≡ true) }
{
    let corners = polygon_of(alloc, node)?;
    let bans = bans_in(keepout)?;
    let shape = area_in_capacity(alloc, owner.board, owner.unit, node, &corners)?;
    let name = name_of_list(alloc, node)?;
    let what = area_what(alloc, title, bans, Part { layers, shape })?;
    Ok(plain_item(
        name,
        owner.unit,
        owner.net,
        first_of(&corners),
        no_parts(alloc),
        what,
    ))
}

/// What a rule area is beside other items: its name, its bans and its area.
fn area_what(alloc: Global, title: Name, bans: Bans, shape: Part) -> Result<What, AllocError>
    ensures { IfOk result (λ what. what ≡ What.Area title bans shape) }
{
    Ok(What::Area {
        title: Boxed::new(alloc, title)?,
        bans,
        shape: Boxed::new(alloc, shape)?,
    })
}

// ---- fills

/// Whether the zone says that its fills have no outline with a width.
#[tactic(auto, unfolding(crate::specs::ZoneOf::is_thin))]
fn is_thin(node: Node<'_, '_>) -> bool
    ensures { result ≡ is_thin (tree_of node.entry) }
{
    match element(node, b"filled_areas_thickness") {
        None => false,
        Some(list) => match first_atom(list) {
            Ok(atom) => atom.is(b"no"),
            Err(_) => false,
        },
    }
}

/// The copper layer of a filled polygon; None for one that is passed over.
#[tactic(auto, unfolding(crate::specs::ZoneOf::fill_layer))]
fn fill_layer(copper: LayerSet, list: Node<'_, '_>) -> Result<Option<u32>, BoardError>
    ensures layer { result ≡ fill_layer copper (tree_of list.entry) }
    ensures below { IfOk result (λ found. IfSome found (λ layer. layer < 32)) }
    ensures on { IfOk result (λ found. IfSome found (λ layer. IsTrue (has_layer copper layer))) }
{
    match element(list, b"layer") {
        None => Err(missing(list)),
        Some(layer) => {
            let atom = first_atom(layer)?;
            layer_in(copper, atom)
        }
    }
}

/// The fill of a filled polygon on this layer.
#[tactic(auto, unfolding(crate::specs::ZoneOf::fill_on))]
fn fill_on(
    alloc: Global,
    unit: u32,
    net: u32,
    node: Node<'_, '_>,
    layer: u32,
    list: Node<'_, '_>,
) -> Result<Item, BoardError>
    requires { layer < 32 }
    ensures fill { Gives result (fill_on unit net (tree_of node.entry) layer (tree_of list.entry)) }
    ensures ready { (board : PlainBoard) → is_some (name_of board net) ≡ true
        → IsTrue (has_layer board.copper layer) → IfOk result (IsReady board unit) }
{
    let corners = corners_of(alloc, list)?;
    let Some(shape) = area_of(alloc, &corners)? else {
        return Err(BoardError::OutOfBoard { at: place(list) });
    };
    let copper = one_part(alloc, LayerSet::of(layer), shape);
    let name = name_of_list(alloc, node)?;
    Ok(plain_item(name, unit, net, first_of(&corners), copper, What::Fill))
}

/// The fill of a polygon on this layer, after so many, where its outline has no width and there is
/// room for it.
#[tactic(auto, unfolding(crate::specs::ZoneOf::fill_in_capacity))]
fn fill_in_capacity(
    alloc: Global,
    found: usize,
    owner: &Owner<'_>,
    node: Node<'_, '_>,
    list: Node<'_, '_>,
    layer: u32,
) -> Result<Item, BoardError>
    requires below { layer < 32 }
    requires on { IsTrue (has_layer owner.now.board.now.copper layer) }
    requires net { is_some (name_of owner.now.board.now owner.now.net) ≡ true }
    ensures fill { Gives result (fill_in_capacity found owner.now.board.now owner.now.unit
        owner.now.net
        (tree_of node.entry) (tree_of list.entry) layer) }
    ensures ready { IfOk result (IsReady owner.now.board.now owner.now.unit) }
    ensures capacity { OnOk result (has_capacity_after found owner.now.board.now owner.now.unit
        ≡ true) }
{
    if !is_thin(node) {
        return Err(BoardError::ThickFill { at: place(node) });
    }
    let fill = fill_on(alloc, owner.unit, owner.net, node, layer, list)?;
    if !has_capacity_after(found, owner.board, owner.unit) {
        drop(fill);
        return Err(BoardError::TooMany { at: place(list) });
    }
    Ok(fill)
}

/// Puts an item behind the others.
fn push_item(items: &mut Vec<Item>, item: Item) -> Result<(), AllocError>
    ensures { OnOk result (items.new.items ≡ items.old.items ++ item ∷ []) }
{
    items.push(item)?;
    Ok(())
}

/// Takes the fill of a part, if it is a filled polygon on copper.
fn take_fill(
    alloc: Global,
    owner: &Owner<'_>,
    node: Node<'_, '_>,
    part: Node<'_, '_>,
    fills: &mut Vec<Item>,
) -> Result<(), BoardError>
    requires net { is_some (name_of owner.now.board.now owner.now.net) ≡ true }
    requires ready { AreReady owner.now.board.now owner.now.unit fills.old.items }
    ensures taken { TakesFill result owner.now.board.now owner.now.unit owner.now.net
        (tree_of node.entry) (tree_of part.entry) fills.old.items fills.new.items }
    ensures ready { OnOk result (AreReady owner.now.board.now owner.now.unit fills.new.items) }
{
    if !has_head(part, b"filled_polygon") {
        return Ok(());
    }
    let Some(layer) = fill_layer(owner.board.copper(), part)? else {
        return Ok(());
    };
    let fill = fill_in_capacity(alloc, fills.as_slice().len(), owner, node, part, layer)?;
    push_item(fills, fill)?;
    Ok(())
}

/// The fills of a zone.
#[tactic(auto, using(crate::proofs::Admitting::none_ready))]
fn fills_of(alloc: Global, owner: &Owner<'_>, node: Node<'_, '_>) -> Result<Vec<Item>, BoardError>
    requires { is_some (name_of owner.now.board.now owner.now.net) ≡ true }
    ensures fills { GivesItems result (fills_after 0 owner.now.board.now owner.now.unit
        owner.now.net (tree_of node.entry) (parts (tree_of node.entry))) }
    ensures ready { IfOk result (λ items. AreReady owner.now.board.now owner.now.unit items.items) }
{
    let mut fills = Vec::new(alloc);
    for part in node.children() {
        if let Err(error) = take_fill(alloc, owner, node, part, &mut fills) {
            drop(fills);
            return Err(error);
        }
    }
    Ok(fills)
}

/// The items of a zone: its rule area where it has `keepout`, else one fill for each filled polygon
/// on copper.
///
/// Its refusals are those of [`BoardError`], exactly where the items of a zone (`specs/ZoneOf`)
/// have them, with their places; running out of memory alone is free. A fill keeps the boxes of its runs
/// of corners.
#[tactic(auto, using(crate::proofs::Admitting::one_ready), unfolding(crate::specs::ZoneOf::zone_of))]
pub fn read_zone(
    alloc: Global,
    node: Node<'_, '_>,
    board: &Board,
    unit: u32,
) -> Result<Vec<Item>, BoardError>
    ensures items { GivesItems result (zone_of board.now unit (tree_of node.entry)) }
    ensures ready { IfOk result (λ items. AreReady board.now unit items.items) }
{
    let net = declared_net(board, node)?;
    let layers = zone_layers(board.copper(), node)?;
    let title = title_of(alloc, node)?;
    let owner = Owner { board, unit, net };
    match element(node, b"keepout") {
        None => {
            drop(title);
            fills_of(alloc, &owner, node)
        }
        Some(keepout) => {
            let area = rule_area(alloc, &owner, node, layers, title, keepout)?;
            Ok(one(alloc, area)?)
        }
    }
}
