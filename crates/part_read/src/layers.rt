//! Copper layers by their names.

ghost use Rattle.std.specs.Prelude.{◌≡◌, ◌<◌, ℕ, List, ◌∷◌, Some, IfOk, IfSome, IsTrue, option_map};
ghost use Rattle.sexpr_read.specs.Tree.{value};
ghost use Rattle.copper_layers.specs.Layers.{has_layer, is_within};
ghost use Rattle.sexpr_read.specs.TreeViews.{tree_of};
ghost use Rattle.part_read.specs.ElementResults.{in_needed};
ghost use Rattle.part_read.specs.BoardLayers.{layer_number, listed, layers_listed, layer_in, copper_in, layer_at, layers_through, layer_if, outer_of, named, layers_named, drawn_on};
ghost use Rattle.part_read.specs.LayersWhere.{layers_of_any};
ghost use Rattle.part_read.specs.LayerSets.{GivesSet};

use crate::atoms::{first_atom, missing, second_atom};
use board_items::BoardError;
use copper_layers::{LayerSet, layer_name};
use list_read::place;
use sexpr_read::Node;

/// The layer that an atom names, if it is one of copper: all names are tried.
#[tactic(auto, unfolding(crate::specs::BoardLayers::layer_number))]
fn seek_layer(atom: Node<'_, '_>) -> Option<u32>
    ensures number { result ≡ layer_number (tree_of atom.entry) }
    ensures below { IfSome result (λ layer. layer < 32) }
{
    for layer in 0..32 {
        if atom.is(layer_name(layer)) {
            return Some(layer);
        }
    }
    None
}

/// Whether what an atom stands for may begin with this byte; an escape may stand for any. Only a no
/// is sure.
fn may_begin(atom: Node<'_, '_>, byte: u8) -> bool
    ensures { (rest : List ℕ) → value (tree_of atom.entry) ≡ Some (byte ∷ rest) → IsTrue result }
{
    let Some(content) = atom.atom() else {
        return false;
    };
    let Some(first) = content.first() else {
        return false;
    };
    *first == byte || *first == b'\\'
}

/// The layer that an atom names, if it is one of copper.
fn layer_number(atom: Node<'_, '_>) -> Option<u32>
    ensures number { result ≡ layer_number (tree_of atom.entry) }
    ensures below { IfSome result (λ layer. layer < 32) }
{
    // The 30 inner layers alone begin with this byte.
    if may_begin(atom, b'I') {
        return seek_layer(atom);
    }
    if atom.is(b"F.Cu") {
        return Some(0);
    }
    if atom.is(b"B.Cu") {
        return Some(31);
    }
    None
}

// ---- the list of layers of a board

/// The layer that `(NUMBER NAME ..)` lists, if it is one of copper.
#[tactic(auto, unfolding(crate::specs::BoardLayers::listed))]
fn listed(part: Node<'_, '_>) -> Result<LayerSet, BoardError>
    ensures { GivesSet result (listed (tree_of part.entry)) }
{
    if !part.is_list() {
        return Ok(LayerSet { bits: 0 });
    }
    let name = first_atom(part)?;
    match layer_number(name) {
        None => Ok(LayerSet { bits: 0 }),
        Some(layer) => Ok(LayerSet::of(layer)),
    }
}

/// The copper layers that `(layers (NUMBER NAME KIND) ..)` lists.
#[tactic(auto, unfolding(crate::specs::BoardLayers::layers_listed))]
pub fn layers_listed(list: Node<'_, '_>) -> Result<LayerSet, BoardError>
    ensures { result ≡ layers_listed (tree_of list.entry) }
{
    let mut set = LayerSet { bits: 0 };
    for part in list.children() {
        set = set.union(listed(part)?);
    }
    Ok(set)
}

// ---- a layer of an item

/// The copper layer of the board that an atom names; None where it names no copper layer, and is
/// passed over.
#[tactic(auto, unfolding(crate::specs::BoardLayers::layer_in))]
pub fn layer_in(copper: LayerSet, atom: Node<'_, '_>) -> Result<Option<u32>, BoardError>
    ensures layer { result ≡ layer_in copper (tree_of atom.entry) }
    ensures below { IfOk result (λ found. IfSome found (λ layer. layer < 32)) }
    ensures on { IfOk result (λ found. IfSome found (λ layer. IsTrue (has_layer copper layer))) }
{
    match layer_number(atom) {
        Some(layer) if copper.has(layer) => Ok(Some(layer)),
        None if !atom.ends_in(b".Cu") => Ok(None),
        _ => Err(BoardError::UnknownLayer { at: place(atom) }),
    }
}

/// The copper layer of the board that an atom names, where one must stand.
#[tactic(auto, unfolding(crate::specs::BoardLayers::copper_in))]
pub fn copper_in(copper: LayerSet, atom: Node<'_, '_>) -> Result<u32, BoardError>
    ensures layer { result ≡ copper_in copper (tree_of atom.entry) }
    ensures below { IfOk result (λ layer. layer < 32) }
    ensures on { IfOk result (λ layer. IsTrue (has_layer copper layer)) }
{
    match layer_in(copper, atom)? {
        Some(layer) => Ok(layer),
        None => Err(BoardError::UnknownLayer { at: place(atom) }),
    }
}

/// The one layer of `(layer NAME)`.
#[tactic(auto, unfolding(crate::specs::BoardLayers::layer_at))]
fn layer_at(copper: LayerSet, list: Node<'_, '_>) -> Result<u32, BoardError>
    ensures layer { result ≡ layer_at copper (tree_of list.entry) }
    ensures below { IfOk result (λ layer. layer < 32) }
    ensures on { IfOk result (λ layer. IsTrue (has_layer copper layer)) }
{
    copper_in(copper, first_atom(list)?)
}

/// The one layer of an element that the list must have.
pub fn layer_of(
    copper: LayerSet,
    node: Node<'_, '_>,
    found: Option<Node<'_, '_>>,
) -> Result<u32, BoardError>
    ensures layer { result
        ≡ in_needed (layer_at copper) (tree_of node.entry) (option_map tree_of found.entry) }
    ensures below { IfOk result (λ layer. layer < 32) }
    ensures on { IfOk result (λ layer. IsTrue (has_layer copper layer)) }
{
    match found {
        None => Err(missing(node)),
        Some(list) => layer_at(copper, list),
    }
}

/// The layers of the board from the one to the other of `(layers NAME NAME)`, whichever is above.
#[tactic(auto, unfolding(crate::specs::BoardLayers::layers_through))]
fn layers_between(copper: LayerSet, list: Node<'_, '_>) -> Result<LayerSet, BoardError>
    ensures layers { result ≡ layers_through copper (tree_of list.entry) }
    ensures on { IfOk result (λ layers. IsTrue (is_within layers copper)) }
{
    let one = copper_in(copper, first_atom(list)?)?;
    let other = copper_in(copper, second_atom(list)?)?;
    Ok(copper.between(one, other))
}

/// The layers of the board from the one to the other that an element names, which the list must
/// have.
pub fn layers_through(
    copper: LayerSet,
    node: Node<'_, '_>,
    found: Option<Node<'_, '_>>,
) -> Result<LayerSet, BoardError>
    ensures layers { result
        ≡ in_needed (layers_through copper) (tree_of node.entry) (option_map tree_of found.entry) }
    ensures on { IfOk result (λ layers. IsTrue (is_within layers copper)) }
{
    match found {
        None => Err(missing(node)),
        Some(list) => layers_between(copper, list),
    }
}

// ---- layers of an item, wildcards among them

/// A layer, if the board has it.
fn layer_if(copper: LayerSet, layer: u32) -> LayerSet
    requires { layer < 32 }
    ensures set { result ≡ layers_of_any (layer_if copper layer) }
    ensures on { IsTrue (is_within result copper) }
{
    if copper.has(layer) {
        LayerSet::of(layer)
    } else {
        LayerSet { bits: 0 }
    }
}

/// The front and the back of a board, as far as it has them.
fn outer_of(copper: LayerSet) -> LayerSet
    ensures set { result ≡ layers_of_any (outer_of copper) }
    ensures on { IsTrue (is_within result copper) }
{
    layer_if(copper, 0).union(layer_if(copper, 31))
}

/// The layers of the board that an atom names, with the wildcards `*.Cu` and `F&B.Cu`; a list is
/// passed over.
#[tactic(auto, unfolding(crate::specs::BoardLayers::named))]
pub fn named(copper: LayerSet, part: Node<'_, '_>) -> Result<LayerSet, BoardError>
    ensures set { GivesSet result (named copper (tree_of part.entry)) }
    ensures on { IfOk result (λ layers. IsTrue (is_within layers copper)) }
{
    if part.is_list() {
        return Ok(LayerSet { bits: 0 });
    }
    if part.is(b"*.Cu") {
        return Ok(copper);
    }
    if part.is(b"F&B.Cu") {
        return Ok(outer_of(copper));
    }
    match layer_in(copper, part)? {
        None => Ok(LayerSet { bits: 0 }),
        Some(layer) => Ok(LayerSet::of(layer)),
    }
}

/// The layers of the board that the atoms of `(layers NAME ..)` name.
#[tactic(auto, unfolding(crate::specs::BoardLayers::layers_named))]
pub fn layers_named(copper: LayerSet, list: Node<'_, '_>) -> Result<LayerSet, BoardError>
    ensures set { result ≡ layers_named copper (tree_of list.entry) }
    ensures on { IfOk result (λ layers. IsTrue (is_within layers copper)) }
{
    let mut set = LayerSet { bits: 0 };
    for part in list.children() {
        set = set.union(named(copper, part)?);
    }
    Ok(set)
}

/// The copper layer of the board that the layer of a graphic names; wildcards are passed over.
#[tactic(auto, unfolding(crate::specs::BoardLayers::drawn_on))]
pub(crate) fn drawn_on(copper: LayerSet, atom: Node<'_, '_>) -> Result<Option<u32>, BoardError>
    ensures layer { result ≡ drawn_on copper (tree_of atom.entry) }
    ensures below { IfOk result (λ found. IfSome found (λ layer. layer < 32)) }
    ensures on { IfOk result (λ found. IfSome found (λ layer. IsTrue (has_layer copper layer))) }
{
    if atom.is(b"*.Cu") || atom.is(b"F&B.Cu") {
        return Ok(None);
    }
    layer_in(copper, atom)
}
