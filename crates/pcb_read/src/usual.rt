//! Tracks and vias whose elements stand in the usual order, in which KiCad writes them: each is read where it stands, and none is
//! looked for. That a list does not look so is no refusal. It is then read by the names of its elements.

ghost use Rattle.std.specs.Prelude.{◌≡◌, ◌<◌, codes, true, Ok, Some, IfSome, IsTrue};
ghost use Rattle.sexpr_read.specs.TreeViews.{tree_of};
ghost use Rattle.copper_layers.specs.Layers.{has_layer, is_within};
ghost use Rattle.list_read.specs.ListHeads.{has_head};
ghost use Rattle.part_read.specs.BoardLayers.{layer_at, layers_through};
ghost use Rattle.part_read.specs.BoardNumbers.{raw_point_at, size_at};
ghost use Rattle.part_read.specs.ElementResults.{atom_of};
ghost use Rattle.part_read.specs.NodeResults.{Gives};
ghost use Rattle.pcb_read.specs.Drafts.{number_given, track_draft, via_draft};
ghost use Rattle.pcb_read.specs.UsualLists.{IsReadUnder, said};

use crate::drafts::{Draft, Form};
use crate::items::ViaForm;
use board_items::{BoardError, Nm};
use copper_layers::LayerSet;
use list_read::is_naming;
use part_read::{RawPoint, Strip, copper_in, length_in, name_in, number_in, size_in};
use sexpr_read::Node;
use std::alloc::Global;

/// A track or a via that was read in the usual order. Its name is still to be taken from the list that gives it.
#[derive(Clone, Copy)]
pub struct Usual<'d, 't> {
    pub form: Form,
    pub net: u32,
    pub layers: LayerSet,
    pub name: Node<'d, 't>,
}

impl Usual<'_, '_> {
    /// Its draft. Only running out of memory refuses it.
    pub(crate) fn draft(self, alloc: Global) -> Result<Draft, BoardError>
        ensures { Gives result (Ok (said self.entry)) }
    {
        Ok(Draft {
            form: self.form,
            name: name_in(alloc, Some(self.name))?,
            net: self.net,
            layers: self.layers,
        })
    }
}

// ---- elements where they stand

/// The atom behind the head, if the list has this head and an atom behind it.
#[inline(always)]
#[tactic(auto, unfolding(list_read::specs::ListHeads::has_head, part_read::specs::ElementResults::atom_of))]
fn one_atom<'d, 't>(list: Node<'d, 't>, head: &[u8]) -> Option<Node<'d, 't>>
    ensures head { IfSome result (λ _. has_head head.now (tree_of list.entry) ≡ true) }
    ensures atom { IfSome result (λ atom. atom_of 1 (tree_of list.entry) ≡ Ok (tree_of atom)) }
{
    let mut parts = list.children();
    if !parts.next()?.is(head) {
        return None;
    }
    match parts.next() {
        Some(atom) if !atom.is_list() => Some(atom),
        _ => None,
    }
}

/// The two atoms behind the head, if the list has this head and two atoms behind it.
#[inline(always)]
#[tactic(auto, unfolding(list_read::specs::ListHeads::has_head, part_read::specs::ElementResults::atom_of))]
fn two_atoms<'d, 't>(list: Node<'d, 't>, head: &[u8]) -> Option<(Node<'d, 't>, Node<'d, 't>)>
    ensures head { IfSome result (λ _. has_head head.now (tree_of list.entry) ≡ true) }
    ensures first { IfSome result (λ two. atom_of 1 (tree_of list.entry) ≡ Ok (tree_of two.0)) }
    ensures second { IfSome result (λ two. atom_of 2 (tree_of list.entry) ≡ Ok (tree_of two.1)) }
{
    let mut parts = list.children();
    if !parts.next()?.is(head) {
        return None;
    }
    match (parts.next(), parts.next()) {
        (Some(first), Some(second)) if !first.is_list() && !second.is_list() => {
            Some((first, second))
        }
        _ => None,
    }
}

/// The raw point of a list `(HEAD X Y)` with this head.
#[inline(always)]
#[tactic(auto, unfolding(part_read::specs::BoardNumbers::raw_point_at))]
fn point_under(list: Node<'_, '_>, head: &[u8]) -> Option<RawPoint>
    ensures { IfSome result (IsReadUnder head.now raw_point_at (tree_of list.entry)) }
{
    let (first, second) = two_atoms(list, head)?;
    let x = length_in(first).ok()?;
    let y = length_in(second).ok()?;
    Some(RawPoint { x, y })
}

/// The size of a list `(HEAD SIZE)` with this head.
#[inline(always)]
#[tactic(auto, unfolding(part_read::specs::BoardNumbers::size_at))]
fn size_under(list: Node<'_, '_>, head: &[u8]) -> Option<Nm>
    ensures { IfSome result (IsReadUnder head.now size_at (tree_of list.entry)) }
{
    size_in(one_atom(list, head)?).ok()
}

/// The number of `(net NUMBER)`. Whether the board has the net is asked later.
#[inline(always)]
#[tactic(auto, unfolding(crate::specs::Drafts::number_given))]
fn net_under(list: Node<'_, '_>) -> Option<u32>
    ensures { IfSome result (IsReadUnder (codes "net") number_given (tree_of list.entry)) }
{
    number_in(one_atom(list, b"net")?).ok()
}

/// The layer of `(layer NAME)`, one of these.
#[inline(always)]
#[tactic(auto, unfolding(part_read::specs::BoardLayers::layer_at))]
fn layer_under(copper: LayerSet, list: Node<'_, '_>) -> Option<u32>
    ensures layer { IfSome result
        (IsReadUnder (codes "layer") (layer_at copper) (tree_of list.entry)) }
    ensures below { IfSome result (λ layer. layer < 32) }
    ensures on { IfSome result (λ layer. IsTrue (has_layer copper layer)) }
{
    copper_in(copper, one_atom(list, b"layer")?).ok()
}

/// The layers of `(layers NAME NAME)`, all of them among these.
#[inline(always)]
#[tactic(auto, unfolding(part_read::specs::BoardLayers::layers_through))]
fn layers_under(copper: LayerSet, list: Node<'_, '_>) -> Option<LayerSet>
    ensures layers { IfSome result
        (IsReadUnder (codes "layers") (layers_through copper) (tree_of list.entry)) }
    ensures on { IfSome result (λ layers. IsTrue (is_within layers copper)) }
{
    let (first, second) = two_atoms(list, b"layers")?;
    let Ok(one) = copper_in(copper, first) else {
        return None;
    };
    let Ok(other) = copper_in(copper, second) else {
        return None;
    };
    Some(copper.between(one, other))
}

// ---- lists in the usual order

/// The track of `(segment (start X Y) (end X Y) (width W) (layer NAME) (net N) (tstamp NAME) ..)`, if all stands so and nothing in it is
/// refused.
#[inline(always)]
pub(crate) fn usual_track<'d, 't>(copper: LayerSet, node: Node<'d, 't>) -> Option<Usual<'d, 't>>
    ensures read { IfSome result
        (λ usual. track_draft copper (tree_of node.entry) ≡ Ok (said usual)) }
    ensures on { IfSome result (λ usual. IsTrue (is_within usual.layers copper)) }
{
    let mut parts = node.children();
    if parts.next()?.is_list() {
        return None;
    }
    let a = point_under(parts.next()?, b"start")?;
    let b = point_under(parts.next()?, b"end")?;
    let width = size_under(parts.next()?, b"width")?;
    let layer = layer_under(copper, parts.next()?)?;
    let net = net_under(parts.next()?)?;
    let name = parts.next()?;
    if !is_naming(name) {
        return None;
    }
    Some(Usual {
        form: Form::Track(Strip { a, b, width }),
        net,
        layers: LayerSet::of(layer),
        name,
    })
}

/// The via of `(via (at X Y) (size S) (drill D) (layers NAME NAME) (net N) (tstamp NAME))`, if all stands so, nothing comes behind it and
/// nothing in it is refused. So it is neither `micro` nor `blind`.
#[inline(always)]
pub(crate) fn usual_via<'d, 't>(copper: LayerSet, node: Node<'d, 't>) -> Option<Usual<'d, 't>>
    ensures read { IfSome result
        (λ usual. via_draft copper (tree_of node.entry) ≡ Ok (said usual)) }
    ensures on { IfSome result (λ usual. IsTrue (is_within usual.layers copper)) }
{
    let mut parts = node.children();
    if !parts.next()?.is(b"via") {
        return None;
    }
    let at = point_under(parts.next()?, b"at")?;
    let size = size_under(parts.next()?, b"size")?;
    let drill = size_under(parts.next()?, b"drill")?;
    let layers = layers_under(copper, parts.next()?)?;
    let net = net_under(parts.next()?)?;
    let name = parts.next()?;
    if !is_naming(name) {
        return None;
    }
    if parts.next().is_some() {
        return None;
    }
    let form = ViaForm {
        at,
        size,
        drill: Some(drill),
        micro: false,
        blind: false,
    };
    Some(Usual {
        form: Form::Via(form),
        net,
        layers,
        name,
    })
}
