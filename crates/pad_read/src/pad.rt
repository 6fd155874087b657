//! Pads as items.

ghost use Rattle.std.specs.Prelude.{◌≡◌, ◌<◌, true, codes, is_some, IfOk, IsTrue};
ghost use Rattle.sexpr_read.specs.TreeViews.{tree_of};
ghost use Rattle.board_items.specs.Boards.{name_of};
ghost use Rattle.copper_layers.specs.Layers.{is_within};
ghost use Rattle.list_read.specs.FirstRefusals.{needed};
ghost use Rattle.list_read.specs.NamedElements.{element};
ghost use Rattle.list_read.specs.ListHeads.{place as begin_of};
ghost use Rattle.part_read.specs.ElementResults.{in_needed};
ghost use Rattle.part_read.specs.BoardLayers.{layers_named};
ghost use Rattle.part_read.specs.NodeResults.{Gives};
ghost use Rattle.part_read.specs.OnBoard.{tested};
ghost use Rattle.part_read.specs.Ready.{IsReady};
ghost use Rattle.part_read.specs.Placements.{IsReadRawPoint};
ghost use Rattle.pad_read.specs.PadShapes.{IsSmall};
ghost use Rattle.pad_read.specs.PadFrames.{IsFramed};
ghost use Rattle.pad_read.specs.PadOf.{frame_copper, frame_hole, frame_fits, local_fits, pad_item, pad_with, placed, label_of, pad_of};
ghost use Rattle.one_item.specs.declared.item.What.TheVariants.{Pad};
ghost use Rattle.board_errors.specs.declared.errors.BoardError.TheVariants.{OutOfBoard};
ghost use Rattle.part_read.specs.NetsOf.{net_of};

use crate::copper::frame_copper;
use crate::forms::{Form, form_of};
use crate::frames::frame_of;
use crate::head::Head;
use crate::holes::frame_hole;
use crate::labels::Label;
use crate::local_placements::clearance_of;
use crate::pads::Frame;
use crate::primitives::primitives_fit;
use crate::turning::{Clearances, local_of, sizes_fit, some_fit};
use board_items::{Board, BoardError, Boxed, Hole, Item, Nm, Parts, What};
use copper_layers::LayerSet;
use drc_io::Name;
use list_read::{element, name_from, place};
use part_read::{RawPoint, first_atom, fits_board, layers_named, missing, name_of_list, net_of};
use plain_types::is_length;
use sexpr_read::Node;
use std::alloc::{AllocError, Global};

/// Whether the clearance is a length, if there is one.
fn local_fits(local: Option<Nm>) -> bool
    ensures { result ≡ local_fits local }
{
    match local {
        None => true,
        Some(clearance) => is_length(clearance),
    }
}

/// Whether the position lies on the board, and the pad and its hole are at most 500 mm large.
fn frame_fits(frame: Frame) -> bool
    ensures { result ≡ frame_fits frame }
{
    fits_board(frame.at) && (sizes_fit(frame.sizes) && some_fit(frame.drilling.sizes))
}

/// What a pad is beside other items: its number and the reference of its footprint.
fn pad_what(alloc: Global, number: Name, reference: Name) -> Result<What, AllocError>
    ensures { IfOk result (λ what. what ≡ Pad number reference) }
{
    Ok(What::Pad {
        number: Boxed::new(alloc, number)?,
        reference: Boxed::new(alloc, reference)?,
    })
}

/// The pad with this copper and this hole, unless its clearance is above 500 mm.
fn pad_item(
    alloc: Global,
    label: Label,
    at: RawPoint,
    copper: Parts,
    hole: Option<Hole>,
) -> Result<Option<Item>, AllocError>
    ensures { IfOk result (λ item.
        item ≡ tested (local_fits label.local) (pad_item label at copper hole)) }
{
    if !local_fits(label.local) {
        drop(label);
        drop(copper);
        drop(hole);
        return Ok(None);
    }
    let what = match pad_what(alloc, label.number, label.reference) {
        Ok(what) => what,
        Err(error) => {
            drop(label.name);
            drop(copper);
            drop(hole);
            return Err(error);
        }
    };
    Ok(Some(Item {
        name: label.name,
        unit: label.unit,
        net: label.net,
        x: at.x,
        y: at.y,
        copper,
        hole,
        local: label.local,
        what,
    }))
}

/// The pad, unless its copper or its hole leaves the board.
fn pad_with(
    alloc: Global,
    label: Label,
    copper: LayerSet,
    layers: LayerSet,
    frame: Frame,
    form: &Form,
) -> Result<Option<Item>, AllocError>
    requires framed { IsFramed frame }
    requires small { IsSmall form.now.rounded_rect }
    ensures { IfOk result (λ item. item ≡ pad_with label frame.at
        (frame_copper layers frame form.now) (frame_hole copper frame)) }
{
    let parts = match frame_copper(alloc, layers, frame, form) {
        Ok(Some(parts)) => parts,
        Ok(None) => {
            drop(label);
            return Ok(None);
        }
        Err(error) => {
            drop(label);
            return Err(error);
        }
    };
    match frame_hole(alloc, copper, frame) {
        Ok(Some(hole)) => pad_item(alloc, label, frame.at, parts, hole),
        Ok(None) => {
            drop(label);
            drop(parts);
            Ok(None)
        }
        Err(error) => {
            drop(label);
            drop(parts);
            Err(error)
        }
    }
}

/// The pad, unless it leaves the board or a size of it or of a primitive is above 500 mm.
fn placed(
    alloc: Global,
    copper: LayerSet,
    layers: LayerSet,
    label: Label,
    frame: Frame,
    form: &Form,
) -> Result<Option<Item>, AllocError>
    requires framed { IsFramed frame }
    requires small { IsSmall form.now.rounded_rect }
    ensures { IfOk result (λ item. item ≡ placed copper layers label frame form.now) }
{
    if !(frame_fits(frame) && primitives_fit(form.primitives.as_slice())) {
        drop(label);
        return Ok(None);
    }
    pad_with(alloc, label, copper, layers, frame, form)
}

/// The pad, which the board takes. It is refused at its list where it leaves the board, or a size
/// of it or of a primitive is above 500 mm.
fn pad_on(
    alloc: Global,
    board: &Board,
    layers: LayerSet,
    label: Label,
    frame: Frame,
    form: &Form,
    node: Node<'_, '_>,
) -> Result<Item, BoardError>
    requires framed { IsFramed frame }
    requires small { IsSmall form.now.rounded_rect }
    requires net { is_some (name_of board.now label.net) ≡ true }
    requires on { IsTrue (is_within layers board.now.copper) }
    ensures pad { Gives result (needed (OutOfBoard (begin_of (tree_of node.entry)))
        (placed board.now.copper layers label frame form.now)) }
    ensures ready { IfOk result (IsReady board.now label.unit) }
{
    let found = placed(alloc, board.copper(), layers, label, frame, form)?;
    match found {
        Some(pad) => Ok(pad),
        None => Err(BoardError::OutOfBoard { at: place(node) }),
    }
}

// ---- what is read

/// The layers of a pad.
fn layers_of(copper: LayerSet, node: Node<'_, '_>) -> Result<LayerSet, BoardError>
    ensures layers { result ≡ in_needed (layers_named copper) (tree_of node.entry)
        (element (codes "layers") (tree_of node.entry)) }
    ensures on { IfOk result (λ layers. IsTrue (is_within layers copper)) }
{
    match element(node, b"layers") {
        None => Err(missing(node)),
        Some(list) => layers_named(copper, list),
    }
}

/// The net of a pad, or 0, which is always there.
fn declared_net(board: &Board, node: Node<'_, '_>) -> Result<u32, BoardError>
    ensures net { result ≡ net_of board.now (tree_of node.entry) }
    ensures declared { IfOk result (λ net. is_some (name_of board.now net) ≡ true) }
{
    board.soundness();
    net_of(board, element(node, b"net"))
}

/// What a pad has besides its form.
fn label_of(
    alloc: Global,
    unit: u32,
    net: u32,
    own: Nm,
    head: &Head,
    number: Node<'_, '_>,
    node: Node<'_, '_>,
) -> Result<Label, AllocError>
    ensures label { IfOk result (λ label.
        label ≡ label_of unit net own head.now (tree_of number.entry) (tree_of node.entry)) }
    ensures unit { IfOk result (λ label. label.unit ≡ unit) }
    ensures net { IfOk result (λ label. label.net ≡ net) }
{
    let clearances = Clearances {
        own,
        of_footprint: head.clearance,
    };
    Ok(Label {
        name: name_of_list(alloc, node)?,
        unit,
        net,
        number: name_from(alloc, number)?,
        reference: head.reference.copy()?,
        local: local_of(&clearances),
    })
}

/// A pad of a footprint with this head, from its list: an item of this unit, in nanometres, its
/// copper and its hole in half nanometres. The footprint is turned by 0 to 3 quarter turns, and
/// stands at most 10^12 nanometres from 0 in x and in y. The board takes the pad, as far as it has
/// room.
///
/// Its refusals are those of [`BoardError`], exactly where the definition of a pad (`specs/PadOf`)
/// has them, with their places; running out of memory alone is free.
#[tactic(auto, unfolding(crate::specs::PadOf::pad_of))]
pub fn pad_of(
    alloc: Global,
    board: &Board,
    unit: u32,
    head: &Head,
    node: Node<'_, '_>,
) -> Result<Item, BoardError>
    requires quarter { head.now.placement.quarter < 4 }
    requires at { IsReadRawPoint head.now.placement.at }
    ensures pad { Gives result (pad_of board.now unit head.now (tree_of node.entry)) }
    ensures ready { IfOk result (IsReady board.now unit) }
{
    let number = first_atom(node)?;
    let frame = frame_of(head.placement, node)?;
    let layers = layers_of(board.copper(), node)?;
    let form = form_of(alloc, frame.word, frame.sizes, node)?;
    let net = declared_net(board, node)?;
    let own = clearance_of(node)?;
    let label = label_of(alloc, unit, net, own, head, number, node)?;
    pad_on(alloc, board, layers, label, frame, &form, node)
}
