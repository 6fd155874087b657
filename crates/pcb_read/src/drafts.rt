//! Tracks and vias as their lists say them, before it is their turn.

ghost use Rattle.std.specs.Prelude.{◌≡◌, true, is_some, option_map, IsTrue, Ok, Err, IfOk, IfErr, OnOk};
ghost use Rattle.board_items.specs.Boards.{PlainBoard, name_of};
ghost use Rattle.part_read.specs.NetsOf.{net_of};
ghost use Rattle.sexpr_read.specs.TreeViews.{tree_of};
ghost use Rattle.part_read.specs.NodeResults.{Gives};
ghost use Rattle.part_read.specs.Ready.{IsReady};
ghost use Rattle.part_read.specs.ElementResults.{given_or};
ghost use Rattle.copper_layers.specs.Layers.{is_within};
ghost use Rattle.pcb_read.specs.Drafts.{number_given, net_given, item_of, item_on, FitsBoard};

use crate::items::{Origin, ViaForm, track_along, via_of_form};
use board_items::{Board, BoardError, Item};
use copper_layers::LayerSet;
use drc_io::Name;
use list_read::{element, place};
use part_read::{Strip, first_atom, net_of, number_in};
use sexpr_read::Node;
use std::alloc::Global;

/// What a track or a via is by its numbers and words. It may lie off the board.
#[derive(Clone, Copy)]
pub enum Form {
    Track(Strip),
    Via(ViaForm),
}

/// A track or a via as its list says it. Its unit is left open.
#[derive(Drop)]
pub struct Draft {
    pub form: Form,
    pub name: Name,
    pub net: u32,
    pub layers: LayerSet,
}

/// The number in `(net NUMBER)`, or 0 without it. Whether the board has the net is asked when it is the track's or the via's turn.
#[tactic(auto, unfolding(crate::specs::Drafts::number_given))]
pub(crate) fn net_number(found: Option<Node<'_, '_>>) -> Result<u32, BoardError>
    ensures { result ≡ given_or 0 number_given (option_map tree_of found.entry) }
{
    match found {
        None => Ok(0),
        Some(list) => number_in(first_atom(list)?),
    }
}

/// The item of a draft that was made of this list, in this unit.
#[inline(always)]
pub(crate) fn item_of(
    alloc: Global,
    unit: u32,
    node: Node<'_, '_>,
    draft: Draft,
) -> Result<Item, BoardError>
    ensures read { Gives result (item_of unit (tree_of node.entry) draft) }
    ensures ready { (board : PlainBoard) → FitsBoard board draft
        → IfOk result (IsReady board unit) }
{
    let form = draft.form;
    let origin = Origin {
        name: draft.name,
        unit,
        net: draft.net,
        layers: draft.layers,
    };
    let item = match &form {
        Form::Track(strip) => track_along(alloc, *strip, origin),
        Form::Via(via) => via_of_form(alloc, via, origin),
    };
    match item {
        Some(item) => Ok(item),
        None => Err(BoardError::OutOfBoard { at: place(node) }),
    }
}

/// Whether the board has the net of a list, and else why the list is refused.
#[inline(always)]
fn check_net(board: &Board, node: Node<'_, '_>, net: u32) -> Result<(), BoardError>
    requires { net_given (tree_of node) ≡ Ok net }
    ensures known { OnOk result (net_of board.now (tree_of node.entry) ≡ Ok net) }
    ensures declared { OnOk result (is_some (name_of board.now net) ≡ true) }
    ensures refused { IfErr result (λ e. net_of board.now (tree_of node.entry) ≡ Err e) }
{
    if board.net_name(net).is_some() {
        return Ok(());
    }
    board.soundness();
    match net_of(board, element(node, b"net")) {
        Ok(_) => Ok(()),
        Err(error) => Err(error),
    }
}

/// The item of a draft where the board has the draft's net, and else the refusal of that net.
#[inline(always)]
pub(crate) fn item_on(
    alloc: Global,
    board: &Board,
    unit: u32,
    node: Node<'_, '_>,
    draft: Draft,
) -> Result<Item, BoardError>
    requires on { IsTrue (is_within draft.layers board.now.copper) }
    requires net { net_given (tree_of node) ≡ Ok draft.net }
    ensures read { Gives result (item_on board.now unit (tree_of node.entry) draft) }
    ensures ready { IfOk result (IsReady board.now unit) }
{
    if let Err(error) = check_net(board, node, draft.net) {
        drop(draft);
        return Err(error);
    }
    item_of(alloc, unit, node, draft)
}
