//! Tracks and vias.

ghost use Rattle.std.specs.Prelude.{IfOk, IsTrue};
ghost use Rattle.sexpr_read.specs.TreeViews.{tree_of};
ghost use Rattle.part_read.specs.NodeResults.{Gives};
ghost use Rattle.part_read.specs.Ready.{IsReady};
ghost use Rattle.pcb_read.specs.Tracks.{track_of, via_of};
ghost use Rattle.copper_layers.specs.Layers.{is_within};
ghost use Rattle.pcb_read.specs.Drafts.{track_draft, via_draft};

use crate::drafts::{Draft, Form, item_on, net_number};
use crate::items::ViaForm;
use crate::usual::{usual_track, usual_via};
use board_items::{Board, BoardError, Item};
use copper_layers::LayerSet;
use list_read::{Wanted, find_elements, has_words, pick};
use part_read::{Strip, layer_of, layers_through, name_in, raw_point_of, size_given, size_of};
use sexpr_read::Node;
use std::alloc::Global;

// ---- tracks

const SEGMENT: [Wanted; 6] = [
    Wanted::Head(b"start"),
    Wanted::Head(b"end"),
    Wanted::Head(b"width"),
    Wanted::Head(b"layer"),
    Wanted::Head(b"net"),
    Wanted::Name,
];

/// The track of `(segment (start X Y) (end X Y) (width W) (layer NAME) (net N) (tstamp NAME))`, its unit left open.
#[inline(always)]
#[tactic(auto, unfolding(crate::specs::Drafts::track_draft))]
pub(crate) fn track_draft(
    alloc: Global,
    copper: LayerSet,
    node: Node<'_, '_>,
) -> Result<Draft, BoardError>
    ensures read { Gives result (track_draft copper (tree_of node.entry)) }
    ensures on { IfOk result (λ draft. IsTrue (is_within draft.layers copper)) }
{
    if let Some(usual) = usual_track(copper, node) {
        return usual.draft(alloc);
    }
    let mut found = [None; 6];
    find_elements(node, &SEGMENT, &mut found);
    let a = raw_point_of(node, pick(&found, 0))?;
    let b = raw_point_of(node, pick(&found, 1))?;
    let width = size_of(node, pick(&found, 2))?;
    let layer = layer_of(copper, node, pick(&found, 3))?;
    let net = net_number(pick(&found, 4))?;
    Ok(Draft {
        form: Form::Track(Strip { a, b, width }),
        name: name_in(alloc, pick(&found, 5))?,
        net,
        layers: LayerSet::of(layer),
    })
}

/// The track of a list.
#[inline(always)]
pub(crate) fn track_of(
    alloc: Global,
    board: &Board,
    unit: u32,
    node: Node<'_, '_>,
) -> Result<Item, BoardError>
    ensures read { Gives result (track_of board.now unit (tree_of node.entry)) }
    ensures ready { IfOk result (IsReady board.now unit) }
{
    match track_draft(alloc, board.copper(), node) {
        Ok(draft) => item_on(alloc, board, unit, node, draft),
        Err(error) => Err(error),
    }
}

// ---- vias

const VIA: [Wanted; 6] = [
    Wanted::Head(b"at"),
    Wanted::Head(b"size"),
    Wanted::Head(b"drill"),
    Wanted::Head(b"layers"),
    Wanted::Head(b"net"),
    Wanted::Name,
];

/// The via of `(via blind micro (at X Y) (size S) (drill D) (layers NAME NAME) (net N) (tstamp NAME))`, its unit left open.
#[inline(always)]
#[tactic(auto, unfolding(crate::specs::Drafts::via_draft))]
pub(crate) fn via_draft(
    alloc: Global,
    copper: LayerSet,
    node: Node<'_, '_>,
) -> Result<Draft, BoardError>
    ensures read { Gives result (via_draft copper (tree_of node.entry)) }
    ensures on { IfOk result (λ draft. IsTrue (is_within draft.layers copper)) }
{
    if let Some(usual) = usual_via(copper, node) {
        return usual.draft(alloc);
    }
    let mut found = [None; 6];
    find_elements(node, &VIA, &mut found);
    let at = raw_point_of(node, pick(&found, 0))?;
    let size = size_of(node, pick(&found, 1))?;
    let drill = size_given(pick(&found, 2))?;
    let layers = layers_through(copper, node, pick(&found, 3))?;
    let net = net_number(pick(&found, 4))?;
    let (micro, blind) = has_words(node, b"micro", b"blind");
    let form = ViaForm {
        at,
        size,
        drill,
        micro,
        blind,
    };
    Ok(Draft {
        form: Form::Via(form),
        name: name_in(alloc, pick(&found, 5))?,
        net,
        layers,
    })
}

/// The via of a list.
#[inline(always)]
pub(crate) fn via_of(
    alloc: Global,
    board: &Board,
    unit: u32,
    node: Node<'_, '_>,
) -> Result<Item, BoardError>
    ensures read { Gives result (via_of board.now unit (tree_of node.entry)) }
    ensures ready { IfOk result (IsReady board.now unit) }
{
    match via_draft(alloc, board.copper(), node) {
        Ok(draft) => item_on(alloc, board, unit, node, draft),
        Err(error) => Err(error),
    }
}
