//! The head of a footprint: its side, where it stands and how it is turned, its reference and its
//! clearance.

ghost use Rattle.std.specs.Prelude.{◌≡◌, ◌<◌, find, option_map, IfOk};
ghost use Rattle.sexpr_read.specs.Tree.{parts};
ghost use Rattle.sexpr_read.specs.TreeViews.{tree_of};
ghost use Rattle.part_read.specs.NodeResults.{Gives};
ghost use Rattle.part_read.specs.Placements.{IsReadRawPoint};
ghost use Rattle.footprint_read.specs.FootHead.{side_of, says, second_text, reference_of, head_of};

use board_items::BoardError;
use copper_layers::LayerSet;
use drc_io::Name;
use list_read::{element, has_head, name_from, place};
use pad_read::{Head, clearance_of, local_placement_of, quarters_of};
use part_read::{Placement, copper_in, first_atom, missing, second_atom};
use sexpr_read::Node;
use std::alloc::Global;

/// Whether `(layer NAME)` says that it is on the back.
#[tactic(auto, unfolding(crate::specs::FootHead::side_of))]
fn side_of(copper: LayerSet, node: Node<'_, '_>) -> Result<bool, BoardError>
    ensures { result ≡ side_of copper (tree_of node.entry) }
{
    let Some(list) = element(node, b"layer") else {
        return Err(missing(node));
    };
    let atom = first_atom(list)?;
    match copper_in(copper, atom)? {
        0 => Ok(false),
        31 => Ok(true),
        _ => Err(BoardError::UnknownLayer { at: place(atom) }),
    }
}

/// Whether it is `(HEAD WORD ..)`.
fn says(node: Node<'_, '_>, head: &[u8], word: &[u8]) -> bool
    ensures { result ≡ says head.now word.now (tree_of node.entry) }
{
    if !has_head(node, head) {
        return false;
    }
    let mut parts = node.children();
    parts.next();
    match parts.next() {
        None => false,
        Some(part) => part.is(word),
    }
}

/// The first part of a list that is `(HEAD WORD ..)`.
fn find_saying<'d, 't>(node: Node<'d, 't>, head: &[u8], word: &[u8]) -> Option<Node<'d, 't>>
    ensures { option_map tree_of result
        ≡ find (says head.now word.now) (parts (tree_of node.entry)) }
{
    for part in node.children() {
        if says(part, head, word) {
            return Some(part);
        }
    }
    None
}

/// The text at place 2 of a list.
fn second_text(alloc: Global, list: Node<'_, '_>) -> Result<Name, BoardError>
    ensures { Gives result (second_text (tree_of list.entry)) }
{
    let atom = second_atom(list)?;
    Ok(name_from(alloc, atom)?)
}

/// The reference, or the empty name.
#[tactic(auto, unfolding(crate::specs::FootHead::reference_of))]
fn reference_of(alloc: Global, node: Node<'_, '_>) -> Result<Name, BoardError>
    ensures { Gives result (reference_of (tree_of node.entry)) }
{
    if let Some(text) = find_saying(node, b"fp_text", b"reference") {
        return second_text(alloc, text);
    }
    match find_saying(node, b"property", b"Reference") {
        Some(property) => second_text(alloc, property),
        None => Ok(Name::of(Vec::new(alloc))),
    }
}

/// The head of a footprint.
#[tactic(auto, unfolding(crate::specs::FootHead::head_of))]
pub(crate) fn head_of(
    alloc: Global,
    copper: LayerSet,
    node: Node<'_, '_>,
) -> Result<Head, BoardError>
    ensures head { Gives result (head_of copper (tree_of node.entry)) }
    ensures within { IfOk result (λ head. IsReadRawPoint head.placement.at) }
    ensures below { IfOk result (λ head. head.placement.quarter < 4) }
{
    let on_back = side_of(copper, node)?;
    let local_placement = local_placement_of(node)?;
    let Some(quarter) = quarters_of(local_placement) else {
        return Err(BoardError::Turned { at: place(node) });
    };
    let reference = reference_of(alloc, node)?;
    let clearance = clearance_of(node)?;
    Ok(Head {
        on_back,
        placement: Placement {
            quarter,
            at: local_placement.at,
        },
        reference,
        clearance,
    })
}
