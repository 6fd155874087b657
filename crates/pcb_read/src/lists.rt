//! The items of a list of a board, by its sort.

ghost use Rattle.std.specs.Prelude.{◌≡◌, All, IfOk, Result, Ok};
ghost use Rattle.sexpr_read.specs.TreeViews.{tree_of};
ghost use Rattle.board_errors.specs.declared.errors.BoardError.{BoardError};
ghost use Rattle.one_item.specs.declared.item.Item.{Item};
ghost use Rattle.part_read.specs.NodeResults.{Gives};
ghost use Rattle.part_read.specs.Lists.{GivesItems};
ghost use Rattle.part_read.specs.Ready.{IsReady, AreReady};
ghost use Rattle.part_read.specs.Graphics.{one_item, graphic_by, curve_by, text_by};
ghost use Rattle.zone_read.specs.ZoneOf.{as_it_is};
ghost use Rattle.pcb_read.specs.RelatedResults.{GivesSome};
ghost use Rattle.pcb_read.specs.ItemsOf.{has_capacity, in_capacity, by_layer_role, SaysItems};

use crate::sorts::Sort;
use crate::tracks::{track_of, via_of};
use board_items::{About, Board, BoardError, Item};
use footprint_read::read_footprint;
use list_read::place;
use part_read::{
    GraphicKind, Placement, RawPoint, curve_by, has_capacity_after, layer_role_of, read_graphic,
    read_text,
};
use plain_types::one;
use sexpr_read::Node;
use std::alloc::Global;
use zone_read::read_zone;

// ---- room

/// Whether there is room for these items; none need any.
fn has_capacity(board: &Board, unit: u32, items: &[Item]) -> bool
    ensures { result ≡ has_capacity board.now unit items.now }
{
    items.is_empty() || has_capacity_after(items.len() - 1, board, unit)
}

/// The items of a list, where there is room for them.
fn in_capacity(
    board: &Board,
    unit: u32,
    node: Node<'_, '_>,
    items: Vec<Item>,
) -> Result<Vec<Item>, BoardError>
    requires { All (IsReady board.now unit) items.items }
    ensures items { GivesItems result
        (in_capacity board.now unit (tree_of node.entry) (Ok items.items)) }
    ensures ready { IfOk result (λ items. AreReady board.now unit items.items) }
{
    if !has_capacity(board, unit, &items) {
        drop(items);
        return Err(BoardError::TooMany { at: place(node) });
    }
    Ok(items)
}

/// The one item that was read of a list, where there is room for it.
fn one_in_capacity(
    alloc: Global,
    board: &Board,
    unit: u32,
    node: Node<'_, '_>,
    answer: Result<Item, BoardError>,
) -> Result<Vec<Item>, BoardError>
    requires { IfOk answer (IsReady board.now unit) }
    ensures items { (said : Result Item BoardError) → Gives answer said →
        GivesItems result (in_capacity board.now unit (tree_of node.entry) (one_item said)) }
    ensures ready { IfOk result (λ items. AreReady board.now unit items.items) }
{
    let items = one(alloc, answer?)?;
    in_capacity(board, unit, node, items)
}

// ---- graphics and texts

/// Nothing is turned or moved.
fn as_it_is() -> Placement
    ensures { result ≡ as_it_is }
{
    Placement {
        quarter: 0,
        at: RawPoint { x: 0, y: 0 },
    }
}

fn graphic_items(
    alloc: Global,
    board: &Board,
    unit: u32,
    kind: GraphicKind,
    node: Node<'_, '_>,
) -> Result<Vec<Item>, BoardError>
    ensures items { GivesItems result
        (in_capacity board.now unit (tree_of node.entry) (by_layer_role board.now
        (tree_of node.entry) (graphic_by board.now unit as_it_is kind (tree_of node.entry)))) }
    ensures ready { IfOk result (λ items. AreReady board.now unit items.items) }
{
    let lies = layer_role_of(board.copper(), node)?;
    let items = read_graphic(alloc, board, unit, as_it_is(), kind, node, lies)?;
    in_capacity(board, unit, node, items)
}

fn curve_items(
    alloc: Global,
    board: &Board,
    unit: u32,
    node: Node<'_, '_>,
) -> Result<Vec<Item>, BoardError>
    ensures items { GivesItems result
        (by_layer_role board.now (tree_of node.entry) (curve_by (tree_of node.entry))) }
    ensures ready { IfOk result (λ items. AreReady board.now unit items.items) }
{
    let lies = layer_role_of(board.copper(), node)?;
    curve_by(alloc, node, lies)
}

fn text_items(
    alloc: Global,
    board: &Board,
    unit: u32,
    about: About,
    node: Node<'_, '_>,
) -> Result<Vec<Item>, BoardError>
    ensures items { GivesItems result
        (in_capacity board.now unit (tree_of node.entry) (by_layer_role board.now
        (tree_of node.entry) (text_by unit about (tree_of node.entry)))) }
    ensures ready { IfOk result (λ items. AreReady board.now unit items.items) }
{
    let lies = layer_role_of(board.copper(), node)?;
    let items = read_text(alloc, board, unit, about, node, lies)?;
    in_capacity(board, unit, node, items)
}

/// The items of a list of this sort. The board takes them.
pub(crate) fn read_list(
    alloc: Global,
    board: &Board,
    unit: u32,
    node: Node<'_, '_>,
    sort: Sort,
) -> Result<Vec<Item>, BoardError>
    ensures items { GivesSome result (SaysItems board.now unit (tree_of node.entry) sort) }
    ensures ready { IfOk result (λ items. AreReady board.now unit items.items) }
{
    match sort {
        Sort::Track => one_in_capacity(
            alloc,
            board,
            unit,
            node,
            track_of(alloc, board, unit, node),
        ),
        Sort::Via => one_in_capacity(alloc, board, unit, node, via_of(alloc, board, unit, node)),
        Sort::Arc => Err(BoardError::Arc { at: place(node) }),
        Sort::Graphic(kind) => graphic_items(alloc, board, unit, kind, node),
        Sort::Curve => curve_items(alloc, board, unit, node),
        Sort::Text(about) => text_items(alloc, board, unit, about, node),
        Sort::Zone => read_zone(alloc, node, board, unit),
        Sort::Footprint => read_footprint(alloc, node, board, unit),
    }
}
