//! The root of a board's text, part by part.

ghost use Rattle.std.specs.Prelude.{◌≡◌, ◌≤◌, ◌++◌, ◌∷◌, ◌⊎◌, [], suc, List, length, option_map, find, false, Ok, Err, OnOk, IfOk, IfErr, MatchResult};
ghost use Rattle.board_errors.specs.declared.errors.BoardError.{BoardError};
ghost use Rattle.board_items.specs.Boards.{empty_board};
ghost use Rattle.sexpr_read.specs.Tree.{parts, is_list};
ghost use Rattle.sexpr_read.specs.TreeViews.{tree_of};
ghost use Rattle.part_read.specs.NodeResults.{Leaves};
ghost use Rattle.sexpr_read.specs.declared.place.Span.{Span};
ghost use Rattle.pcb_read.specs.RelatedResults.{LeavesSome};
ghost use Rattle.pcb_read.specs.BoardOf.{with_layers, with_other, SaysWith, SaysPart, SaysParts, version_in, header_in, SaysBoard};
ghost use Rattle.pcb_read.specs.UnitSpans.{with_span, SaysSpans, AreSpans, GivesBoardWith};

use crate::adding::{add_items, add_one};
use crate::aside::read_parts_by;
use crate::lists::read_list;
use crate::nets::read_net;
use crate::slot::Read;
use crate::sorts::{Sort, sort_of};
use crate::spans::Spans;
use crate::tracks::{track_of, via_of};
use board_items::{Board, BoardError};
use copper_layers::LayerSet;
use list_read::{has_head, place};
use part_read::{first_atom, layers_listed};
use sexpr_read::{Node, Span};
use std::alloc::{AllocError, Global};
use std::thread::Threads;

/// The first list in a list.
fn first_list<'d, 't>(node: Node<'d, 't>) -> Option<Node<'d, 't>>
    ensures { option_map tree_of result ≡ find is_list (parts (tree_of node.entry)) }
{
    for part in node.children() {
        if part.is_list() {
            return Some(part);
        }
    }
    None
}

/// Whether the root begins with `(version N)`, N being that of KiCad 7 or KiCad 8.
#[tactic(auto, unfolding(crate::specs::BoardOf::version_in))]
fn check_version(root: Node<'_, '_>) -> Result<(), BoardError>
    ensures { result ≡ version_in (tree_of root.entry) }
{
    match first_list(root) {
        Some(list) if has_head(list, b"version") => {
            let atom = first_atom(list)?;
            if atom.is(b"20221018") || atom.is(b"20240108") {
                Ok(())
            } else {
                Err(BoardError::Version { at: place(atom) })
            }
        }
        _ => Err(BoardError::Missing { at: place(root) }),
    }
}

/// Takes the layers of the first list of layers; a second one is passed over.
#[tactic(auto, unfolding(crate::specs::BoardOf::with_layers))]
fn read_layers(board: &mut Board, layered: &mut bool, list: Node<'_, '_>) -> Result<(), BoardError>
    requires { layered.old ≡ false → board.old.copper.bits ≡ 0 }
    ensures read { Leaves result (record { board = board.new; layered = layered.new })
        (with_layers (record { board = board.old; layered = layered.old }) (tree_of list.entry)) }
    ensures unlisted { OnOk result (layered.new ≡ false → board.new.copper.bits ≡ 0) }
    ensures unit { OnOk result (board.new.next_unit ≡ board.old.next_unit) }
{
    if *layered {
        return Ok(());
    }
    let copper = layers_listed(list)?;
    board.set_copper(copper);
    *layered = true;
    Ok(())
}

/// Reads a part that gives no items; what is neither a net nor the layers is passed over.
#[tactic(auto, unfolding(crate::specs::BoardOf::with_other))]
fn read_other(
    alloc: Global,
    board: &mut Board,
    layered: &mut bool,
    node: Node<'_, '_>,
) -> Result<(), BoardError>
    requires { layered.old ≡ false → board.old.copper.bits ≡ 0 }
    ensures read { Leaves result (record { board = board.new; layered = layered.new })
        (with_other (record { board = board.old; layered = layered.old }) (tree_of node.entry)) }
    ensures unlisted { OnOk result (layered.new ≡ false → board.new.copper.bits ≡ 0) }
    ensures unit { OnOk result (board.new.next_unit ≡ board.old.next_unit) }
{
    if has_head(node, b"net") {
        read_net(alloc, board, node)
    } else if has_head(node, b"layers") {
        read_layers(board, layered, node)
    } else {
        Ok(())
    }
}

/// Appends the items of a list of this sort, as a unit of their own. Most lists of a board are tracks and vias, which need
/// no list of items.
fn read_items(
    alloc: Global,
    board: &mut Board,
    node: Node<'_, '_>,
    sort: Sort,
) -> Result<(), BoardError>
    ensures read { LeavesSome result board.new (SaysWith board.old (tree_of node.entry) sort) }
    ensures copper { OnOk result (board.new.copper ≡ board.old.copper) }
    ensures not_below { OnOk result (board.old.next_unit ≤ board.new.next_unit) }
    ensures one_at_most { OnOk result (board.new.next_unit ≤ suc board.old.next_unit) }
{
    let unit = board.next_unit();
    match sort {
        Sort::Track => {
            let answer = track_of(alloc, board, unit, node);
            add_one(board, unit, node, answer)
        }
        Sort::Via => {
            let answer = via_of(alloc, board, unit, node);
            add_one(board, unit, node, answer)
        }
        _ => {
            let items = read_list(alloc, board, unit, node, sort)?;
            add_items(board, unit, items)
        }
    }
}

/// Reads one part of the root.
pub(crate) fn read_part(
    alloc: Global,
    board: &mut Board,
    layered: &mut bool,
    node: Node<'_, '_>,
) -> Result<(), BoardError>
    requires { layered.old ≡ false → board.old.copper.bits ≡ 0 }
    ensures read { LeavesSome result (record { board = board.new; layered = layered.new })
        (SaysPart (record { board = board.old; layered = layered.old }) (tree_of node.entry)) }
    ensures unlisted { OnOk result (layered.new ≡ false → board.new.copper.bits ≡ 0) }
    ensures not_below { OnOk result (board.old.next_unit ≤ board.new.next_unit) }
    ensures one_at_most { OnOk result (board.new.next_unit ≤ suc board.old.next_unit) }
{
    match sort_of(node) {
        Some(sort) => read_items(alloc, board, node, sort),
        None => read_other(alloc, board, layered, node),
    }
}

/// So many parts are counted at the front of a root.
const FRONT: u32 = 4096;

/// About how many parts the root has: counted where they are few, and else told from how long the first ones are. Nothing depends on
/// it but where memory is taken.
fn about_parts(root: Node<'_, '_>) -> usize {
    let whole = root.span();
    let mut count = 0u32;
    let mut seen = 0u32;
    for part in root.children() {
        if count == FRONT {
            let length = u64::from(whole.end.saturating_sub(whole.at));
            let about = u64::from(count)
                .saturating_mul(length)
                .checked_div(u64::from(seen));
            return about.unwrap_or(0) as usize;
        }
        count = count.saturating_add(1);
        seen = part.span().end.saturating_sub(whole.at);
    }
    count as usize
}

/// Whether the root is that of a board, of a version that is read.
#[tactic(auto, unfolding(crate::specs::BoardOf::header_in))]
fn check_header(root: Node<'_, '_>) -> Result<(), BoardError>
    ensures { result ≡ header_in (tree_of root.entry) }
{
    if !has_head(root, b"kicad_pcb") {
        return Err(BoardError::NotABoard { at: place(root) });
    }
    check_version(root)
}

fn push_span(spans: &mut Vec<Span>, span: Span) -> Result<(), AllocError>
    ensures { OnOk result (spans.new.items ≡ spans.old.items ++ span ∷ []) }
{
    spans.push(span)?;
    Ok(())
}

/// Reads one part of the root, and notes its span where it gave items.
fn read_spanned(
    alloc: Global,
    board: &mut Board,
    layered: &mut bool,
    node: Node<'_, '_>,
    spans: &mut Vec<Span>,
) -> Result<(), BoardError>
    requires { layered.old ≡ false → board.old.copper.bits ≡ 0 }
    ensures read { LeavesSome result (record { board = board.new; layered = layered.new })
        (SaysPart (record { board = board.old; layered = layered.old }) (tree_of node.entry)) }
    ensures unlisted { OnOk result (layered.new ≡ false → board.new.copper.bits ≡ 0) }
    ensures spans { OnOk result ((others : List Span) → spans.old.items ++
        with_span (record { board = board.old; layered = layered.old })
        (record { board = board.new; layered = layered.new }) (tree_of node.entry) others
        ≡ spans.new.items ++ others) }
    ensures each { OnOk result (length spans.old.items ≡ board.old.next_unit
        → length spans.new.items
        ≡ board.new.next_unit) }
{
    let unit = board.next_unit();
    read_part(alloc, board, layered, node)?;
    if board.next_unit() != unit {
        push_span(spans, node.span())?;
    }
    Ok(())
}

/// Reads all parts of the root, and gives the spans of those that gave items.
fn read_parts(
    alloc: Global,
    board: &mut Board,
    layered: &mut bool,
    root: Node<'_, '_>,
) -> Result<Vec<Span>, BoardError>
    requires unlisted { layered.old ≡ false → board.old.copper.bits ≡ 0 }
    requires none { board.old.next_unit ≡ 0 }
    ensures read { LeavesSome result (record { board = board.new; layered = layered.new })
        (SaysParts (record { board = board.old; layered = layered.old })
        (parts (tree_of root.entry))) }
    ensures spans { IfOk result (λ spans.
        SaysSpans (record { board = board.old; layered = layered.old })
        (parts (tree_of root.entry)) spans.items) }
    ensures each { IfOk result (λ spans. length spans.items ≡ board.new.next_unit) }
{
    let mut spans = Vec::new(alloc);
    for part in root.children() {
        read_spanned(alloc, board, layered, part, &mut spans)?;
    }
    Ok(spans)
}

/// An empty board with room for about all items of the root, if that is the root of a board.
fn new_board(alloc: Global, root: Node<'_, '_>) -> Result<Board, BoardError>
    ensures board { IfOk result (λ board. (board ≡ empty_board (record { bits = 0 })) ×
        (header_in (tree_of root.entry) ≡ Ok tt)) }
    ensures refused { IfErr result (λ e. (e ≡ BoardError.OutOfMemory)
        ⊎ (header_in (tree_of root.entry) ≡ Err e)) }
{
    check_header(root)?;
    let mut board = Board::new(alloc, LayerSet { bits: 0 })?;
    // Most parts are items: room for about all of them is made once.
    let capacity = about_parts(root).min(board.left() as usize);
    match board.reserve(capacity) {
        Ok(()) => Ok(board),
        Err(_) => {
            drop(board);
            Err(BoardError::OutOfMemory)
        }
    }
}

/// The board of the root and the spans of its units, or the first reason in the text why there is no board.
pub(crate) fn board_of(alloc: Global, root: Node<'_, '_>) -> Result<(Board, Spans), BoardError>
    ensures says { GivesBoardWith result (SaysBoard (tree_of root.entry)) }
    ensures spans { IfOk result (λ read. AreSpans (tree_of root.entry) read.1) }
    ensures each { IfOk result (λ read. length read.1 ≡ read.0.next_unit) }
{
    let mut board = new_board(alloc, root)?;
    let mut layered = false;
    let spans = match read_parts(alloc, &mut board, &mut layered, root) {
        Ok(spans) => spans,
        Err(error) => {
            drop(board);
            return Err(error);
        }
    };
    if layered {
        Ok((board, Spans::of(spans)))
    } else {
        drop(spans);
        drop(board);
        Err(BoardError::Missing { at: place(root) })
    }
}

/// The board of the root, its tracks and vias drafted side by side.
pub(crate) fn board_by(
    rt: &(impl Threads + Sync),
    alloc: Global,
    root: Node<'_, '_>,
) -> Result<Board, BoardError>
    ensures { MatchResult result (λ board. SaysBoard (tree_of root.entry) (Ok board))
        (λ e. (e ≡ BoardError.OutOfMemory) ⊎ SaysBoard (tree_of root.entry) (Err e)) }
{
    let mut read = Read {
        board: new_board(alloc, root)?,
        layered: false,
    };
    if let Err(error) = read_parts_by(rt, alloc, &mut read, root) {
        drop(read);
        return Err(error);
    }
    if read.layered {
        Ok(read.board)
    } else {
        drop(read);
        Err(BoardError::Missing { at: place(root) })
    }
}
