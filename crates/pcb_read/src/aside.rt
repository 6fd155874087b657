//! The root of a board's text by several threads: the parts of a block are taken off the root, and their tracks and vias drafted side by
//! side, while the parts of the block before it are read one after the other.

ghost use Rattle.std.specs.Prelude.{◌≡◌, ◌<◌, ◌++◌, [], map, true, false, is_some, IfOk, IfSome, OnOk};
ghost use Rattle.sexpr_read.specs.Tree.{parts};
ghost use Rattle.sexpr_read.specs.TreeViews.{tree_of, trees_left};
ghost use Rattle.board_items.specs.Boards.{name_of};
ghost use Rattle.pcb_read.specs.RelatedResults.{LeavesSome};
ghost use Rattle.pcb_read.specs.BoardOf.{SaysPart, SaysParts};
ghost use Rattle.pcb_read.specs.Drafts.{IsDraft};
ghost use Rattle.pcb_read.specs.PartSlots.{tree_in, AreSame, IsNext, reading_of};

use crate::adding::add_one;
use crate::drafts::{Draft, item_of};
use crate::root::read_part;
use crate::slot::{Ahead, Read, Slot};
use crate::sorts::{Sort, sort_of};
use crate::tracks::{track_draft, via_draft};
use board_items::{Board, BoardError};
use copper_layers::LayerSet;
use rayon::prelude::*;
use sexpr_read::{Children, Node};
use std::alloc::{AllocError, Global};
use std::mem::replace;
use std::thread::{Threads, join_mut};

/// So many parts are read before any are drafted: the list of layers stands at the front of a board.
const FRONT: usize = 256;

/// So many parts are drafted before they are read.
const BLOCK: usize = 8_192;

/// From how many parts on threads are worth their start.
const MANY: usize = 2_000;

/// The draft of a list, if it is that of a track or a via.
fn draft_of(alloc: Global, copper: LayerSet, node: Node<'_, '_>) -> Option<Draft>
    ensures { IfSome result (IsDraft copper (tree_of node.entry)) }
{
    match sort_of(node) {
        Some(Sort::Track) => track_draft(alloc, copper, node).ok(),
        Some(Sort::Via) => via_draft(alloc, copper, node).ok(),
        _ => None,
    }
}

/// A part of the root with its draft, if it is the list of a track or a via.
fn drafted<'d>(alloc: Global, copper: LayerSet, node: Node<'d, 'd>) -> Slot<'d>
    ensures { tree_in result ≡ tree_of node.entry }
{
    Slot {
        node,
        copper,
        draft: draft_of(alloc, copper, node),
    }
}

/// Drafts all parts of a block, by as many threads as there are processors.
fn draft_all(rt: &(impl Threads + Sync), alloc: Global, copper: LayerSet, block: &mut [Slot<'_>])
    ensures { AreSame block.old block.new }
{
    par_for_each_mut(
        rt,
        block,
        |_: usize, slot: &mut Slot<'_>|
            ensures { tree_in slot.new ≡ tree_in slot.old }
        {
            *slot = drafted(alloc, copper, slot.node);
        },
    );
}

/// The next parts of the root, so many at most, none of them drafted; no part where none is left.
fn next_block<'d>(
    alloc: Global,
    most: usize,
    left: &mut Children<'d, 'd>,
) -> Result<Vec<Slot<'d>>, AllocError>
    requires { 0 < most }
    ensures block { IfOk result (λ block.
        map tree_in block.items ++ trees_left left.new ≡ trees_left left.old) }
    ensures last { IfOk result (λ block. block.items ≡ [] → trees_left left.old ≡ []) }
{
    let mut block = Vec::with_capacity(alloc, most)?;
    while block.len() < most {
        let Some(node) = left.next() else {
            return Ok(block);
        };
        block.push(Slot {
            node,
            copper: LayerSet { bits: 0 },
            draft: None,
        })?;
    }
    Ok(block)
}

/// Puts the next parts ahead, drafted where they are many and the board has its layers.
fn draft_next(
    rt: &(impl Threads + Sync),
    alloc: Global,
    copper: LayerSet,
    ahead: &mut Ahead<'_>,
) -> Result<(), AllocError>
    ensures { OnOk result (IsNext (trees_left ahead.old.left) ahead.new) }
{
    ahead.block = next_block(alloc, BLOCK, &mut ahead.left)?;
    if ahead.block.len() < MANY || copper.bits == 0 {
        return Ok(());
    }
    draft_all(rt, alloc, copper, &mut ahead.block);
    Ok(())
}

/// Whether the board is as the draft needs it.
fn holds(board: &Board, copper: LayerSet, draft: &Draft) -> bool
    ensures { result ≡ true → (board.now.copper ≡ copper)
        × (is_some (name_of board.now draft.now.net)
        ≡ true) }
{
    board.copper() == copper && board.net_name(draft.net).is_some()
}

/// Reads one part of the root, by its draft where that holds.
fn read_slot(
    alloc: Global,
    board: &mut Board,
    layered: &mut bool,
    slot: Slot<'_>,
) -> Result<(), BoardError>
    requires { layered.old ≡ false → board.old.copper.bits ≡ 0 }
    ensures read { LeavesSome result (record { board = board.new; layered = layered.new })
        (SaysPart (record { board = board.old; layered = layered.old }) (tree_in slot.entry)) }
    ensures unlisted { OnOk result (layered.new ≡ false → board.new.copper.bits ≡ 0) }
{
    let node = slot.node;
    let copper = slot.copper;
    let maybe = slot.draft;
    let Some(draft) = maybe else {
        return read_part(alloc, board, layered, node);
    };
    if !holds(board, copper, &draft) {
        drop(draft);
        return read_part(alloc, board, layered, node);
    }
    let unit = board.next_unit();
    let answer = item_of(alloc, unit, node, draft);
    add_one(board, unit, node, answer)
}

/// Takes the parts out of a block, and reads them one after the other.
fn read_block(alloc: Global, read: &mut Read, block: &mut Vec<Slot<'_>>) -> Result<(), BoardError>
    requires { read.old.layered ≡ false → read.old.board.copper.bits ≡ 0 }
    ensures says { LeavesSome result (reading_of read.new) (SaysParts (reading_of read.old)
        (map tree_in block.old.items)) }
    ensures unlisted { OnOk result (read.new.layered ≡ false → read.new.board.copper.bits ≡ 0) }
{
    for slot in replace(block, Vec::new(alloc)) {
        if let Err(error) = read_slot(alloc, &mut read.board, &mut read.layered, slot) {
            return Err(error);
        }
    }
    Ok(())
}

/// Reads a block, and puts the next ahead by other threads meanwhile.
fn read_and_draft(
    rt: &(impl Threads + Sync),
    alloc: Global,
    read: &mut Read,
    mut block: Vec<Slot<'_>>,
    ahead: &mut Ahead<'_>,
) -> Result<(), BoardError>
    requires { read.old.layered ≡ false → read.old.board.copper.bits ≡ 0 }
    ensures says { LeavesSome result (reading_of read.new) (SaysParts (reading_of read.old)
        (map tree_in block.entry.items)) }
    ensures unlisted { OnOk result (read.new.layered ≡ false → read.new.board.copper.bits ≡ 0) }
    ensures next { OnOk result (IsNext (trees_left ahead.old.left) ahead.new) }
{
    let copper = read.board.copper();
    let (answer, drafted) = join_mut(
        rt,
        &mut || read_block(alloc, read, &mut block),
        &mut || draft_next(rt, alloc, copper, ahead),
    );
    // What the text is refused for comes first, as with one worker.
    if answer.is_ok() {
        drafted?;
    }
    answer
}

/// Reads the block that is ahead, and drafts the next meanwhile. The first parts, which may list the layers, are read before any
/// other block is drafted.
fn read_next(
    rt: &(impl Threads + Sync),
    alloc: Global,
    read: &mut Read,
    ahead: &mut Ahead<'_>,
) -> Result<(), BoardError>
    requires { read.old.layered ≡ false → read.old.board.copper.bits ≡ 0 }
    ensures says { LeavesSome result (reading_of read.new) (SaysParts (reading_of read.old)
        (map tree_in ahead.old.block.items)) }
    ensures unlisted { OnOk result (read.new.layered ≡ false → read.new.board.copper.bits ≡ 0) }
    ensures next { OnOk result (IsNext (trees_left ahead.old.left) ahead.new) }
{
    let mut block = replace(&mut ahead.block, Vec::new(alloc));
    if block.len() == BLOCK {
        return read_and_draft(rt, alloc, read, block, ahead);
    }
    read_block(alloc, read, &mut block)?;
    draft_next(rt, alloc, read.board.copper(), ahead)?;
    Ok(())
}

/// Reads all parts of the root.
pub(crate) fn read_parts_by<'d>(
    rt: &(impl Threads + Sync),
    alloc: Global,
    read: &mut Read,
    root: Node<'d, 'd>,
) -> Result<(), BoardError>
    requires { read.old.layered ≡ false → read.old.board.copper.bits ≡ 0 }
    ensures { LeavesSome result (reading_of read.new) (SaysParts (reading_of read.old)
        (parts (tree_of root.entry))) }
{
    let mut left = root.children();
    let block = next_block(alloc, FRONT, &mut left)?;
    let mut ahead = Ahead { block, left };
    'blocks: while !ahead.block.is_empty() {
        if let Err(error) = read_next(rt, alloc, read, &mut ahead) {
            return Err(error);
        }
    }
    Ok(())
}
