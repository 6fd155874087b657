//! What is looked up of the items of some ids, before an edit and after it.

ghost use Rattle.std.specs.Prelude.{◌≡◌, ◌++◌, ◌∷◌, [], All, Contains, OnOk, IfSome, List, ℕ};
ghost use Rattle.geo_seg.specs.declared.boxes.Bounds.{Bounds};
ghost use Rattle.geo_seg.specs.Boxes.{FitsIndex};
ghost use Rattle.drc_session.specs.Looks.{IsBoxAt, AreBoxesIn, HasNetsOf};

use board_items::Board;
use geo_seg::Bounds;
use std::alloc::AllocError;

/// The box of the item of the id; None where there is no such item, and where it has no bounds.
pub(crate) fn box_of(board: &Board, id: u32) -> Option<Bounds>
    ensures own { IsBoxAt board.now id result }
    ensures fits { IfSome result FitsIndex }
{
    match board.get(id) {
        None => None,
        Some(item) => item.bounds(),
    }
}

/// Appends the box of the item of the id, if it has one.
fn push_box(board: &Board, id: u32, boxes: &mut Vec<Bounds>) -> Result<(), AllocError>
    ensures boxes { OnOk result
        ((found : List Bounds) × (boxes.new.items ≡ boxes.old.items ++ found)
        × AreBoxesIn board.now (id ∷ []) found) }
    ensures fit { OnOk result (All FitsIndex boxes.old.items → All FitsIndex boxes.new.items) }
{
    if let Some(bounds) = box_of(board, id) {
        boxes.push(bounds)?;
    }
    Ok(())
}

/// Appends the boxes of the items of these ids that have bounds.
pub(crate) fn push_boxes(
    board: &Board,
    ids: &[u32],
    boxes: &mut Vec<Bounds>,
) -> Result<(), AllocError>
    ensures boxes { OnOk result
        ((found : List Bounds) × (boxes.new.items ≡ boxes.old.items ++ found)
        × AreBoxesIn board.now ids.now found) }
    ensures fit { OnOk result (All FitsIndex boxes.old.items → All FitsIndex boxes.new.items) }
{
    for id in ids {
        push_box(board, *id, boxes)?;
    }
    Ok(())
}

/// Appends the net of the item of the id, if there is one.
fn push_net(board: &Board, id: u32, nets: &mut Vec<u32>) -> Result<(), AllocError>
    ensures kept { OnOk result
        ((net : ℕ) → Contains nets.old.items net → Contains nets.new.items net) }
    ensures nets { OnOk result (HasNetsOf board.now (id ∷ []) nets.new.items) }
{
    if let Some(item) = board.get(id) {
        nets.push(item.net)?;
    }
    Ok(())
}

/// Appends the nets of the items of these ids.
pub(crate) fn push_nets(board: &Board, ids: &[u32], nets: &mut Vec<u32>) -> Result<(), AllocError>
    ensures kept { OnOk result
        ((net : ℕ) → Contains nets.old.items net → Contains nets.new.items net) }
    ensures nets { OnOk result (HasNetsOf board.now ids.now nets.new.items) }
{
    for id in ids {
        push_net(board, *id, nets)?;
    }
    Ok(())
}
