//! Edits of the board.

ghost use Rattle.std.specs.Prelude.{◌≡◌, ◌≢◌, ◌<◌, true, false, [], List, length, All, OnOk, IfOk};
ghost use Rattle.std.specs.List.Sorted.{IsStrictlyIncreasing};
ghost use Rattle.plain_types.specs.Limits.{AreCounted, IsWorkerCount};
ghost use Rattle.plain_types.specs.Lengths.{IsLength};
ghost use Rattle.geo_seg.specs.declared.boxes.Bounds.{Bounds};
ghost use Rattle.geo_seg.specs.Boxes.{FitsIndex};
ghost use Rattle.board_items.specs.Boards.{PlainBoard};
ghost use Rattle.board_index.specs.IndexedItems.{IsIndexOfItems};
ghost use Rattle.board_laws.specs.Edits.{IsEdit};
ghost use Rattle.box_index.specs.Tiles.{dirty_of, held_of};
ghost use Rattle.rule_pick.specs.AllFacts.{HasFacts};
ghost use Rattle.pair_check.specs.Rows.{Checked, AreRows};
ghost use Rattle.row_check.specs.RowsOfTile.{IsIndexOf};
ghost use Rattle.net_groups.specs.NetParts.{AreParts};
ghost use Rattle.kept_facts.specs.FactUpdates.{AreMarksBefore};
ghost use Rattle.kept_rows.specs.CheckChanges.{IsCheckChange};
ghost use Rattle.board_edits.specs.Operations.{nothing};
ghost use Rattle.board_edits.specs.Fitting.{plain_operation, OperationFits, GivesNothing, AddsNone};
ghost use Rattle.drc_state.specs.States.{checked_in};
ghost use Rattle.drc_state.specs.StateChanges.{edit, Makes, IsInverseChange};
ghost use Rattle.drc_session.specs.Sessions.{IsApplied, IsDealt};
ghost use Rattle.drc_session.specs.SessionContents.{state_of, state_with, IsKept};
ghost use Rattle.drc_session.specs.Looks.{HasNetsOf};
ghost use Rattle.drc_session.specs.EditSteps.{IsLook, IsEditedFrom, AreTilesNear};

use crate::applied::Applied;
use crate::checking::{Near, check_all, check_near};
use crate::indexing::update_index;
use crate::looking::{push_boxes, push_nets};
use crate::parts::Parts;
use crate::reaching::{asks_farthest, reach_after};
use board_edits::{Operation, ids_touched, make};
use board_index::index_of;
use board_items::{Board, Item, Nm};
use box_index::{TileIndex, put_in_order};
use geo_seg::Bounds;
use kept_facts::{marks_before, update_facts};
use kept_nets::update_parts;
use net_groups::NetPart;
use row_check::CheckView;
use std::alloc::{AllocError, Global};
use std::thread::Threads;
use tile_pool::Gate;

/// What is looked up, before an edit, of the items that it touches: their boxes, their nets, their areas and bodies, and whether
/// one of them asks for as much as the reach.
#[derive(Drop)]
pub(crate) struct Look {
    pub(crate) boxes: Vec<Bounds>,
    pub(crate) nets: Vec<u32>,
    pub(crate) marks: Vec<Option<Item>>,
    pub(crate) asked: bool,
}

/// Equal areas and bodies that stand under the ids; none where there is no id.
fn marks_of(alloc: Global, board: &Board, ids: &[u32]) -> Result<Vec<Option<Item>>, AllocError>
    ensures marks { IfOk result (λ marks. AreMarksBefore board.now ids.now marks.items) }
    ensures none { IfOk result (λ marks. ids.now ≡ [] → marks.items ≡ []) }
{
    if ids.is_empty() {
        return Ok(Vec::new(alloc));
    }
    marks_before(alloc, board, ids)
}

/// What is looked up of the items of these ids.
fn look_up(alloc: Global, board: &Board, ids: &[u32], reach: Nm) -> Result<Look, AllocError>
    ensures { IfOk result (IsLook board.now ids.now reach) }
{
    let mut boxes = Vec::new(alloc);
    push_boxes(board, ids, &mut boxes)?;
    let mut nets = Vec::new(alloc);
    push_nets(board, ids, &mut nets)?;
    let marks = marks_of(alloc, board, ids)?;
    let asked = asks_farthest(board, ids, reach);
    Ok(Look {
        boxes,
        nets,
        marks,
        asked,
    })
}

/// Makes the index, after an edit of these ids, that of the board as it is now, under this reach. Where the reach stays only the
/// entries of the ids are gone through.
fn index_recomputed(
    alloc: Global,
    board: &Board,
    index: &mut TileIndex,
    ids: &[u32],
    reach: Nm,
    stays: bool,
) -> Result<(), AllocError>
    requires reach { IsLength reach }
    requires stays { stays ≡ true → index.old.reach ≡ reach }
    ensures items { (old : PlainBoard) → IsEdit old board.now ids.now → IsIndexOfItems old index.old
        → OnOk result (IsIndexOfItems board.now index.new) }
    ensures reach { OnOk result (index.new.reach ≡ reach) }
{
    if stays {
        return update_index(board, index, ids);
    }
    let anew = index_of(alloc, board, reach)?;
    drop(std::mem::replace(index, anew));
    Ok(())
}

/// Makes the parts of nets, after an edit of these ids, those of the board as it is now. `touched` has the nets that the items of
/// the ids had.
fn nets_recomputed<R: Threads + Sync>(
    rt: &R,
    workers: u32,
    board: &Board,
    nets: &mut [NetPart],
    ids: &[u32],
    mut touched: Vec<u32>,
) -> Result<(), AllocError>
    ensures { (old : PlainBoard) → IsEdit old board.now ids.now
        → HasNetsOf old ids.now touched.items → AreParts old nets.old
        → OnOk result (AreParts board.now nets.new) }
{
    let alloc = *touched.allocator();
    push_nets(board, ids, &mut touched)?;
    put_in_order(&mut touched);
    update_parts(rt, alloc, workers, board, nets, &touched)
}

/// What an edit affected: the ids of all that changed, rising, the boxes that those of the edit had, and whether the reach is as
/// before.
#[derive(Drop)]
pub(crate) struct EditEffects {
    pub(crate) changed: Vec<u32>,
    pub(crate) boxes: Vec<Bounds>,
    pub(crate) stays: bool,
}

/// Makes the rows before an edit those of what is checked now: where the reach stays only the tiles near what changed are gone through.
fn rows_after<R: Threads + Sync, G: Gate>(
    rt: &R,
    alloc: Global,
    workers: u32,
    parts: &mut Parts,
    effects: EditEffects,
    gate: &G,
) -> Result<Applied, AllocError>
    requires workers { IsWorkerCount workers }
    requires facts { HasFacts parts.old.board parts.old.classes parts.old.facts }
    requires few { AreCounted parts.old.rules.rules }
    requires index { IsIndexOf (checked_in (state_of parts.old)) parts.old.index }
    requires changed { IsStrictlyIncreasing effects.changed.items }
    requires boxes { All FitsIndex effects.boxes.items }
    ensures rows { (old : Checked)
        → IsCheckChange old (checked_in (state_of parts.old)) effects.changed.items
        → AreRows old parts.old.rows.items
        → OnOk result (AreRows (checked_in (state_of parts.old)) parts.new.rows.items) }
    ensures rest { parts.new ≡ record parts.old { rows = parts.new.rows } }
    ensures near { effects.stays ≡ true → IfOk result (λ applied.
        AreTilesNear parts.old.board parts.old.index effects.changed.items effects.boxes.items
        applied.tiles.items) }
    ensures all { effects.stays ≡ false
        → IfOk result (λ applied. (boxes : List Bounds)
        → applied.tiles.items ≡ dirty_of parts.old.index boxes true) }
    ensures dealt { IfOk result (λ applied. IsDealt workers applied) }
    ensures held { IfOk result (λ applied. applied.held ≡ length (held_of parts.old.index)) }
{
    let EditEffects {
        changed,
        mut boxes,
        stays,
    } = effects;
    let view = CheckView {
        board: &parts.board,
        facts: &parts.facts,
        rules: parts.rules.rules.as_slice(),
        classes: &parts.classes,
    };
    if stays {
        push_boxes(&parts.board, &changed, &mut boxes)?;
        let near = Near {
            view,
            index: &parts.index,
            changed: &changed,
            boxes: &boxes,
        };
        return check_near(rt, alloc, workers, near, &mut parts.rows, gate);
    }
    let (rows, applied) = check_all(rt, alloc, workers, view, &parts.index, gate)?;
    parts.rows = rows;
    Ok(applied)
}

/// Whether the reach is as before.
fn is_same(reach: Nm, before: Nm) -> bool
    ensures same { result ≡ true → reach ≡ before }
    ensures other { result ≡ false → reach ≢ before }
{
    reach == before
}

/// Finds again what an edit of these ids changed. `look` is what was looked up before it. Only running out of memory fails it.
fn find_recomputed<R: Threads + Sync, G: Gate>(
    rt: &R,
    alloc: Global,
    workers: u32,
    parts: &mut Parts,
    ids: &[u32],
    look: Look,
    gate: &G,
) -> Result<Applied, AllocError>
    requires workers { IsWorkerCount workers }
    requires edited { (old : PlainBoard) × IsEditedFrom old parts.old ids.now look }
    ensures kept { OnOk result (IsKept parts.new) }
    ensures state { OnOk result (state_of parts.new ≡ state_of parts.old) }
    ensures applied { (old : PlainBoard) → IsEditedFrom old parts.old ids.now look
        → IfOk result (λ applied.
        IsApplied (state_with old parts.old) (state_of parts.new) false applied) }
    ensures dealt { IfOk result (λ applied. IsDealt workers applied) }
{
    let rules = parts.rules.rules.as_slice();
    let reach = reach_after(
        &parts.board,
        &parts.classes,
        rules,
        ids,
        parts.reach,
        look.asked,
    );
    let stays = is_same(reach, parts.reach);
    index_recomputed(alloc, &parts.board, &mut parts.index, ids, reach, stays)?;
    parts.reach = reach;
    let changed = update_facts(
        alloc,
        &parts.board,
        &parts.classes,
        &parts.index,
        &mut parts.facts,
        ids,
        &look.marks,
    )?;
    nets_recomputed(rt, workers, &parts.board, &mut parts.nets, ids, look.nets)?;
    let effects = EditEffects {
        changed,
        boxes: look.boxes,
        stays,
    };
    let applied = rows_after(rt, alloc, workers, parts, effects, gate)?;
    Ok(applied)
}

/// Does the operation to the board, and finds again what it changed. It gives the inverse operation. Only running out of memory fails it.
pub(crate) fn edit_board<R: Threads + Sync, G: Gate>(
    rt: &R,
    alloc: Global,
    workers: u32,
    parts: &mut Parts,
    operation: Operation,
    gate: &G,
) -> Result<(Applied, Operation), AllocError>
    requires workers { IsWorkerCount workers }
    requires kept { IsKept parts.old }
    requires fits { OperationFits parts.old.board (plain_operation operation) }
    ensures kept { OnOk result (IsKept parts.new) }
    ensures makes { OnOk result
        (Makes (edit (plain_operation operation)) (state_of parts.old) (state_of parts.new)) }
    ensures applied { IfOk result (λ r.
        IsApplied (state_of parts.old) (state_of parts.new) false r.0 × IsDealt workers r.0) }
    ensures back { IfOk result (λ r.
        IsInverseChange (edit (plain_operation r.1)) (state_of parts.new) (state_of parts.old)
        × AddsNone (plain_operation r.1)) }
    ensures none { IfOk result (λ r. GivesNothing (plain_operation operation)
        → plain_operation r.1 ≡ nothing) }
{
    let touched = ids_touched(alloc, &parts.board, &operation)?;
    let look = look_up(alloc, &parts.board, &touched, parts.reach)?;
    let made = make(alloc, &mut parts.board, operation, touched)?;
    let applied = find_recomputed(rt, alloc, workers, parts, &made.ids, look, gate)?;
    Ok((applied, made.back))
}
