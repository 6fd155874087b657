//! How far checks reach after an edit: only the items of the edit are looked at, unless one is gone that asked for as much as any.

ghost use Rattle.std.specs.Prelude.{◌≡◌, ◌≢◌, ◌∷◌, [], false, Some, map};
ghost use Rattle.plain_types.specs.Lengths.{IsLength, IsLengthIfSome};
ghost use Rattle.board_items.specs.Boards.{PlainBoard};
ghost use Rattle.board_laws.specs.Edits.{IsEdit};
ghost use Rattle.cond_lang.specs.Rules.{plain_rule};
ghost use Rattle.rule_pick.specs.Reach.{IsReach};
ghost use Rattle.drc_session.specs.Looks.{AsksNone, own_at, IsRaisedBy};

use board_items::{Board, Nm};
use cond_lang::Rule;
use net_class::Classes;

/// The own clearance of the item of the id, in nanometres; None where there is no such item, and where it has none.
fn own_clearance(board: &Board, id: u32) -> Option<Nm>
    ensures own { result ≡ own_at board.now id }
    ensures in_range { IsLengthIfSome result }
{
    match board.get(id) {
        None => None,
        Some(item) => item.local,
    }
}

/// Whether the item of the id has an own clearance of as much as the reach.
fn asks_as_much(board: &Board, id: u32, reach: Nm) -> bool
    ensures { result ≡ false → own_at board.now id ≢ Some reach }
{
    match own_clearance(board, id) {
        None => false,
        Some(nm) => nm == reach,
    }
}

/// Whether an item of these ids has an own clearance of as much as the reach.
pub(crate) fn asks_farthest(board: &Board, ids: &[u32], reach: Nm) -> bool
    ensures { result ≡ false → AsksNone board.now ids.now reach }
{
    for id in ids {
        if asks_as_much(board, *id, reach) {
            return true;
        }
    }
    false
}

/// The greater of the reach and the own clearance of the item of the id, if it has one.
fn raised_by(board: &Board, id: u32, reach: Nm) -> Nm
    requires { IsLength reach }
    ensures raised { IsRaisedBy board.now (id ∷ []) reach result }
    ensures in_range { IsLength result }
{
    match own_clearance(board, id) {
        None => reach,
        Some(nm) => { if reach < nm { nm } else { reach } }
    }
}

/// The greatest of the reach and the own clearances of the items of these ids.
fn raised_by_all(board: &Board, ids: &[u32], reach: Nm) -> Nm
    requires { IsLength reach }
    ensures raised { IsRaisedBy board.now ids.now reach result }
    ensures in_range { IsLength result }
{
    let mut greatest = reach;
    for id in ids {
        greatest = raised_by(board, *id, greatest);
    }
    greatest
}

/// The reach of the board after an edit of these ids, from 0 to 500 mm. `reach` is that before, and `asked` says whether an item of the ids asked for
/// as much then.
pub(crate) fn reach_after(
    board: &Board,
    classes: &Classes,
    rules: &[Rule],
    ids: &[u32],
    reach: Nm,
    asked: bool,
) -> Nm
    requires { IsLength reach }
    ensures value { (old : PlainBoard) → IsEdit old board.now ids.now
        → (asked ≡ false → AsksNone old ids.now reach)
        → IsReach old classes.now (map plain_rule rules.now) reach
        → IsReach board.now classes.now (map plain_rule rules.now) result }
    ensures in_range { IsLength result }
{
    if asked {
        item_facts::reach(board, classes, rules)
    } else {
        raised_by_all(board, ids, reach)
    }
}
