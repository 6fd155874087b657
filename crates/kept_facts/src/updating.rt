//! Facts after an edit.

ghost use Rattle.std.specs.Prelude.{◌≡◌, ◌↔◌, IfOk, OnOk, IsTrue, Some};
ghost use Rattle.std.specs.Option.{option_copied};
ghost use Rattle.std.specs.List.Sorted.{IsStrictlyIncreasing};
ghost use Rattle.board_items.specs.Boards.{PlainBoard};
ghost use Rattle.board_index.specs.IndexedItems.{HoldsItems};
ghost use Rattle.item_facts.specs.Known.{AreKnown};
ghost use Rattle.item_facts.specs.NearItems.{HoldsMarks};
ghost use Rattle.rule_pick.specs.AllFacts.{HasFacts};
ghost use Rattle.board_laws.specs.Edits.{IsEdit};
ghost use Rattle.kept_facts.specs.FactUpdates.{AreMarksBefore, AreChanged};
ghost use Rattle.kept_facts.specs.ConcernedItems.{IsFoundAgain, AreFoundAgain};

use crate::asking::asked_for;
use board_items::{Board, Item};
use box_index::TileIndex;
use indexmap::IndexMap;
use item_facts::{facts_near, same};
use net_class::{Class, Classes};
use row_check::is_changed;
use rule_pick::{Facts, FactsById};
use std::alloc::{AllocError, Global};

/// Whether these facts were kept.
fn are_kept(kept: Option<&Facts>, facts: &Facts) -> bool
    ensures { IsTrue result ↔ (option_copied kept.entry ≡ Some facts.now) }
{
    match kept {
        None => false,
        Some(kept) => same(kept, facts),
    }
}

/// What facts are found by.
#[derive(Clone, Copy)]
struct Sources<'a> {
    alloc: Global,
    board: &'a Board,
    classes: &'a Classes,
    index: &'a TileIndex,
}

/// Finds the facts of the item of an id again, and forgets them where it is gone. It says whether they are others than before.
/// `known` are the classes of nets that were sought, and `room` is room for ids.
fn find_again<'a>(
    sources: &Sources<'a>,
    known: &mut IndexMap<u32, &'a Class>,
    room: &mut Vec<u32>,
    facts: &mut FactsById,
    id: u32,
) -> Result<bool, AllocError>
    requires index { HoldsMarks sources.now.board.now.items sources.now.index.now }
    requires known { AreKnown sources.now.classes.now sources.now.board.now known.old }
    ensures known { OnOk result (AreKnown sources.now.classes.now sources.now.board.now known.new) }
    ensures found { IfOk result
        (λ differs. IsFoundAgain sources.now.board.now sources.now.classes.now id facts.old
        facts.new differs) }
{
    match sources.board.get(id) {
        None => Ok(facts.remove(id).is_some()),
        Some(item) => {
            let now = facts_near(
                sources.alloc,
                sources.board,
                sources.classes,
                sources.index,
                known,
                room,
                item,
            )?;
            if are_kept(facts.get(id), &now) {
                return Ok(false);
            }
            facts.insert(id, now)?;
            Ok(true)
        }
    }
}

/// Finds the facts of all these again, and gives the ids, rising, that are of the edit or have other facts.
fn find_all_again(
    sources: &Sources<'_>,
    facts: &mut FactsById,
    ids: &[u32],
    asked: &[u32],
) -> Result<Vec<u32>, AllocError>
    requires index { HoldsMarks sources.now.board.now.items sources.now.index.now }
    requires ids { IsStrictlyIncreasing ids.now }
    requires asked { IsStrictlyIncreasing asked.now }
    ensures { IfOk result
        (λ changed. AreFoundAgain sources.now.board.now sources.now.classes.now ids.now asked.now
        facts.old facts.new changed.items) }
{
    let mut known = IndexMap::new(sources.alloc);
    let mut room = Vec::new(sources.alloc);
    let mut changed = Vec::new(sources.alloc);
    for place in 0..asked.len() {
        let id = asked[place];
        let differs = find_again(sources, &mut known, &mut room, facts, id)?;
        if differs || is_changed(ids, id) {
            changed.push(id)?;
        }
    }
    Ok(changed)
}

/// Makes the facts of the items of a board before an edit those of the board as it is now.
///
/// `ids` are those, rising, of all items of the edit: what was added, taken out, put back or moved. `before` are the areas and
/// bodies among them as they were, in the order of the ids, as `marks_before` gives them of the board before the edit; none for
/// what was added. The index holds all items of the board that have bounds. It gives the ids, rising, of the edit and of all items
/// that have other facts. Only running out of memory fails it, and the facts are then of no use.
///
/// It takes as long as there are items of the edit and items near its areas and bodies. An item near one that gives it the same
/// name as before, or none as before, costs two tests of that one and no more.
pub fn update_facts(
    alloc: Global,
    board: &Board,
    classes: &Classes,
    index: &TileIndex,
    facts: &mut FactsById,
    ids: &[u32],
    before: &[Option<Item>],
) -> Result<Vec<u32>, AllocError>
    requires index { HoldsItems board.now index.now }
    requires ids { IsStrictlyIncreasing ids.now }
    ensures { (old : PlainBoard) → IsEdit old board.now ids.now
        → AreMarksBefore old ids.now before.now → HasFacts old classes.now facts.old
        → IfOk result (λ changed. HasFacts board.now classes.now facts.new
        × AreChanged old board.now classes.now ids.now facts.old facts.new changed.items) }
{
    let asked = asked_for(alloc, board, index, ids, before)?;
    let sources = Sources {
        alloc,
        board,
        classes,
        index,
    };
    find_all_again(&sources, facts, ids, &asked)
}
