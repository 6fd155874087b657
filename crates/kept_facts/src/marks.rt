//! Areas and bodies, and the names that they give items.

ghost use Rattle.std.specs.Prelude.{◌≡◌, map, IsTrue, ◌↔◌, IfOk};
ghost use Rattle.std.specs.Option.{option_copied};
ghost use Rattle.one_item.specs.ItemKinds.{is_mark};
ghost use Rattle.rule_pick.specs.FactsOf.{MeetsArea, MeetsCourtyard};
ghost use Rattle.kept_facts.specs.FactUpdates.{mark_at, mark_of, GivesIf, GiveSame, AreMarksBefore};
ghost use Rattle.kept_facts.specs.ConcernedItems.{IsNameIf};

use board_items::{Board, Item, What};
use drc_io::Name;
use item_facts::{area_met, courtyard_met};
use std::alloc::{AllocError, Global};

fn is_mark(what: &What) -> bool
    ensures { result ≡ is_mark what.now }
{
    matches!(what, What::Area { .. } | What::Body { .. })
}

/// The area or body that stands under the id.
pub(crate) fn mark_at(board: &Board, id: u32) -> Option<&Item>
    ensures { option_copied result ≡ mark_at board.now id }
{
    match board.get(id) {
        None => None,
        Some(item) => {
            if is_mark(&item.what) {
                Some(item)
            } else {
                None
            }
        }
    }
}

/// What the list has at the place; nothing past its end.
pub(crate) fn mark_of(marks: &[Option<Item>], place: usize) -> Option<&Item>
    ensures { option_copied result ≡ mark_of marks.now place }
{
    match marks.get(place) {
        Some(Some(mark)) => Some(mark),
        _ => None,
    }
}

/// An equal item, if there is one.
fn copy_if(mark: Option<&Item>) -> Result<Option<Item>, AllocError>
    ensures { IfOk result (λ copy. copy ≡ option_copied mark.entry) }
{
    match mark {
        None => Ok(None),
        Some(mark) => Ok(Some(mark.copy()?)),
    }
}

/// Equal areas and bodies of these ids, in their order.
fn marks_of(alloc: Global, board: &Board, ids: &[u32]) -> Result<Vec<Option<Item>>, AllocError>
    ensures { IfOk result (λ marks. marks.items ≡ map (mark_at board.now) ids.now) }
{
    let mut marks = Vec::with_capacity(alloc, ids.len())?;
    for id in ids {
        marks.push(copy_if(mark_at(board, *id))?)?;
    }
    Ok(marks)
}

/// Equal areas and bodies that stand under these ids, in their order, and None for each other id: what `update_facts` asks for,
/// taken before the edit. Only running out of memory refuses it.
pub fn marks_before(
    alloc: Global,
    board: &Board,
    ids: &[u32],
) -> Result<Vec<Option<Item>>, AllocError>
    ensures { IfOk result (λ marks. AreMarksBefore board.now ids.now marks.items) }
{
    marks_of(alloc, board, ids)
}

/// The title that the item has from an area, if it meets it.
fn title_if<'o>(item: &Item, mark: Option<&'o Item>) -> Option<&'o Name>
    ensures { IsNameIf (GivesIf (MeetsArea item.now) (option_copied mark.entry))
        (option_copied result) }
{
    match mark {
        None => None,
        Some(mark) => area_met(item, mark),
    }
}

/// The reference that the item has from a body, if it meets one of its courtyards.
fn reference_if<'o>(item: &Item, mark: Option<&'o Item>) -> Option<&'o Name>
    ensures { IsNameIf (GivesIf (MeetsCourtyard item.now) (option_copied mark.entry))
        (option_copied result) }
{
    match mark {
        None => None,
        Some(mark) => courtyard_met(item, mark),
    }
}

fn is_same(a: Option<&Name>, b: Option<&Name>) -> bool
    ensures { IsTrue result ↔ (option_copied a.entry ≡ option_copied b.entry) }
{
    match (a, b) {
        (None, None) => true,
        (Some(a), Some(b)) => a == b,
        _ => false,
    }
}

/// Whether the item has the same name from the area or body `before` as from the one `now`, or none from both.
pub(crate) fn give_same(item: &Item, before: Option<&Item>, now: Option<&Item>) -> bool
    ensures { IsTrue result
        ↔ GiveSame item.now (option_copied before.entry) (option_copied now.entry) }
{
    is_same(title_if(item, before), title_if(item, now))
        && is_same(reference_if(item, before), reference_if(item, now))
}
