//! Lists that are added to a board, read from their own text.

ghost use Rattle.std.specs.Prelude.{◌≡◌, ◌⊎◌, List, MatchResult, IfOk, IfErr, Result, Ok, Err};
ghost use Rattle.plain_types.specs.Limits.{IsInText, IsReadable};
ghost use Rattle.board_errors.specs.declared.errors.BoardError.{BoardError};
ghost use Rattle.one_item.specs.declared.item.Item.{Item};
ghost use Rattle.sexpr_read.specs.Tree.{parts};
ghost use Rattle.sexpr_read.specs.TreeViews.{tree_of};
ghost use Rattle.list_read.specs.ListHeads.{place};
ghost use Rattle.list_read.specs.RefusalPlaces.{IsNearText};
ghost use Rattle.list_read.specs.FoundNodes.{tree_in};
ghost use Rattle.part_read.specs.Ready.{AreReady};
ghost use Rattle.pcb_read.specs.RelatedResults.{GivesSome};
ghost use Rattle.pcb_read.specs.BoardRefusalPlaces.{IsPlacedInText};
ghost use Rattle.pcb_read.specs.ItemText.{further, text_further, alone, SaysList, SaysAlone, SaysText, SaysItem};

use crate::laws::one_list;
use crate::lists::read_list;
use crate::sorts::sort_of;
use board_items::{Board, BoardError, Item};
use list_read::place;
use sexpr_read::laws::spans_in_order;
use sexpr_read::{Node, TextError, parse_all};
use std::alloc::Global;

/// The one form of a text, which must be a list.
fn alone<'d, 't>(forms: Node<'d, 't>) -> Result<Node<'d, 't>, BoardError>
    ensures { tree_in result ≡ alone (parts (tree_of forms.entry)) }
{
    let mut left = forms.children();
    let Some(first) = left.next() else {
        return Err(BoardError::Text(TextError::EmptyText));
    };
    if !first.is_list() {
        return Err(extra(first));
    }
    match left.next() {
        None => Ok(first),
        Some(second) => Err(extra(second)),
    }
}

/// What is too much begins here.
fn extra(form: Node<'_, '_>) -> BoardError
    ensures { result ≡ BoardError.Text (TextError.ExtraText (place (tree_of form.entry))) }
{
    BoardError::Text(TextError::ExtraText { at: place(form) })
}

/// The items of a list, whose head must be that of an item.
fn read_form(
    alloc: Global,
    board: &Board,
    unit: u32,
    form: Node<'_, '_>,
) -> Result<Vec<Item>, BoardError>
    ensures items { GivesSome result (SaysList board.now unit (tree_of form.entry)) }
    ensures ready { IfOk result (λ items. AreReady board.now unit items.items) }
{
    match sort_of(form) {
        Some(sort) => read_list(alloc, board, unit, form, sort),
        None => Err(BoardError::NotABoard { at: place(form) }),
    }
}

/// The items of a document's one form.
fn read_alone(
    alloc: Global,
    board: &Board,
    unit: u32,
    forms: Node<'_, '_>,
) -> Result<Vec<Item>, BoardError>
    ensures items { GivesSome result
        (SaysAlone board.now unit (alone (parts (tree_of forms.entry)))) }
    ensures ready { IfOk result (λ items. AreReady board.now unit items.items) }
{
    let form = alone(forms)?;
    read_form(alloc, board, unit, form)
}

/// What a text says that stands alone. A refusal has its place in the text.
#[tactic(auto, using(crate::proofs::NearLists::near_given, list_read::proofs::TextPlaces::near_text))]
fn read_text(alloc: Global, text: &[u8], board: &Board, unit: u32) -> Result<Vec<Item>, BoardError>
    requires { IsReadable text.now }
    ensures items { GivesSome result (SaysText board.now unit text.now) }
    ensures ready { IfOk result (λ items. AreReady board.now unit items.items) }
    ensures near { IfErr result IsPlacedInText }
{
    spans_in_order();
    match parse_all(alloc, text) {
        Ok(doc) => read_alone(alloc, board, unit, doc.root()),
        Err(TextError::OutOfMemory) => Err(BoardError::OutOfMemory),
        Err(error) => Err(BoardError::Text(error)),
    }
}

// ---- places in a longer text

/// A refusal of a text, its place so much further on. The place stands in the text, so the sum has room.
fn text_further(error: TextError, by: u32) -> TextError
    requires by { IsInText by }
    requires near { IsNearText error }
    ensures { result ≡ text_further by error }
{
    match error {
        TextError::NotUtf8 { at } => TextError::NotUtf8 { at: at + by },
        TextError::CloseWithoutOpen { at } => TextError::CloseWithoutOpen { at: at + by },
        TextError::EndInside { at } => TextError::EndInside { at: at + by },
        TextError::TooDeep { at } => TextError::TooDeep { at: at + by },
        TextError::ExtraText { at } => TextError::ExtraText { at: at + by },
        TextError::EmptyText => TextError::EmptyText,
        TextError::OutOfMemory => TextError::OutOfMemory,
    }
}

/// A refusal, its place so much further on. The place stands in the text, so the sum has room.
fn further(error: BoardError, by: u32) -> BoardError
    requires by { IsInText by }
    requires near { IsPlacedInText error }
    ensures { result ≡ further by error }
{
    match error {
        BoardError::Text(error) => BoardError::Text(text_further(error, by)),
        BoardError::NotABoard { at } => BoardError::NotABoard { at: at + by },
        BoardError::Version { at } => BoardError::Version { at: at + by },
        BoardError::Missing { at } => BoardError::Missing { at: at + by },
        BoardError::BadNumber { at } => BoardError::BadNumber { at: at + by },
        BoardError::OutOfBoard { at } => BoardError::OutOfBoard { at: at + by },
        BoardError::Arc { at } => BoardError::Arc { at: at + by },
        BoardError::Turned { at } => BoardError::Turned { at: at + by },
        BoardError::PadShape { at } => BoardError::PadShape { at: at + by },
        BoardError::Ring { at } => BoardError::Ring { at: at + by },
        BoardError::UnknownNet { at } => BoardError::UnknownNet { at: at + by },
        BoardError::UnknownLayer { at } => BoardError::UnknownLayer { at: at + by },
        BoardError::ThickFill { at } => BoardError::ThickFill { at: at + by },
        BoardError::TooMany { at } => BoardError::TooMany { at: at + by },
        BoardError::OutOfMemory => BoardError::OutOfMemory,
    }
}

/// The items of a list that is added to a board, in this unit, read from the text of that list alone; or the first reason
/// in the text why there are none. The board takes the items.
///
/// The text stands at `at` in a longer one, in which places are counted. Both have at most 33,554,432 bytes. The reasons are
/// those of [`BoardError`], exactly where the text of a list (`specs/ItemText`) has them: what is no form, or not one list
/// alone, is refused as `Text`, a list whose head is that of no item as `NotABoard`, and `TooMany` comes also where the unit is
/// 4,294,967,295 and there is an item. Running out of memory alone is free.
pub fn read_item(
    alloc: Global,
    text: &[u8],
    at: u32,
    board: &Board,
    unit: u32,
) -> Result<Vec<Item>, BoardError>
    requires text { IsReadable text.now }
    requires at { IsInText at }
    ensures says { MatchResult result (λ items.
        SaysItem board.now unit text.now at (Ok items.items))
        (λ e. (e ≡ BoardError.OutOfMemory) ⊎ SaysItem board.now unit text.now at (Err e)) }
    ensures only { (answer : Result (List Item) BoardError)
        → SaysItem board.now unit text.now at answer →
        MatchResult result (λ items. answer ≡ Ok items.items)
        (λ e. (e ≡ BoardError.OutOfMemory) ⊎ (answer ≡ Err e)) }
    ensures ready { IfOk result (λ items. AreReady board.now unit items.items) }
{
    one_list();
    match read_text(alloc, text, board, unit) {
        Ok(items) => Ok(items),
        Err(error) => Err(further(error, at)),
    }
}
