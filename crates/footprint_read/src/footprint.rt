//! The items of a footprint: its body with the courtyards of both sides, what its children give,
//! and the notes, where it lies on the board and there is room.

ghost use Rattle.std.specs.Prelude.{◌≡◌, ◌<◌, ◌∷◌, ◌++◌, [], codes, true, is_some, IfOk, OnOk, All};
ghost use Rattle.sexpr_read.specs.TreeViews.{tree_of};
ghost use Rattle.board_items.specs.Boards.{name_of};
ghost use Rattle.part_read.specs.Lists.{GivesItems};
ghost use Rattle.part_read.specs.OnBoard.{fits_board};
ghost use Rattle.part_read.specs.Ready.{IsReady, AreReady};
ghost use Rattle.part_read.specs.Placements.{IsPlacementRawPoint};
ghost use Rattle.footprint_read.specs.Courtyards.{IsCourt, parts_in, lies_on_board};
ghost use Rattle.footprint_read.specs.Bare.{AreBare};
ghost use Rattle.footprint_read.specs.FootprintOf.{given_at, items_of, body_of, court_notes, all_given, with_reserved, in_capacity, is_placed, finished, SaysItems};

use crate::children::contents_of;
use crate::contents::{AllGiven, Contents, Given};
use crate::courts::{Court, court_of};
use crate::head::head_of;
use crate::notes::note_on;
use board_items::{About, Board, BoardError, Boxed, Item, Parts, What};
use drc_io::Name;
use list_read::place;
use pad_read::Head;
use part_read::{Placement, fits_board, has_capacity_after, name_of_list, no_parts, plain_item};
use plain_types::one;
use sexpr_read::Node;
use std::alloc::{AllocError, Global};

/// The courtyards of both sides.
#[derive(Drop)]
struct Courts {
    front: Court,
    back: Court,
}

// ---- body and notes of courtyards

/// The parts of a courtyard, none where it is not checked.
fn parts_in(alloc: Global, court: Court) -> Parts
    ensures { result ≡ parts_in court }
{
    match court {
        Court::Parts(parts) => parts,
        Court::Unchecked | Court::Off => no_parts(alloc),
    }
}

/// Whether a courtyard does not leave the board.
fn lies_on_board(court: &Court) -> bool
    ensures { result ≡ lies_on_board court.now }
{
    !matches!(court, Court::Off)
}

/// The parts of a courtyard, in a box.
fn boxed_parts(alloc: Global, court: Court) -> Result<Boxed<Parts>, AllocError>
    ensures { IfOk result (λ parts. parts ≡ parts_in court) }
{
    Boxed::new(alloc, parts_in(alloc, court))
}

/// What the body of a footprint keeps apart: its reference and its courtyards.
#[derive(Drop)]
struct Yards {
    reference: Boxed<Name>,
    front: Boxed<Parts>,
    back: Boxed<Parts>,
}

/// What the body keeps of this reference and these courtyards.
fn yards_of(alloc: Global, reference: Name, front: Court, back: Court) -> Result<Yards, AllocError>
    ensures { IfOk result (λ yards. yards
        ≡ record { reference = reference; front = parts_in front; back = parts_in back }) }
{
    let reference = match Boxed::new(alloc, reference) {
        Ok(reference) => reference,
        Err(error) => {
            drop(front);
            drop(back);
            return Err(error);
        }
    };
    let front = match boxed_parts(alloc, front) {
        Ok(front) => front,
        Err(error) => {
            drop(reference);
            drop(back);
            return Err(error);
        }
    };
    let back = match boxed_parts(alloc, back) {
        Ok(back) => back,
        Err(error) => {
            drop(reference);
            drop(front);
            return Err(error);
        }
    };
    Ok(Yards {
        reference,
        front,
        back,
    })
}

/// The body of a footprint, with its courtyards.
fn body_of(
    alloc: Global,
    unit: u32,
    head: Head,
    node: Node<'_, '_>,
    front: Court,
    back: Court,
) -> Result<Item, AllocError>
    ensures { IfOk result (λ body. body ≡ body_of unit head (tree_of node.entry) front back) }
{
    let at = head.placement.at;
    let on_back = head.on_back;
    let Yards {
        reference,
        front,
        back,
    } = yards_of(alloc, head.reference, front, back)?;
    let name = match name_of_list(alloc, node) {
        Ok(name) => name,
        Err(error) => {
            drop(reference);
            drop(front);
            drop(back);
            return Err(error);
        }
    };
    let what = What::Body {
        reference,
        front,
        back,
        on_back,
    };
    Ok(plain_item(name, unit, 0, at, no_parts(alloc), what))
}

/// The note of a courtyard that is not checked.
fn court_notes(
    alloc: Global,
    unit: u32,
    node: Node<'_, '_>,
    layer: &str,
    court: &Court,
) -> Result<Vec<Item>, AllocError>
    ensures { IfOk result (λ notes.
        notes.items ≡ court_notes unit (tree_of node.entry) layer.now court.now) }
{
    if matches!(court, Court::Unchecked) {
        return one(alloc, note_on(alloc, unit, About::Courtyard, layer, node)?);
    }
    Ok(Vec::new(alloc))
}

/// The notes of the courtyards of both sides.
#[derive(Drop)]
struct CourtNotes {
    front: Vec<Item>,
    back: Vec<Item>,
}

/// The notes of the courtyards that are not checked.
fn notes_of(
    alloc: Global,
    unit: u32,
    node: Node<'_, '_>,
    front: &Court,
    back: &Court,
) -> Result<CourtNotes, AllocError>
    ensures front { IfOk result (λ notes. notes.front.items
        ≡ court_notes unit (tree_of node.entry) (codes "F.CrtYd") front.now) }
    ensures back { IfOk result (λ notes. notes.back.items
        ≡ court_notes unit (tree_of node.entry) (codes "B.CrtYd") back.now) }
{
    let front = court_notes(alloc, unit, node, "F.CrtYd", front)?;
    match court_notes(alloc, unit, node, "B.CrtYd", back) {
        Ok(back) => Ok(CourtNotes { front, back }),
        Err(error) => {
            drop(front);
            Err(error)
        }
    }
}

/// The body, and then what the children give.
fn with_body(alloc: Global, place: u32, body: Item, given: AllGiven) -> Result<AllGiven, AllocError>
    ensures { IfOk result (λ all. all ≡ given_at place (body ∷ []) ++ given) }
{
    let body = match one(alloc, body) {
        Ok(body) => body,
        Err(error) => {
            drop(given);
            return Err(error);
        }
    };
    let mut all = AllGiven::new(alloc);
    match all.append(place, body) {
        Ok(()) => {}
        Err(error) => {
            drop(given);
            drop(all);
            return Err(error);
        }
    }
    match all.append_all(given) {
        Ok(()) => Ok(all),
        Err(error) => {
            drop(all);
            Err(error)
        }
    }
}

/// Adds the notes of the courtyards, the front first.
fn add_notes(all: &mut AllGiven, place: u32, notes: CourtNotes) -> Result<(), AllocError>
    ensures { OnOk result (all.new
        ≡ (all.old ++ given_at place notes.front.items) ++ given_at place notes.back.items) }
{
    let CourtNotes { front, back } = notes;
    match all.append(place, front) {
        Ok(()) => all.append(place, back),
        Err(error) => {
            drop(back);
            Err(error)
        }
    }
}

/// The body, what the children give, and the notes of the courtyards, the front first.
fn all_given(
    alloc: Global,
    unit: u32,
    head: Head,
    node: Node<'_, '_>,
    given: AllGiven,
    front: Court,
    back: Court,
) -> Result<AllGiven, AllocError>
    ensures { IfOk result (λ all. all ≡ all_given unit head (tree_of node.entry) given front back) }
{
    let notes = match notes_of(alloc, unit, node, &front, &back) {
        Ok(notes) => notes,
        Err(error) => {
            drop(head);
            drop(given);
            drop(front);
            drop(back);
            return Err(error);
        }
    };
    let body = match body_of(alloc, unit, head, node, front, back) {
        Ok(body) => body,
        Err(error) => {
            drop(given);
            drop(notes);
            return Err(error);
        }
    };
    let mut all = match with_body(alloc, place(node), body, given) {
        Ok(all) => all,
        Err(error) => {
            drop(notes);
            return Err(error);
        }
    };
    match add_notes(&mut all, place(node), notes) {
        Ok(()) => Ok(all),
        Err(error) => {
            drop(all);
            Err(error)
        }
    }
}

// ---- room

/// Whether the board has room for all of them: the first one without is refused at the list that
/// gives it.
fn check_capacity(board: &Board, unit: u32, all: &[Given]) -> Result<(), BoardError>
    ensures { result ≡ with_reserved board.now unit 0 all.now }
{
    for i in 0..all.len() {
        if !has_capacity_after(i, board, unit) {
            return Err(BoardError::TooMany { at: all[i].place });
        }
    }
    Ok(())
}

/// The items alone.
fn items_of(alloc: Global, all: Vec<Given>) -> Result<Vec<Item>, AllocError>
    ensures { IfOk result (λ items. items.items ≡ items_of all.items) }
{
    let mut items = Vec::with_capacity(alloc, all.len())?;
    for given in all {
        items.push(given.item)?;
    }
    Ok(items)
}

/// The items, where the board has room for them.
fn in_capacity(
    alloc: Global,
    board: &Board,
    unit: u32,
    all: Vec<Given>,
) -> Result<Vec<Item>, BoardError>
    ensures { GivesItems result (in_capacity board.now unit all.items) }
{
    if let Err(error) = check_capacity(board, unit, &all) {
        drop(all);
        return Err(error);
    }
    Ok(items_of(alloc, all)?)
}

// ---- the whole

/// Whether the body lies on the board with its courtyards.
fn is_placed(head: &Head, front: &Court, back: &Court) -> bool
    ensures { result ≡ is_placed head.now front.now back.now }
{
    fits_board(head.placement.at) && (lies_on_board(front) && lies_on_board(back))
}

/// The items, where the body lies on the board with its courtyards and there is room.
#[tactic(auto, unfolding(crate::specs::FootprintOf::finished))]
fn finished(
    alloc: Global,
    board: &Board,
    unit: u32,
    head: Head,
    node: Node<'_, '_>,
    given: AllGiven,
    courts: Courts,
) -> Result<Vec<Item>, BoardError>
    requires net { is_some (name_of board.now 0) ≡ true }
    requires given { All (IsReady board.now unit) (items_of given) }
    requires front { AreBare (parts_in courts.front) }
    requires back { AreBare (parts_in courts.back) }
    ensures items { GivesItems result
        (finished board.now unit head (tree_of node.entry) given courts.front courts.back) }
    ensures ready { IfOk result (λ items. AreReady board.now unit items.items) }
{
    if !is_placed(&head, &courts.front, &courts.back) {
        drop(head);
        drop(given);
        drop(courts);
        return Err(BoardError::OutOfBoard { at: place(node) });
    }
    let Courts { front, back } = courts;
    let all = all_given(alloc, unit, head, node, given, front, back)?;
    let items = in_capacity(alloc, board, unit, all.into_list())?;
    Ok(items)
}

/// The courtyards of both sides.
fn courts_of(alloc: Global, placement: Placement, contents: &Contents) -> Result<Courts, AllocError>
    requires quarter { placement.quarter < 4 }
    requires at { IsPlacementRawPoint placement.at }
    ensures front { IfOk result (λ courts. IsCourt placement contents.now.front courts.front) }
    ensures back { IfOk result (λ courts. IsCourt placement contents.now.back courts.back) }
    ensures front_bare { IfOk result (λ courts. AreBare (parts_in courts.front)) }
    ensures back_bare { IfOk result (λ courts. AreBare (parts_in courts.back)) }
{
    let front = court_of(alloc, placement, &contents.front)?;
    match court_of(alloc, placement, &contents.back) {
        Ok(back) => Ok(Courts { front, back }),
        Err(error) => {
            drop(front);
            Err(error)
        }
    }
}

/// The items of a footprint: its body, then its pads, graphics, edges and notes in the order of the
/// text, then a note for each side whose courtyard is not checked, the front first. The board takes
/// them, one after another.
///
/// Its refusals are those of [`BoardError`], exactly where the items of a footprint
/// (`specs/FootprintOf`) have them, with their places; running out of memory alone is free.
#[tactic(auto, using(crate::proofs::Standing::wider))]
pub fn read_footprint(
    alloc: Global,
    node: Node<'_, '_>,
    board: &Board,
    unit: u32,
) -> Result<Vec<Item>, BoardError>
    ensures says { SaysItems result board.now unit (tree_of node.entry) }
    ensures ready { IfOk result (λ items. AreReady board.now unit items.items) }
{
    board.soundness();
    let head = head_of(alloc, board.copper(), node)?;
    let contents = contents_of(alloc, board, unit, &head, node)?;
    let courts = match courts_of(alloc, head.placement, &contents) {
        Ok(courts) => courts,
        Err(_) => {
            drop(head);
            drop(contents);
            return Err(BoardError::OutOfMemory);
        }
    };
    finished(alloc, board, unit, head, node, contents.given, courts)
}
