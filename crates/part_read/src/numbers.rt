//! The numbers of a board, and the elements that hold them.

ghost use Rattle.std.specs.Prelude.{◌≡◌, option_map};
ghost use Rattle.sexpr_read.specs.TreeViews.{tree_of};
ghost use Rattle.part_read.specs.ElementResults.{in_needed, in_given};
ghost use Rattle.part_read.specs.BoardNumbers.{length_in, size_in, number_in, raw_point_at, size_at};

use crate::atoms::{bad_number, first_atom, missing, second_atom};
use board_items::{BoardError, Nm};
use exact_dec::{count_of, mm_cut};
use sexpr_read::Node;

/// A point as a text gives it, in nanometres, before it is tested: it may lie off the board.
#[derive(Clone, Copy, Debug, PartialEq, Eq, Drop)]
pub struct RawPoint {
    pub x: Nm,
    pub y: Nm,
}

/// A length in nanometres, what is finer cut off.
#[tactic(auto, unfolding(crate::specs::BoardNumbers::length_in))]
pub fn length_in(atom: Node<'_, '_>) -> Result<Nm, BoardError>
    ensures { result ≡ length_in (tree_of atom.entry) }
{
    let Some(text) = atom.atom() else {
        return Err(bad_number(atom));
    };
    match mm_cut(text) {
        Ok(length) => Ok(length),
        Err(_) => Err(bad_number(atom)),
    }
}

/// A size: a length that is not negative.
#[tactic(auto, unfolding(crate::specs::BoardNumbers::size_in))]
pub fn size_in(atom: Node<'_, '_>) -> Result<Nm, BoardError>
    ensures { result ≡ size_in (tree_of atom.entry) }
{
    let length = length_in(atom)?;
    if 0 <= length {
        Ok(length)
    } else {
        Err(bad_number(atom))
    }
}

/// A whole number.
#[tactic(auto, unfolding(crate::specs::BoardNumbers::number_in))]
pub fn number_in(atom: Node<'_, '_>) -> Result<u32, BoardError>
    ensures { result ≡ number_in (tree_of atom.entry) }
{
    let Some(text) = atom.atom() else {
        return Err(bad_number(atom));
    };
    match count_of(text) {
        Ok(number) => Ok(number),
        Err(_) => Err(bad_number(atom)),
    }
}

// ---- in elements

/// The raw point of `(HEAD X Y)`.
#[tactic(auto, unfolding(crate::specs::BoardNumbers::raw_point_at))]
pub(crate) fn raw_point_at(list: Node<'_, '_>) -> Result<RawPoint, BoardError>
    ensures { result ≡ raw_point_at (tree_of list.entry) }
{
    let x = length_in(first_atom(list)?)?;
    let y = length_in(second_atom(list)?)?;
    Ok(RawPoint { x, y })
}

/// The raw point in an element that the list must have.
pub fn raw_point_of(node: Node<'_, '_>, found: Option<Node<'_, '_>>) -> Result<RawPoint, BoardError>
    ensures { result ≡ in_needed raw_point_at (tree_of node.entry)
        (option_map tree_of found.entry) }
{
    match found {
        None => Err(missing(node)),
        Some(list) => raw_point_at(list),
    }
}

/// The size of `(HEAD SIZE)`.
#[tactic(auto, unfolding(crate::specs::BoardNumbers::size_at))]
pub(crate) fn size_at(list: Node<'_, '_>) -> Result<Nm, BoardError>
    ensures { result ≡ size_at (tree_of list.entry) }
{
    size_in(first_atom(list)?)
}

/// The size in an element that the list must have.
pub fn size_of(node: Node<'_, '_>, found: Option<Node<'_, '_>>) -> Result<Nm, BoardError>
    ensures { result ≡ in_needed size_at (tree_of node.entry) (option_map tree_of found.entry) }
{
    match found {
        None => Err(missing(node)),
        Some(list) => size_at(list),
    }
}

/// The size in an element that may be missing.
pub fn size_given(found: Option<Node<'_, '_>>) -> Result<Option<Nm>, BoardError>
    ensures { result ≡ in_given size_at (option_map tree_of found.entry) }
{
    match found {
        None => Ok(None),
        Some(list) => Ok(Some(size_at(list)?)),
    }
}
