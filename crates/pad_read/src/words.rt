//! The words at the front of a pad: what it is made for, and its shape.

ghost use Rattle.std.specs.Prelude.{◌≡◌};
ghost use Rattle.sexpr_read.specs.TreeViews.{tree_of};
ghost use Rattle.part_read.specs.ElementResults.{atom_of};
ghost use Rattle.list_read.specs.FoundNodes.{tree_in};
ghost use Rattle.pad_read.specs.PadFrames.{type_by, type_of, word_by, word_of, has_hole};

use crate::pads::{PadType, PadWord};
use board_items::BoardError;
use list_read::{element, place};
use part_read::{missing, second_atom};
use sexpr_read::Node;

/// What a pad is made for, by its word.
fn type_by(atom: Node<'_, '_>) -> Option<PadType>
    ensures { result ≡ type_by (tree_of atom.entry) }
{
    if atom.is(b"thru_hole") {
        return Some(PadType::ThruHole);
    }
    if atom.is(b"smd") {
        return Some(PadType::Smd);
    }
    if atom.is(b"connect") {
        return Some(PadType::Connect);
    }
    if atom.is(b"np_thru_hole") {
        return Some(PadType::NpThruHole);
    }
    None
}

/// What a pad is made for.
pub(crate) fn type_of(node: Node<'_, '_>) -> Result<PadType, BoardError>
    ensures { result ≡ type_of (tree_of node.entry) }
{
    let atom = second_atom(node)?;
    match type_by(atom) {
        Some(pad_type) => Ok(pad_type),
        None => Err(missing(node)),
    }
}

/// The shape of a pad, by its word.
fn word_by(atom: Node<'_, '_>) -> Option<PadWord>
    ensures { result ≡ word_by (tree_of atom.entry) }
{
    if atom.is(b"circle") {
        return Some(PadWord::Circle);
    }
    if atom.is(b"rect") {
        return Some(PadWord::Rect);
    }
    if atom.is(b"oval") {
        return Some(PadWord::Oval);
    }
    if atom.is(b"roundrect") {
        return Some(PadWord::RoundRect);
    }
    if atom.is(b"custom") {
        return Some(PadWord::Custom);
    }
    None
}

/// The atom at place 3 of a list.
#[tactic(auto, unfolding(part_read::specs::ElementResults::atom_of))]
fn third_atom<'d, 't>(list: Node<'d, 't>) -> Result<Node<'d, 't>, BoardError>
    ensures { tree_in result ≡ atom_of 3 (tree_of list.entry) }
{
    let mut parts = list.children();
    parts.next();
    parts.next();
    parts.next();
    match parts.next() {
        Some(atom) if !atom.is_list() => Ok(atom),
        _ => Err(missing(list)),
    }
}

/// The shape of a pad, unless a corner is cut off.
#[tactic(auto, unfolding(crate::specs::PadFrames::word_of))]
pub(crate) fn word_of(node: Node<'_, '_>) -> Result<PadWord, BoardError>
    ensures { result ≡ word_of (tree_of node.entry) }
{
    let atom = third_atom(node)?;
    let Some(word) = word_by(atom) else {
        return Err(BoardError::PadShape { at: place(node) });
    };
    if element(node, b"chamfer").is_some() {
        return Err(BoardError::PadShape { at: place(node) });
    }
    Ok(word)
}

/// Whether a pad of this type may have a hole.
pub(crate) fn has_hole(pad_type: PadType) -> bool
    ensures { result ≡ has_hole pad_type }
{
    matches!(pad_type, PadType::ThruHole | PadType::NpThruHole)
}
