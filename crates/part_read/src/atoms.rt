//! The atoms of a list, and the refusals where they are wrong.

ghost use Rattle.std.specs.Prelude.{◌≡◌};
ghost use Rattle.sexpr_read.specs.TreeViews.{tree_of};
ghost use Rattle.list_read.specs.ListHeads.{place};
ghost use Rattle.list_read.specs.FoundNodes.{tree_in};
ghost use Rattle.part_read.specs.ElementResults.{atom_of};

use board_items::BoardError;
use list_read::place;
use sexpr_read::Node;

/// Missing, at this list.
pub fn missing(list: Node<'_, '_>) -> BoardError
    ensures { result ≡ BoardError.Missing (place (tree_of list.entry)) }
{
    BoardError::Missing { at: place(list) }
}

/// BadNumber, at this atom.
pub fn bad_number(atom: Node<'_, '_>) -> BoardError
    ensures { result ≡ BoardError.BadNumber (place (tree_of atom.entry)) }
{
    BoardError::BadNumber { at: place(atom) }
}

/// The atom behind the head.
#[tactic(auto, unfolding(crate::specs::ElementResults::atom_of))]
pub fn first_atom<'d, 't>(list: Node<'d, 't>) -> Result<Node<'d, 't>, BoardError>
    ensures { tree_in result ≡ atom_of 1 (tree_of list.entry) }
{
    let mut parts = list.children();
    parts.next();
    match parts.next() {
        Some(atom) if !atom.is_list() => Ok(atom),
        _ => Err(missing(list)),
    }
}

/// The atom behind the first one.
#[tactic(auto, unfolding(crate::specs::ElementResults::atom_of))]
pub fn second_atom<'d, 't>(list: Node<'d, 't>) -> Result<Node<'d, 't>, BoardError>
    ensures { tree_in result ≡ atom_of 2 (tree_of list.entry) }
{
    let mut parts = list.children();
    parts.next();
    parts.next();
    match parts.next() {
        Some(atom) if !atom.is_list() => Ok(atom),
        _ => Err(missing(list)),
    }
}
