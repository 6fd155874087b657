//! What the parts of a form behind its head have to be: an atom, a list, a number, or none.

ghost use Rattle.std.specs.Prelude.{◌≡◌, IfOk};
ghost use Rattle.sexpr_read.specs.TreeViews.{tree_of, trees_left};
ghost use Rattle.list_read.specs.ListHeads.{place};
ghost use Rattle.list_read.specs.FoundNodes.{tree_in};
ghost use Rattle.edit_script.specs.ScriptForms.{as_atom, as_list, no_more, shift_of};
ghost use Rattle.edit_script.specs.Fits.{IsShiftInRange};

use crate::command::Nm;
use crate::error::ScriptError;
use exact_dec::mm_cut;
use list_read::place;
use sexpr_read::{Children, Node};

/// Bad, at this node.
pub(crate) fn bad(node: Node<'_, '_>) -> ScriptError
    ensures { result ≡ ScriptError.Bad (place (tree_of node.entry)) }
{
    ScriptError::Bad { at: place(node) }
}

/// An atom, and no list in its place.
pub(crate) fn as_atom<'d, 't>(node: Node<'d, 't>) -> Result<Node<'d, 't>, ScriptError>
    ensures { tree_in result ≡ as_atom (tree_of node.entry) }
{
    if node.is_list() {
        Err(bad(node))
    } else {
        Ok(node)
    }
}

/// A list, and no atom in its place.
pub(crate) fn as_list<'d, 't>(node: Node<'d, 't>) -> Result<Node<'d, 't>, ScriptError>
    ensures { tree_in result ≡ as_list (tree_of node.entry) }
{
    if node.is_list() {
        Ok(node)
    } else {
        Err(bad(node))
    }
}

/// No part is left.
pub(crate) fn no_more(parts: Children<'_, '_>) -> Result<(), ScriptError>
    ensures { result ≡ no_more (trees_left parts.entry) }
{
    let mut parts = parts;
    match parts.next() {
        None => Ok(()),
        Some(more) => Err(bad(more)),
    }
}

/// A number of millimetres, in nanometres.
#[tactic(auto, unfolding(crate::specs::ScriptForms::shift_of))]
pub(crate) fn shift_of(node: Node<'_, '_>) -> Result<Nm, ScriptError>
    ensures value { result ≡ shift_of (tree_of node.entry) }
    ensures near { IfOk result IsShiftInRange }
{
    let Some(text) = node.atom() else {
        return Err(bad(node));
    };
    match mm_cut(text) {
        Ok(nm) => Ok(nm),
        Err(_) => Err(bad(node)),
    }
}
