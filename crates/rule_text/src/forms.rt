//! The parts of a list behind its head.

ghost use Rattle.std.specs.Prelude.{◌≡◌};
ghost use Rattle.sexpr_read.specs.TreeViews.{tree_of, trees_left};
ghost use Rattle.list_read.specs.ListHeads.{place};
ghost use Rattle.list_read.specs.FoundNodes.{tree_in};
ghost use Rattle.rule_text.specs.RuleForms.{as_atom, name_at, atom_at, clauses};

use crate::error::RuleError;
use list_read::place;
use sexpr_read::{Children, Node};

/// Bad, at this node.
pub(crate) fn bad(node: Node<'_, '_>) -> RuleError
    ensures { result ≡ RuleError.Bad (place (tree_of node.entry)) }
{
    RuleError::Bad { at: place(node) }
}

/// An atom, and no list in its place.
pub(crate) fn as_atom<'d, 't>(node: Node<'d, 't>) -> Result<Node<'d, 't>, RuleError>
    ensures { tree_in result ≡ as_atom (tree_of node.entry) }
{
    if node.is_list() {
        Err(bad(node))
    } else {
        Ok(node)
    }
}

/// The name behind the head.
#[tactic(auto, unfolding(crate::specs::RuleForms::name_at))]
pub(crate) fn name_at<'d, 't>(list: Node<'d, 't>) -> Result<Node<'d, 't>, RuleError>
    ensures { tree_in result ≡ name_at (tree_of list.entry) }
{
    let mut parts = list.children();
    parts.next();
    match parts.next() {
        Some(name) => as_atom(name),
        None => Err(bad(list)),
    }
}

/// The one part behind the head.
#[tactic(auto, unfolding(crate::specs::RuleForms::atom_at))]
pub(crate) fn atom_at<'d, 't>(list: Node<'d, 't>) -> Result<Node<'d, 't>, RuleError>
    ensures { tree_in result ≡ atom_at (tree_of list.entry) }
{
    let mut parts = list.children();
    parts.next();
    let Some(atom) = parts.next() else {
        return Err(bad(list));
    };
    match parts.next() {
        Some(_) => Err(bad(list)),
        None => as_atom(atom),
    }
}

/// What stands behind the head and the name.
#[tactic(auto, unfolding(crate::specs::RuleForms::clauses))]
pub(crate) fn clauses<'d, 't>(list: Node<'d, 't>) -> Children<'d, 't>
    ensures { trees_left result ≡ clauses (tree_of list.entry) }
{
    let mut parts = list.children();
    parts.next();
    parts.next();
    parts
}
