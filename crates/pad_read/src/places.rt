//! The part of a list at a place: the head is at place 0, and what is behind it at 1.

ghost use Rattle.std.specs.Prelude.{◌≡◌, slice_get, option_map};
ghost use Rattle.sexpr_read.specs.Tree.{parts};
ghost use Rattle.sexpr_read.specs.TreeViews.{tree_of};

use sexpr_read::Node;

/// The part behind the head.
pub(crate) fn first_part<'d, 't>(list: Node<'d, 't>) -> Option<Node<'d, 't>>
    ensures { option_map tree_of result ≡ slice_get (parts (tree_of list.entry)) 1 }
{
    let mut parts = list.children();
    parts.next();
    parts.next()
}

/// The part of a list at place 3.
pub(crate) fn third_part<'d, 't>(list: Node<'d, 't>) -> Option<Node<'d, 't>>
    ensures { option_map tree_of result ≡ slice_get (parts (tree_of list.entry)) 3 }
{
    let mut parts = list.children();
    parts.next();
    parts.next();
    parts.next();
    parts.next()
}
