//! Lists by their heads, and what stands in them.

ghost use Rattle.std.specs.Prelude.{◌≡◌};
ghost use Rattle.sexpr_read.specs.TreeViews.{tree_of, trees_left};
ghost use Rattle.list_read.specs.ListHeads.{place, has_head, has_word_head, behind_head, has_word};

use sexpr_read::{Children, Node};

/// Where a node begins in the text.
#[inline]
pub fn place(node: Node<'_, '_>) -> u32
    ensures { result ≡ place (tree_of node.entry) }
{
    node.span().at
}

/// Whether it is a list whose first part stands for this text.
#[inline]
#[tactic(auto, unfolding(crate::specs::ListHeads::has_head))]
pub fn has_head(node: Node<'_, '_>, head: &[u8]) -> bool
    ensures { result ≡ has_head head.now (tree_of node.entry) }
{
    let mut parts = node.children();
    match parts.next() {
        None => false,
        Some(first) => first.is(head),
    }
}

/// Whether it is a list whose first part stands for this text and does not stand in quotes.
#[inline]
#[tactic(auto, unfolding(crate::specs::ListHeads::has_word_head))]
pub fn has_word_head(node: Node<'_, '_>, head: &[u8]) -> bool
    ensures { result ≡ has_word_head head.now (tree_of node.entry) }
{
    let mut parts = node.children();
    match parts.next() {
        None => false,
        Some(first) => !first.quoted() && first.is(head),
    }
}

/// What stands behind the head.
#[tactic(auto, unfolding(crate::specs::ListHeads::behind_head))]
pub fn behind_head<'d, 't>(list: Node<'d, 't>) -> Children<'d, 't>
    ensures { trees_left result ≡ behind_head (tree_of list.entry) }
{
    let mut parts = list.children();
    parts.next();
    parts
}

/// Of each of two words whether it stands in the list, found in one walk.
#[inline(always)]
#[tactic(auto, unfolding(crate::specs::ListHeads::has_word))]
pub fn has_words(list: Node<'_, '_>, first: &[u8], second: &[u8]) -> (bool, bool)
    ensures first { result.0 ≡ has_word first.now (tree_of list.entry) }
    ensures second { result.1 ≡ has_word second.now (tree_of list.entry) }
{
    let mut has_first = false;
    let mut has_second = false;
    for part in list.children() {
        has_first = has_first || part.is(first);
        has_second = has_second || part.is(second);
    }
    (has_first, has_second)
}
