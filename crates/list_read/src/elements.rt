//! The elements of a list: one by its head, or several in one walk over its parts.

ghost use Rattle.std.specs.Prelude.{◌≡◌, ◌<◌, ◌↔◌, true, length, EachIndex, slice_index_or, None, Some, map, option_map, IsTrue};
ghost use Rattle.sexpr_read.specs.Tree.{value};
ghost use Rattle.sexpr_read.specs.TreeViews.{tree_of};
ghost use Rattle.list_read.specs.NamedElements.{element, is_naming, naming};
ghost use Rattle.list_read.specs.Wanted.{found_in};
ghost use Rattle.list_read.specs.ListWalk.{is_wanted_first, is_new, are_distinct, noted};

use crate::heads::has_head;
use sexpr_read::Node;

/// The first list in the list that has this head.
#[tactic(auto, unfolding(crate::specs::NamedElements::element))]
pub fn element<'d, 't>(node: Node<'d, 't>, head: &[u8]) -> Option<Node<'d, 't>>
    ensures { option_map tree_of result ≡ element head.now (tree_of node.entry) }
{
    for part in node.children() {
        if has_head(part, head) {
            return Some(part);
        }
    }
    None
}

/// Whether the list gives an item its name: it begins with `tstamp`, or with `uuid` as KiCad 8 writes it.
#[inline]
#[tactic(auto, unfolding(crate::specs::NamedElements::is_naming))]
pub fn is_naming(node: Node<'_, '_>) -> bool
    ensures { result ≡ is_naming (tree_of node.entry) }
{
    has_head(node, b"tstamp") || has_head(node, b"uuid")
}

/// The first list in the list that gives its item a name.
#[tactic(auto, unfolding(crate::specs::NamedElements::naming))]
pub fn naming<'d, 't>(node: Node<'d, 't>) -> Option<Node<'d, 't>>
    ensures { option_map tree_of result ≡ naming (tree_of node.entry) }
{
    for part in node.children() {
        if is_naming(part) {
            return Some(part);
        }
    }
    None
}

// ---- several at once

/// What is looked for among the parts of a list.
#[derive(Clone, Copy)]
pub enum Wanted {
    /// A list with this head.
    Head(&'static [u8]),
    /// A list that gives its item a name, `tstamp` or `uuid`.
    Name,
}

/// Whether a list that begins with this atom is the one.
#[inline(always)]
fn is_wanted(first: Node<'_, '_>, wanted: Wanted) -> bool
    ensures { result ≡ is_wanted_first wanted (tree_of first.entry) }
{
    match wanted {
        Wanted::Head(head) => first.is(head),
        Wanted::Name => first.is(b"tstamp") || first.is(b"uuid"),
    }
}

/// Whether a list that begins with this atom is the first one.
#[inline(always)]
fn is_new(found: &Option<Node<'_, '_>>, first: Node<'_, '_>, wanted: Wanted) -> bool
    ensures { result ≡ is_new (option_map tree_of found.now) wanted (tree_of first.entry) }
{
    match found {
        Some(_) => false,
        None => is_wanted(first, wanted),
    }
}

/// Whether two texts are the same. Most that are asked about differ in length, which is told at a look.
#[inline(always)]
fn are_same(word: &[u8], text: &[u8]) -> bool
    ensures { IsTrue result ↔ (word.now ≡ text.now) }
{
    word.len() == text.len() && word == text
}

/// Whether a list that begins with this word is the one. The word is the text of the atom, as it stands there.
#[inline(always)]
fn is_wanted_word(_first: Node<'_, '_>, word: &[u8], wanted: Wanted) -> bool
    requires { value (tree_of _first) ≡ Some word.now }
    ensures { result ≡ is_wanted_first wanted (tree_of _first.entry) }
{
    match wanted {
        Wanted::Head(head) => are_same(word, head),
        Wanted::Name => are_same(word, b"tstamp") || are_same(word, b"uuid"),
    }
}

/// Whether a list that begins with this word is the first one. The word is the text of the atom.
#[inline(always)]
fn is_new_word(
    found: &Option<Node<'_, '_>>,
    first: Node<'_, '_>,
    word: &[u8],
    wanted: Wanted,
) -> bool
    requires { value (tree_of first) ≡ Some word.now }
    ensures { result ≡ is_new (option_map tree_of found.now) wanted (tree_of first.entry) }
{
    found.is_none() && is_wanted_word(first, word, wanted)
}

/// The part, whose first part is this word, is noted for each for which it is the first one. Every place is asked.
#[inline(never)]
fn note_word<'d, 't>(
    part: Node<'d, 't>,
    first: Node<'d, 't>,
    word: &[u8],
    wanted: &[Wanted],
    found: &mut [Option<Node<'d, 't>>],
)
    requires word { value (tree_of first) ≡ Some word.now }
    requires places { length wanted.now ≡ length found.old }
    ensures { map (option_map tree_of) found.new
        ≡ noted (tree_of part.entry) (tree_of first.entry) wanted.now
        (map (option_map tree_of) found.old) }
{
    for k in 0..wanted.len() {
        let sought = wanted[k];
        if is_new_word(&found[k], first, word, sought) {
            found[k] = Some(part);
        }
    }
}

/// The part, whose first part is `first`, also in quotes, is noted for each for which it is the first one. Every place is
/// asked.
#[inline(never)]
fn note_any<'d, 't>(
    part: Node<'d, 't>,
    first: Node<'d, 't>,
    wanted: &[Wanted],
    found: &mut [Option<Node<'d, 't>>],
)
    requires { length wanted.now ≡ length found.old }
    ensures { map (option_map tree_of) found.new
        ≡ noted (tree_of part.entry) (tree_of first.entry) wanted.now
        (map (option_map tree_of) found.old) }
{
    for k in 0..wanted.len() {
        let sought = wanted[k];
        if is_new(&found[k], first, sought) {
            found[k] = Some(part);
        }
    }
}

/// The part, whose first part is this word, is noted for each for which it is the first one, and the place that is next
/// after it is given. Nearly all lists begin with a word, and here it is taken from the text once.
#[inline(always)]
fn note_in_turn<'d, 't>(
    part: Node<'d, 't>,
    first: Node<'d, 't>,
    word: &[u8],
    wanted: &[Wanted],
    next: usize,
    found: &mut [Option<Node<'d, 't>>],
) -> usize
    requires word { value (tree_of first) ≡ Some word.now }
    requires places { length wanted.now ≡ length found.old }
    requires distinct { are_distinct wanted.now ≡ true }
    ensures { map (option_map tree_of) found.new
        ≡ noted (tree_of part.entry) (tree_of first.entry) wanted.now
        (map (option_map tree_of) found.old) }
{
    if next < wanted.len() && is_new_word(&found[next], first, word, wanted[next]) {
        found[next] = Some(part);
        return next + 1;
    }
    note_word(part, first, word, wanted, found);
    next
}

/// The part, whose first part is `first`, is noted for each for which it is the first one. The one at `next` is asked first, since
/// parts mostly come in the order in which they are wanted; the place that is next after it is given.
#[inline(always)]
fn note_part<'d, 't>(
    part: Node<'d, 't>,
    first: Node<'d, 't>,
    wanted: &[Wanted],
    next: usize,
    found: &mut [Option<Node<'d, 't>>],
) -> usize
    requires places { length wanted.now ≡ length found.old }
    requires distinct { are_distinct wanted.now ≡ true }
    ensures { map (option_map tree_of) found.new
        ≡ noted (tree_of part.entry) (tree_of first.entry) wanted.now
        (map (option_map tree_of) found.old) }
{
    match first.word() {
        Some(word) => note_in_turn(part, first, word, wanted, next, found),
        None => {
            note_any(part, first, wanted, found);
            next
        }
    }
}

/// Makes all places empty.
fn clear(found: &mut [Option<Node<'_, '_>>])
    ensures { EachIndex found.new (λ k. slice_index_or found.new k None ≡ None) }
{
    for place in found.iter_mut() {
        *place = None;
    }
}

/// Finds for each that is wanted the first part of the list that is the one. The list is walked once, fastest where its parts come in
/// the order in which they are wanted. No head is wanted twice.
pub fn find_elements<'d, 't>(
    node: Node<'d, 't>,
    wanted: &[Wanted],
    found: &mut [Option<Node<'d, 't>>],
)
    requires places { length wanted.now ≡ length found.old }
    requires distinct { are_distinct wanted.now ≡ true }
    ensures { map (option_map tree_of) found.new ≡ map (found_in (tree_of node.entry)) wanted.now }
{
    clear(found);
    let mut next = 0;
    for part in node.children() {
        if let Some(first) = part.children().next() {
            next = note_part(part, first, wanted, next, found);
        }
    }
}

/// What was found at this place.
pub fn pick<'d, 't>(found: &[Option<Node<'d, 't>>], k: usize) -> Option<Node<'d, 't>>
    requires { k < length found.now }
    ensures { option_map tree_of result
        ≡ slice_index_or (map (option_map tree_of) found.now) k None }
{
    found[k]
}
