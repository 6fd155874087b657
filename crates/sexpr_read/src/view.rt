//! The tree of a text, walked without copying it.

ghost use Rattle.std.specs.Prelude.{◌≡◌, ◌↔◌, IsTrue};
ghost use Rattle.std.proofs.Props.{props};
ghost use Rattle.sexpr_read.specs.ForestCells.{cells_of, forest_of, tree_at, LiesInText, ArePlaced, ArePlaced-prop};
ghost use Rattle.sexpr_read.specs.AtomTexts.{AreTexts, AreTexts-prop, HasTexts, HasTexts-prop};
ghost use Rattle.sexpr_read.specs.declared.arena.TreeKind.TheVariants.{List as Nested};

use crate::arena::{Cell, TreeKind, kind_at};
use crate::decode::{append_unescaped, ends_plain, ends_unescaped, is_unescaped};
use crate::place::Span;
use std::alloc::AllocError;

/// The tree of a text: the text, and the cells of its lists and atoms. No atom is copied.
#[derive(Drop)]
pub struct Doc<'t> {
    pub(crate) text: &'t [u8],
    pub(crate) span: Span,
    pub(crate) cells: Vec<Cell>,
    ghost placed: { LiesInText text.now Nested span.at span.end },
    ghost whole: { cells_of (forest_of text.now cells.items) ≡ cells.items } by { Prim.hlevel props },
    ghost each_placed: { ArePlaced text.now cells.items } by { ArePlaced-prop text.now cells.items },
    ghost texts: { AreTexts (forest_of text.now cells.items) } by { AreTexts-prop (forest_of text.now cells.items) },
}

#[tactic(auto, unfolding(crate::specs::TreeViews::root_of, crate::specs::TreeViews::tree_of))]
impl<'t> Doc<'t> {
    ghost use Rattle.std.specs.Prelude.{◌≡◌};
    ghost use Rattle.sexpr_read.specs.TreeViews.{root_of, tree_of};

    /// The one list, or the list of all forms.
    pub fn root<'d>(&'d self) -> Node<'d, 't>
        ensures { tree_of result ≡ root_of self.now }
    {
        Node {
            text: self.text,
            kind: TreeKind::List,
            span: self.span,
            cells: self.cells.as_slice(),
        }
    }
}

/// A list or an atom of a document. It borrows the document and its text, and is copied freely.
#[derive(Clone, Copy)]
pub struct Node<'d, 't> {
    pub(crate) text: &'t [u8],
    pub(crate) kind: TreeKind,
    pub(crate) span: Span,
    pub(crate) cells: &'d [Cell],
    ghost placed: { LiesInText text.now kind span.at span.end },
    ghost whole: { cells_of (forest_of text.now cells.now) ≡ cells.now } by { Prim.hlevel props },
    ghost each_placed: { ArePlaced text.now cells.now } by { ArePlaced-prop text.now cells.now },
    ghost texts: { HasTexts (tree_at text.now kind span cells.now) } by { HasTexts-prop (tree_at text.now kind span cells.now) },
}

#[tactic(auto, unfolding(crate::specs::TreeViews::tree_of, crate::specs::TreeViews::trees_left))]
impl<'d, 't> Node<'d, 't> {
    ghost use Rattle.std.specs.Prelude.{◌≡◌, ◌++◌, ◌↔◌, ◌<◌, ◌^◌, [], length, IsTrue, Some, option_copied, unwrap_or, IfSome, IsUtf8, OnOk, OnErr};
    ghost use Rattle.sexpr_read.specs.TextEndings.{ends_in};
    ghost use Rattle.sexpr_read.specs.Tree.{is_list, content, quoted, span, parts, value, word_of};
    ghost use Rattle.sexpr_read.specs.TreeViews.{tree_of, trees_left};

    /// Whether it is a list.
    pub fn is_list(self) -> bool
        ensures { result ≡ is_list (tree_of self.entry) }
    {
        match self.kind {
            TreeKind::List => true,
            TreeKind::Word | TreeKind::String => false,
        }
    }

    /// An atom's bytes as they stand in the text, without quotes, or `None` for a list.
    #[inline(always)]
    pub fn atom(self) -> Option<&'t [u8]>
        ensures { option_copied result ≡ content (tree_of self.entry) }
    {
        let at = self.span.at as usize;
        let end = self.span.end as usize;
        match self.kind {
            TreeKind::Word => Some(&self.text[at..end]),
            TreeKind::String => Some(&self.text[at + 1..end - 1]),
            TreeKind::List => None,
        }
    }

    /// Whether it is an atom in quotes.
    pub fn quoted(self) -> bool
        ensures { result ≡ quoted (tree_of self.entry) }
    {
        match self.kind {
            TreeKind::String => true,
            TreeKind::Word | TreeKind::List => false,
        }
    }

    /// Where it stands in the text, its quotes or brackets with it.
    pub fn span(self) -> Span
        ensures { result ≡ span (tree_of self.entry) }
    {
        self.span
    }

    #[tactic(auto, unfolding(crate::specs::TreeViews::tree_of, crate::specs::TreeViews::trees_left, crate::specs::ForestCells::forest_of))]
    /// What stands in a list, in the order of the text. An atom has no children.
    pub fn children(self) -> Children<'d, 't>
        ensures given { trees_left result ≡ parts (tree_of self.entry) }
        ensures fits { length (trees_left result) < 2 ^ 64 }
    {
        if let TreeKind::List = self.kind {
            return Children {
                text: self.text,
                cells: self.cells,
            };
        }
        Children {
            text: self.text,
            cells: &[],
        }
    }

    /// Whether it is an atom that stands for `text`, the escapes of a string read.
    #[inline(always)]
    pub fn is(self, text: &[u8]) -> bool
        ensures { IsTrue result ↔ (value (tree_of self.entry) ≡ Some text.now) }
    {
        match self.atom() {
            None => false,
            Some(content) => match self.kind {
                TreeKind::String => is_unescaped(content, text),
                TreeKind::Word | TreeKind::List => is_same(content, text),
            },
        }
    }

    /// Whether what an atom stands for ends in `tail`; a list stands for nothing.
    pub fn ends_in(self, tail: &[u8]) -> bool
        ensures { result ≡ ends_in tail.now (unwrap_or (value (tree_of self.entry)) []) }
    {
        match self.atom() {
            None => tail.is_empty(),
            Some(content) => match self.kind {
                TreeKind::String => ends_unescaped(content, tail),
                TreeKind::Word | TreeKind::List => ends_plain(content, tail),
            },
        }
    }

    /// The bytes of a word, which stands for itself; `None` for a string and for a list.
    pub fn word(self) -> Option<&'t [u8]>
        ensures word { option_copied result ≡ word_of (tree_of self.entry) }
        ensures value { IfSome result (λ word. value (tree_of self.entry) ≡ Some word.now) }
        ensures utf8 { IfSome result (λ word. IsUtf8 word.now) }
    {
        match self.kind {
            TreeKind::Word => self.atom(),
            TreeKind::String | TreeKind::List => None,
        }
    }

    /// Appends what an atom stands for; a list appends nothing. What is appended is UTF-8.
    pub fn value(self, out: &mut Vec<u8>) -> Result<(), AllocError>
        ensures ok { OnOk result
            (out.new.items ≡ out.old.items ++ unwrap_or (value (tree_of self.entry)) []) }
        ensures err { OnErr result (out.new.items ≡ out.old.items) }
        ensures utf8 { IsUtf8 (unwrap_or (value (tree_of self.entry)) []) }
    {
        match self.atom() {
            None => Ok(()),
            Some(content) => match self.kind {
                TreeKind::String => append_unescaped(out, content),
                TreeKind::Word | TreeKind::List => out.extend_from_slice(content),
            },
        }
    }
}

/// Whether two texts are the same. Most that are asked about differ in length or in the first byte, which is told
/// without a call.
#[inline(always)]
fn is_same(content: &[u8], text: &[u8]) -> bool
    ensures { IsTrue result ↔ (content.now ≡ text.now) }
{
    if content.len() != text.len() {
        return false;
    }
    let Some((first, after)) = content.split_first() else {
        return true;
    };
    let Some((other, rest)) = text.split_first() else {
        return false;
    };
    *first == *other && after == rest
}

/// The parts of a list that are still to come, in the order of the text.
#[derive(Clone, Copy)]
pub struct Children<'d, 't> {
    pub(crate) text: &'t [u8],
    pub(crate) cells: &'d [Cell],
    ghost whole: { cells_of (forest_of text.now cells.now) ≡ cells.now } by { Prim.hlevel props },
    ghost each_placed: { ArePlaced text.now cells.now } by { ArePlaced-prop text.now cells.now },
    ghost texts: { AreTexts (forest_of text.now cells.now) } by { AreTexts-prop (forest_of text.now cells.now) },
}

impl<'d, 't> Iterator for Children<'d, 't> {
    ghost use Rattle.std.specs.Iterator.{YieldsFirstBy, item_count};
    ghost use Rattle.sexpr_read.specs.TreeViews.{tree_of, trees_left};

    type Item = Node<'d, 't>;

    ghost next_gives = { YieldsFirstBy tree_of trees_left };

    ghost remaining = { item_count trees_left };

    fn next(&mut self) -> Option<Node<'d, 't>> {
        let (cell, after) = self.cells.split_first()?;
        let kind = kind_at(self.text, cell.at as usize);
        let (inside, others) = after.split_at(cell.inside as usize);
        self.cells = others;
        Some(Node {
            text: self.text,
            kind,
            span: Span {
                at: cell.at,
                end: cell.end,
            },
            cells: inside,
        })
    }
}
