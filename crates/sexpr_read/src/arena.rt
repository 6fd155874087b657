//! The cells of a text, each a list or an atom, in the order in which they are read.

ghost use Rattle.std.specs.Prelude.{◌≡◌, ◌+◌, ◌-◌, ◌<◌, ◌≤◌, ◌^◌, ◌∷◌, ◌++◌, [], length, IfOk, OnOk, vec_len, slice_set, slice_index_or, IsTrue, ◌↔◌};
ghost use Rattle.sexpr_read.specs.ByteClasses.{class_of, sign_of};
ghost use Rattle.sexpr_read.specs.TreeKinds.{kind_of, no_cell};

use crate::bytes::byte_at;
use std::alloc::{AllocError, Global};

/// What a tree is.
#[derive(Clone, Copy)]
pub(crate) enum TreeKind {
    Word,
    String,
    List,
}

/// The first byte of a tree says what it is. Only two bytes are looked for.
#[inline(always)]
#[tactic(auto, unfolding(crate::specs::ByteClasses::class_of))]
fn kind_of(first: u8) -> TreeKind
    ensures { result ≡ kind_of (class_of first) }
{
    if first == b'(' {
        TreeKind::List
    } else if first == b'"' {
        TreeKind::String
    } else {
        TreeKind::Word
    }
}

/// What the tree is that begins at this place.
#[inline(always)]
#[tactic(auto, unfolding(crate::specs::ByteClasses::sign_of))]
pub(crate) fn kind_at(text: &[u8], at: usize) -> TreeKind
    requires { at < length text.now }
    ensures { result ≡ kind_of (sign_of text.now at) }
{
    kind_of(byte_at(text, at))
}

/// A list or an atom of a text. Cells stand in reading order, a list before what stands in it.
#[derive(Clone, Copy)]
pub(crate) struct Cell {
    pub(crate) at: u32,
    pub(crate) end: u32,
    /// How many cells stand in the list. While the list is open: one more than the place of the cell of the open list
    /// around it, or 0.
    pub(crate) inside: u32,
}

/// The cells of a text that is being read.
#[derive(Drop)]
pub(crate) struct Arena {
    pub(crate) cells: Vec<Cell>,
    /// One more than the place of the cell of the innermost open list, or 0. From there the open lists are linked.
    pub(crate) innermost: u32,
}

impl Arena {
    /// No cell, and room for so many.
    pub(crate) fn with_reserved(alloc: Global, cells: usize) -> Result<Arena, AllocError>
        ensures cells { IfOk result (λ arena. arena.cells.items ≡ []) }
        ensures innermost { IfOk result (λ arena. arena.innermost ≡ 0) }
    {
        Ok(Arena {
            cells: Vec::with_capacity(alloc, cells)?,
            innermost: 0,
        })
    }

    /// Whether no list is open.
    pub(crate) fn is_closed(&self) -> bool
        ensures { IsTrue result ↔ (self.now.innermost ≡ 0) }
    {
        self.innermost == 0
    }

    /// Appends a cell. Mostly there is room for it, and then it goes right where it will stand.
    #[inline(always)]
    fn push(&mut self, cell: Cell) -> Result<(), AllocError>
        ensures cells { OnOk result (self.new.cells.items ≡ self.old.cells.items ++ cell ∷ []) }
        ensures innermost { self.new.innermost ≡ self.old.innermost }
    {
        if self.cells.len() == self.cells.capacity() {
            self.cells.reserve(1)?;
        }
        self.cells.push_reserved(cell);
        Ok(())
    }

    /// Appends the cell of an atom.
    #[inline(always)]
    pub(crate) fn add_atom(&mut self, at: usize, end: usize) -> Result<(), AllocError>
        requires at { at < 2 ^ 32 }
        requires end { end < 2 ^ 32 }
        ensures cells { OnOk result (self.new.cells.items
            ≡ self.old.cells.items ++ record { at = at; end = end; inside = 0 } ∷ []) }
        ensures innermost { self.new.innermost ≡ self.old.innermost }
    {
        self.push(Cell {
            at: at as u32,
            end: end as u32,
            inside: 0,
        })
    }

    /// Appends the cell of a list, which is the innermost open one from then on.
    #[inline(always)]
    pub(crate) fn open_list(&mut self, at: usize) -> Result<(), AllocError>
        requires at { at < 2 ^ 32 }
        requires cell_estimate { vec_len self.old.cells + 1 < 2 ^ 32 }
        ensures cells { OnOk result (self.new.cells.items
            ≡ self.old.cells.items
            ++ record { at = at; end = 0; inside = self.old.innermost } ∷ []) }
        ensures innermost { OnOk result (self.new.innermost ≡ vec_len self.old.cells + 1) }
    {
        self.push(Cell {
            at: at as u32,
            end: 0,
            inside: self.innermost,
        })?;
        self.innermost = self.cells.len() as u32;
        Ok(())
    }

    /// Closes the innermost open list.
    pub(crate) fn close_list(&mut self, end: usize)
        requires end { end < 2 ^ 32 }
        requires few { vec_len self.old.cells < 2 ^ 32 }
        requires innermost { 0 < self.old.innermost }
        requires held { self.old.innermost ≤ vec_len self.old.cells }
        ensures innermost { self.new.innermost
            ≡ (slice_index_or self.old.cells.items (self.old.innermost - 1) no_cell).inside }
        ensures cells { self.new.cells.items
            ≡ slice_set self.old.cells.items (self.old.innermost - 1) (record {
              at = (slice_index_or self.old.cells.items (self.old.innermost - 1) no_cell).at;
              end = end;
              inside = vec_len self.old.cells - self.old.innermost;
            }) }
    {
        let inside = self.cells.len() as u32 - self.innermost;
        let place = self.innermost as usize - 1;
        let outer = self.cells[place].inside;
        let at = self.cells[place].at;
        self.cells[place] = Cell {
            at,
            end: end as u32,
            inside,
        };
        self.innermost = outer;
    }
}
