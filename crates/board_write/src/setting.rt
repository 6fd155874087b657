//! Trees that are set down, with places in them moved.

ghost use Rattle.std.specs.Prelude.{◌≡◌, ◌++◌, ◌≤◌, ◌-◌, unsigned_abs, slice_range, IfOk, OnOk};
ghost use Rattle.exact_dec.specs.MillimetreText.{mm_text};
ghost use Rattle.sexpr_read.specs.Tree.{quoted, span};
ghost use Rattle.sexpr_read.specs.TreeViews.{tree_of, trees_left};
ghost use Rattle.roundtrip_text.specs.Pieces.{written};
ghost use Rattle.board_write.specs.Settings.{grove, inside, set_down, updated, list_down};
ghost use Rattle.board_write.specs.Opened.{atom_down, IsPlaced, IsListOpened};
ghost use Rattle.board_write.specs.MovedPlaces.{content_of};

use crate::places::{Moving, Number, Place};
use exact_dec::write_mm;
use sexpr_read::{Children, Node, Span};
use std::alloc::AllocError;

/// How trees are set down.
#[derive(Clone, Copy)]
pub(crate) enum Setting<'t> {
    /// As they stand in their text, with what lies between them.
    AsInText(&'t [u8]),
    /// With one space between them.
    Spaced,
}

/// The part of a text from one place to another, as far as the text goes.
pub(crate) fn piece(text: &[u8], from: usize, to: usize) -> &[u8]
    ensures { result.now ≡ slice_range text.now from to }
{
    let to = to.min(text.len());
    let from = from.min(to);
    &text[from..to]
}

/// Appends a piece.
pub(crate) fn append(out: &mut Vec<u8>, piece: &[u8]) -> Result<(), AllocError>
    ensures { OnOk result (out.new.items ≡ out.old.items ++ piece.now) }
{
    out.extend_from_slice(piece)
}

impl Setting<'_> {
    ghost use Rattle.std.specs.Prelude.{◌≡◌};
    ghost use Rattle.board_write.specs.Settings.{gap, rest_of};

    /// What stands before a tree, behind the one that ends at `from`.
    fn gap(&self, from: usize, at: usize, is_first: bool) -> &[u8]
        ensures { result.now ≡ gap self.now from at is_first }
    {
        match self {
            Setting::AsInText(text) => piece(text, from, at),
            Setting::Spaced => { if is_first { b"" } else { b" " } }
        }
    }

    /// What stands behind the last tree.
    fn rest(&self, from: usize, to: usize) -> &[u8]
        ensures { result.now ≡ rest_of self.now from to }
    {
        match self {
            Setting::AsInText(text) => piece(text, from, to),
            Setting::Spaced => b"",
        }
    }
}

/// The content of an atom, or of none.
fn content<'t>(atom: Node<'_, 't>) -> &'t [u8]
    ensures { result.now ≡ content_of (tree_of atom.entry) }
{
    match atom.atom() {
        None => b"",
        Some(content) => content,
    }
}

/// Appends a content, in quotes where the atom has them.
fn append_content(out: &mut Vec<u8>, is_quoted: bool, content: &[u8]) -> Result<(), AllocError>
    ensures { OnOk result (out.new.items ≡ out.old.items ++ written is_quoted content.now) }
{
    if is_quoted {
        append(out, b"\"")?;
        append(out, content)?;
        append(out, b"\"")
    } else {
        append(out, content)
    }
}

/// Appends an atom as it is.
pub(crate) fn append_atom(out: &mut Vec<u8>, atom: Node<'_, '_>) -> Result<(), AllocError>
    ensures { OnOk result (out.new.items ≡ out.old.items ++ atom_down (tree_of atom.entry)) }
{
    append_content(out, atom.quoted(), content(atom))
}

/// Appends a number in the place of an atom.
fn append_number(out: &mut Vec<u8>, number: Number<'_, '_>) -> Result<(), AllocError>
    requires { unsigned_abs number.nm ≤ 1000000000000 }
    ensures { OnOk result (out.new.items
        ≡ out.old.items ++ written (quoted (tree_of number.entry.atom)) (mm_text number.entry.nm)) }
{
    let mut bytes = [0; 16];
    let len = write_mm(number.nm, &mut bytes);
    append_content(out, number.atom.quoted(), &bytes[..len])
}

/// What is still to be set down of a list: the parts from a place on.
#[derive(Clone, Copy)]
struct Left<'d, 't> {
    from: usize,
    is_first: bool,
    parts: Children<'d, 't>,
}

/// Appends the place of a list, and gives what follows it.
fn append_place<'d, 't>(
    out: &mut Vec<u8>,
    setting: Setting<'_>,
    from: usize,
    place: Place<'d, 't>,
) -> Result<Left<'d, 't>, AllocError>
    requires x { unsigned_abs place.x.nm ≤ 1000000000000 }
    requires y { unsigned_abs place.y.nm ≤ 1000000000000 }
    ensures { IfOk result (IsPlaced setting.entry from place.entry out.old.items out.new.items) }
{
    let head = place.head.span();
    append(out, setting.gap(from, head.at as usize, true))?;
    append_atom(out, place.head)?;
    let x = place.x.atom.span();
    append(out, setting.gap(head.end as usize, x.at as usize, false))?;
    append_number(out, place.x)?;
    let y = place.y.atom.span();
    append(out, setting.gap(x.end as usize, y.at as usize, false))?;
    append_number(out, place.y)?;
    Ok(Left {
        from: y.end as usize,
        is_first: false,
        parts: place.rest,
    })
}

/// Appends the opening bracket of a list, with the place of the list where that is moved, and gives what follows.
fn append_opening<'d, 't>(
    out: &mut Vec<u8>,
    setting: Setting<'_>,
    list: Node<'d, 't>,
    moving: Moving,
) -> Result<Left<'d, 't>, AllocError>
    ensures { IfOk result (IsListOpened setting.entry moving
        (tree_of list.entry) out.old.items out.new.items) }
{
    append(out, b"(")?;
    let from = list.span().at as usize + 1;
    match moving.own_place(list) {
        Some(place) => append_place(out, setting, from, place),
        None => Ok(Left {
            from,
            is_first: true,
            parts: list.children(),
        }),
    }
}

/// Appends these trees up to a place, with places in them moved.
fn append_parts(
    out: &mut Vec<u8>,
    setting: Setting<'_>,
    left: Left<'_, '_>,
    to: usize,
    moving: Moving,
) -> Result<(), AllocError>
    ensures { OnOk result (out.new.items
        ≡ out.old.items ++ set_down setting.entry left.entry.from to left.entry.is_first
        (updated moving (grove (trees_left left.entry.parts)))) }
{
    let mut from = left.from;
    let mut is_first = left.is_first;
    let mut moving = moving;
    for part in left.parts {
        let span = part.span();
        append(out, setting.gap(from, span.at as usize, is_first))?;
        if part.is_list() {
            let inside = append_opening(out, setting, part, moving)?;
            append_parts(out, setting, inside, end_inside(span), moving.within())?;
            append(out, b")")?;
            moving = moving.behind(part);
        } else {
            append_atom(out, part)?;
        }
        from = span.end as usize;
        is_first = false;
    }
    append(out, setting.rest(from, to))
}

/// Where the closing bracket of a list stands.
pub(crate) fn end_inside(span: Span) -> usize
    ensures { result ≡ span.end - 1 }
{
    (span.end as usize).saturating_sub(1)
}

/// Appends a list with places in it moved.
pub(crate) fn append_list(
    out: &mut Vec<u8>,
    setting: Setting<'_>,
    list: Node<'_, '_>,
    moving: Moving,
) -> Result<(), AllocError>
    ensures { OnOk result (out.new.items
        ≡ out.old.items ++ list_down setting.entry (span (tree_of list.entry))
        (updated moving (inside (tree_of list.entry)))) }
{
    append(out, b"(")?;
    let span = list.span();
    let left = Left {
        from: span.at as usize + 1,
        is_first: true,
        parts: list.children(),
    };
    append_parts(out, setting, left, end_inside(span), moving)?;
    append(out, b")")
}
