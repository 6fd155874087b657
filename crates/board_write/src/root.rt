//! The text of a board after changes of its units.

ghost use Rattle.std.specs.Prelude.{◌≡◌, ◌++◌, ◌+◌, ◌-◌, false, drop, IfOk, OnOk, All};
ghost use Rattle.sexpr_read.specs.Tree.{none, span, parts};
ghost use Rattle.sexpr_read.specs.TreeViews.{tree_of, root_of};
ghost use Rattle.roundtrip_text.specs.RewrittenText.{list_by, edited, edited_whole, spaced};
ghost use Rattle.board_write.specs.Settings.{inside, moving_by};
ghost use Rattle.board_write.specs.Dispositions.{mark_disposition, is_first, mark_here, spans_behind, marks_behind, dispositions_by, IsAlone, added_by, one_down, one_by};

use crate::edit_state::AddedList;
use crate::marks::{Mark, mark_at, mark_of};
use crate::places::Moving;
use crate::setting::{Setting, append, append_atom, append_list, end_inside, piece};
use sexpr_read::{Doc, Node, Span};
use std::alloc::{AllocError, Global};

/// The units that are still to come: where they stand in the text, and what has become of them.
#[derive(Clone, Copy)]
pub(crate) struct Units<'a> {
    pub spans: &'a [Span],
    pub marks: &'a [Mark],
}

/// Whether the first of the spans is this one.
fn begin_at(spans: &[Span], span: Span) -> bool
    ensures { result ≡ is_first spans.now span }
{
    match spans.first() {
        None => false,
        Some(first) => first.at == span.at && first.end == span.end,
    }
}

/// The spans behind the first.
fn later_spans(spans: &[Span]) -> &[Span]
    ensures { result.now ≡ drop 1 spans.now }
{
    if spans.is_empty() { spans } else { &spans[1..] }
}

/// The marks behind the first.
fn later_marks(marks: &[Mark]) -> &[Mark]
    ensures { result.now ≡ drop 1 marks.now }
{
    if marks.is_empty() { marks } else { &marks[1..] }
}

/// What has become of the list at the span, if it is a unit.
fn mark_here(units: Units<'_>, span: Span) -> Mark
    ensures { result ≡ mark_here units.entry.marks.now units.entry.spans.now span }
{
    if begin_at(units.spans, span) {
        mark_at(units.marks, 0)
    } else {
        Mark::Stays
    }
}

/// The units behind the list at the span.
fn behind<'a>(units: Units<'a>, span: Span) -> Units<'a>
    ensures spans { result.spans.now ≡ spans_behind units.entry.spans.now span }
    ensures marks { result.marks.now
        ≡ marks_behind units.entry.marks.now units.entry.spans.now span }
{
    if begin_at(units.spans, span) {
        Units {
            spans: later_spans(units.spans),
            marks: later_marks(units.marks),
        }
    } else {
        units
    }
}

/// Appends a list of the board by what has become of it.
fn append_marked(
    out: &mut Vec<u8>,
    text: &[u8],
    list: Node<'_, '_>,
    mark: Mark,
) -> Result<(), AllocError>
    ensures { OnOk result (out.new.items
        ≡ out.old.items ++ list_by text.now (span (tree_of list.entry))
        (mark_disposition mark (inside (tree_of list.entry)))) }
{
    let span = list.span();
    match mark {
        Mark::Stays => append(out, piece(text, span.at as usize, span.end as usize)),
        Mark::Gone => append(out, b""),
        Mark::Moved(by) => {
            let moving = Moving::of_unit(list, by);
            append_list(out, Setting::AsInText(text), list, moving)
        }
    }
}

/// Appends what stands in the root.
fn append_inside(
    out: &mut Vec<u8>,
    text: &[u8],
    root: Node<'_, '_>,
    units: Units<'_>,
) -> Result<(), AllocError>
    ensures { OnOk result (out.new.items
        ≡ out.old.items ++ edited text.now ((span (tree_of root.entry)).at
        + 1) ((span (tree_of root.entry)).end - 1)
        (dispositions_by units.entry.marks.now units.entry.spans.now (parts (tree_of root.entry)))
        (inside (tree_of root.entry))) }
{
    let whole = root.span();
    let mut from = whole.at as usize + 1;
    let mut units = units;
    for part in root.children() {
        let span = part.span();
        append(out, piece(text, from, span.at as usize))?;
        if part.is_list() {
            append_marked(out, text, part, mark_here(units, span))?;
            units = behind(units, span);
        } else {
            append_atom(out, part)?;
        }
        from = span.end as usize;
    }
    append(out, piece(text, from, end_inside(whole)))
}

/// What is moved in an added list.
fn moving_by(mark: Mark, list: Node<'_, '_>) -> Moving
    ensures { result ≡ moving_by mark (inside (tree_of list.entry)) }
{
    match mark {
        Mark::Stays | Mark::Gone => Moving::Nothing,
        Mark::Moved(by) => Moving::of_unit(list, by),
    }
}

/// Appends an added list that was not taken out.
fn append_spaced(out: &mut Vec<u8>, list: Node<'_, '_>, mark: Mark) -> Result<(), AllocError>
    requires { mark ≡ Mark.Gone → ⊥ }
    ensures { OnOk result (out.new.items
        ≡ out.old.items ++ spaced false (one_by mark (tree_of list.entry) none)) }
{
    let moving = moving_by(mark, list);
    append(out, b" ")?;
    append_list(out, Setting::Spaced, list, moving)
}

/// Appends a list that was added, unless it was taken out.
fn append_one(out: &mut Vec<u8>, added: &AddedList<'_>, marks: &[Mark]) -> Result<(), AllocError>
    requires { IsAlone added.now }
    ensures { OnOk result (out.new.items ≡ out.old.items ++ one_down marks.now added.now) }
{
    let mark = mark_of(marks, added.unit);
    if let Mark::Gone = mark {
        return append(out, b"");
    }
    let mut lists = added.doc.root().children();
    match lists.next() {
        None => Ok(()),
        Some(list) => append_spaced(out, list, mark),
    }
}

/// Appends the lists that were added and not taken out.
fn append_added(
    out: &mut Vec<u8>,
    added: &[AddedList<'_>],
    marks: &[Mark],
) -> Result<(), AllocError>
    requires { All IsAlone added.now }
    ensures { OnOk result (out.new.items
        ≡ out.old.items ++ spaced false (added_by marks.now added.now)) }
{
    for one in added {
        append_one(out, one, marks)?;
    }
    Ok(())
}

/// The text of the board with the changes.
pub(crate) fn text_after(
    alloc: Global,
    doc: &Doc<'_>,
    text: &[u8],
    units: Units<'_>,
    added: &[AddedList<'_>],
) -> Result<Vec<u8>, AllocError>
    requires { All IsAlone added.now }
    ensures { IfOk result (λ whole.
        whole.items ≡ edited_whole text.now (span (root_of doc.now))
        (dispositions_by units.entry.marks.now units.entry.spans.now (parts (root_of doc.now)))
        (inside (root_of doc.now)) (added_by units.entry.marks.now added.now)) }
{
    let root = doc.root();
    let span = root.span();
    let mut out = Vec::with_capacity(alloc, text.len())?;
    append(&mut out, piece(text, 0, span.at as usize + 1))?;
    append_inside(&mut out, text, root, units)?;
    append_added(&mut out, added, units.marks)?;
    append(&mut out, piece(text, end_inside(span), text.len()))?;
    Ok(out)
}
