//! How an item stands in a line: by its kind, a name, and its place.

ghost use Rattle.std.specs.Prelude.{◌≡◌, ◌++◌, IsSome, codes, true};
ghost use Rattle.one_item.specs.Positions.{is_on_board};
ghost use Rattle.board_items.specs.Boards.{item_at};
ghost use Rattle.drc_rows.specs.Buffer.{Buffered, named};
ghost use Rattle.drc_rows.specs.Report.{title_of, item_text, text_of};

use crate::buffer::ReportBuffer;
use crate::pieces::{push_lengths, push_quoted};
use board_items::{Board, Item, What};
use drc_io::{Failed, Name, Sink};

/// Puts a word and a name into the buffer.
#[inline(always)]
fn push_named<W: Sink>(
    buffer: &mut ReportBuffer,
    out: &mut W,
    word: &[u8],
    name: &Name,
) -> Result<(), Failed>
    ensures { Buffered W.written W.faults out.old out.new buffer.old
        (named word.now name.now) buffer.new result }
{
    push_quoted(buffer, out, word, name.bytes())
}

/// Puts what a pad is called into the buffer.
fn push_pad<W: Sink>(
    buffer: &mut ReportBuffer,
    out: &mut W,
    number: &Name,
    reference: &Name,
) -> Result<(), Failed>
    ensures { Buffered W.written W.faults out.old out.new buffer.old
        (named (codes "pad") number.now ++ named (codes " of") reference.now) buffer.new result }
{
    push_named(buffer, out, b"pad", number)?;
    push_named(buffer, out, b" of", reference)
}

/// Puts into the buffer what the item is called.
pub(crate) fn push_title<W: Sink>(
    buffer: &mut ReportBuffer,
    out: &mut W,
    item: &Item,
) -> Result<(), Failed>
    ensures { Buffered W.written W.faults out.old out.new buffer.old
        (title_of item.now.name item.now.what) buffer.new result }
{
    match &item.what {
        What::Track { .. } => push_named(buffer, out, b"track", &item.name),
        What::Via { .. } => push_named(buffer, out, b"via", &item.name),
        What::Pad { number, reference } => push_pad(buffer, out, number.get(), reference.get()),
        What::Graphic => push_named(buffer, out, b"graphic", &item.name),
        What::Fill => push_named(buffer, out, b"zone", &item.name),
        What::Edge { .. } => push_named(buffer, out, b"edge", &item.name),
        What::Area { title, .. } => push_named(buffer, out, b"area", title.get()),
        What::Body { reference, .. } => push_named(buffer, out, b"footprint", reference.get()),
        What::Note { .. } => push_named(buffer, out, b"note", &item.name),
    }
}

/// Puts an item and its place into the buffer.
fn push_item<W: Sink>(buffer: &mut ReportBuffer, out: &mut W, item: &Item) -> Result<(), Failed>
    requires { is_on_board item.now ≡ true }
    ensures { Buffered W.written W.faults out.old out.new buffer.old
        (item_text item.now) buffer.new result }
{
    push_title(buffer, out, item)?;
    push_lengths(buffer, out, b" at ", item.x, b" ", item.y)
}

/// Puts the item of an id into the buffer.
pub(crate) fn push_item_of<W: Sink>(
    buffer: &mut ReportBuffer,
    out: &mut W,
    board: &Board,
    id: u32,
) -> Result<(), Failed>
    requires { IsSome (item_at board.now.items id) }
    ensures { Buffered W.written W.faults out.old out.new buffer.old
        (text_of (item_at board.now.items id)) buffer.new result }
{
    push_item(buffer, out, board.get(id).unwrap())
}
