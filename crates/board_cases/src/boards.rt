//! Calls on boards. A board is shown by the bits of its copper layers and how many more items it takes.

ghost use Rattle.std.specs.Prelude.{◌≡◌, ◌≤◌, length, IfOk};

use board_items::{Board, Item, ItemError, Part, Parts, What};
use case_lines::{
    Fault, add, crosses_threads, first_word, number, parts_of, refused, small, text_of, told,
};
use copper_layers::LayerSet;
use drc_io::Name;
use geo_seg::{Core, Point, Seg, Shape};
use pcb_read::{Spans, read_board, read_item, read_with_spans};
use plain_types::HasReason;
use smallvec::SmallVec;
use std::alloc::Global;

/// A board as it is shown.
fn shown(alloc: Global, board: &Board) -> Result<String, Fault> {
    let copper = board.copper().bits;
    let left = board.left();
    Ok(format!(in alloc; "{copper} {left}")?)
}

/// A board of no items, where the bits of its copper layers are written.
fn empty(alloc: Global, bits: &str) -> Result<Board, Fault> {
    let bits = small(number(bits)?)?;
    Ok(Board::new(alloc, LayerSet { bits })?)
}

/// Copper at the middle of the board.
fn part(bits: u32) -> Part {
    let middle = Point { x: 0, y: 0 };
    Part {
        layers: LayerSet { bits },
        shape: Shape {
            core: Core::Line(Seg {
                a: middle,
                b: middle,
            }),
            radius: 0,
        },
    }
}

/// A graphic of one part, where its net, its place and the bits of its layers are written.
fn graphic(alloc: Global, numbers: &[i64]) -> Result<Item, Fault>
    ensures { IfOk result (λ item. item.unit ≡ 0) }
{
    let [net, x, y, bits] = numbers else {
        return Err(Fault::BadNumber);
    };
    let mut copper = SmallVec::new(alloc);
    copper.push(part(small(*bits)?))?;
    Ok(Item {
        name: Name::of(Vec::new(alloc)),
        unit: 0,
        net: small(*net)?,
        x: *x,
        y: *y,
        copper: Parts::of(copper),
        hole: None,
        local: None,
        what: What::Graphic,
    })
}

/// What comes of adding each of these graphics: its id, or why it was refused. Then the board is shown.
fn added(alloc: Global, board: &mut Board, graphics: &[Vec<i64>]) -> Result<String, Fault> {
    let mut out = String::new(alloc);
    for numbers in graphics {
        if numbers.is_empty() {
            continue;
        }
        match board.add(graphic(alloc, numbers)?) {
            Ok(id) => out.push_str(&format!(in alloc; "{id} | ")?)?,
            Err(ItemError::OutOfMemory) => return Err(Fault::OutOfMemory),
            Err(refused) => out.push_str(&format!(in alloc; "{refused} | ")?)?,
        }
    }
    out.push_str(&shown(alloc, board)?)?;
    Ok(out)
}

/// Adds graphics to a board.
pub fn filled(alloc: Global, written: &str) -> Result<Vec<u8>, Fault> {
    let (bits, graphics) = written.split_once(" | ").unwrap_or((written, ""));
    let mut board = empty(alloc, bits)?;
    crosses_threads(&board);
    Ok(added(alloc, &mut board, &parts_of(alloc, graphics)?)?.into_bytes())
}

/// The board of a text.
pub fn read(alloc: Global, written: &str) -> Result<Vec<u8>, Fault> {
    match read_board(alloc, &text_of(alloc, written)?) {
        Ok(board) => Ok(shown(alloc, &board)?.into_bytes()),
        Err(error) => refused(alloc, &error, error.reason().place()),
    }
}

/// A board, and behind it where the lists of its units begin and end.
fn with_spans(alloc: Global, board: &Board, spans: &Spans) -> Result<Vec<u8>, Fault> {
    let mut out = shown(alloc, board)?.into_bytes();
    for span in spans.as_slice() {
        let (at, end) = (span.at, span.end);
        add(&mut out, format!(in alloc; " | {at} {end}")?.as_bytes())?;
    }
    Ok(out)
}

/// The board of a text, and where its units stand.
pub fn spanned(alloc: Global, written: &str) -> Result<Vec<u8>, Fault> {
    match read_with_spans(alloc, &text_of(alloc, written)?) {
        Ok((board, spans)) => with_spans(alloc, &board, &spans),
        Err(error) => refused(alloc, &error, error.reason().place()),
    }
}

/// How many items the text of a list has that stands at a place, where it is read for this board.
fn items(alloc: Global, at: u32, text: &[u8], board: &Board) -> Result<Vec<u8>, Fault>
    requires { length text.now ≤ 33_554_432 }
{
    if at > 33_554_432 {
        return Err(Fault::BadNumber);
    }
    match read_item(alloc, text, at, board, 5) {
        Ok(items) => told(alloc, &items.len()),
        Err(error) => refused(alloc, &error, error.reason().place()),
    }
}

/// Reads a list, where its place, the text of its board and the list's own text are written.
pub fn listed(alloc: Global, written: &str) -> Result<Vec<u8>, Fault> {
    let (at, written) = first_word(written);
    let (board, list) = written.split_once(" | ").ok_or(Fault::UnknownCall)?;
    let at = small(number(at)?)?;
    let list = text_of(alloc, list)?;
    match read_board(alloc, &text_of(alloc, board)?) {
        Ok(board) => items(alloc, at, &list, &board),
        Err(error) => refused(alloc, &error, error.reason().place()),
    }
}
