//! Reports of a board, whole and short.

ghost use Rattle.std.specs.Prelude.{◌≡◌, ◌++◌, [], All, map, length, filter};
ghost use Rattle.std.specs.List.{flat_map};
ghost use Rattle.drc_io.specs.Sinks.{Wrote};
ghost use Rattle.cond_lang.specs.Rules.{plain_rule};
ghost use Rattle.rule_text.specs.RuleValues.{plain_rules};
ghost use Rattle.pair_check.specs.Rows.{HasItems, HasSource};
ghost use Rattle.net_groups.specs.NetParts.{is_open, IsWritable};
ghost use Rattle.drc_rows.specs.Buffer.{Buffered};
ghost use Rattle.drc_rows.specs.Report.{rows_text, notes_text};
ghost use Rattle.drc_rows.specs.ReportOf.{part_text, nets_text, tiles_line, first_line};
ghost use Rattle.drc_rows.specs.ReportOf.{whole_report, short_report};
ghost use Rattle.run_reports.specs.Counts.{counts_text};

use board_items::Board;
use drc_io::{Failed, Sink};
use drc_rows::{ReportBuffer, count_notes, push_all, push_line, push_net, push_notes, push_rows};
use itoa::Buffer;
use net_class::Classes;
use net_groups::NetPart;
use row_check::{CheckView, Row};
use rule_pick::FactsById;
use rule_text::Rules;
use std::alloc::Global;

/// Puts the rows, and how many they are, into the buffer.
fn push_counted_rows<W: Sink>(
    buffer: &mut ReportBuffer,
    out: &mut W,
    view: &CheckView<'_>,
    rows: &[Row],
) -> Result<(), Failed>
    requires items { All (HasItems view.now.board.now) rows.now }
    requires sources { All (HasSource (map plain_rule view.now.rules.now)) rows.now }
    ensures { Buffered W.written W.faults out.old out.new buffer.old
        (rows_text view.now.board.now (map plain_rule view.now.rules.now) rows.now)
        buffer.new result }
{
    push_rows(buffer, out, view, rows)?;
    push_line(buffer, out, b"rows ", rows.len() as u64, b"")
}

/// Puts the notes, and how many they are, into the buffer.
fn push_counted_notes<W: Sink>(
    buffer: &mut ReportBuffer,
    out: &mut W,
    board: &Board,
    rules: &Rules,
) -> Result<(), Failed>
    ensures { Buffered W.written W.faults out.old out.new buffer.old
        (notes_text board.now (plain_rules rules.now)) buffer.new result }
{
    push_notes(buffer, out, board, rules)?;
    push_line(buffer, out, b"not checked ", count_notes(board, rules), b"")
}

/// Puts the lines of a net into the buffer, if it is open.
fn push_part<W: Sink>(
    buffer: &mut ReportBuffer,
    out: &mut W,
    board: &Board,
    part: &NetPart,
) -> Result<(), Failed>
    requires { IsWritable board.now part.now }
    ensures { Buffered W.written W.faults out.old out.new buffer.old
        (part_text board.now part.now) buffer.new result }
{
    if !part.is_open() {
        return Ok(());
    }
    push_net(
        buffer,
        out,
        board,
        part.net,
        &part.groups,
        &part.anchors,
        &part.nest,
    )
}

/// Puts the lines of all open nets into the buffer.
fn push_open<W: Sink>(
    buffer: &mut ReportBuffer,
    out: &mut W,
    board: &Board,
    parts: &[NetPart],
) -> Result<(), Failed>
    requires { All (IsWritable board.now) parts.now }
    ensures { Buffered W.written W.faults out.old out.new buffer.old
        (flat_map (part_text board.now) parts.now) buffer.new result }
{
    for part in parts {
        push_part(buffer, out, board, part)?;
    }
    Ok(())
}

/// How many nets are open.
fn count_open(parts: &[NetPart]) -> u64
    ensures { result ≡ length (filter is_open parts.now) }
{
    let mut count: usize = 0;
    for part in parts {
        if part.is_open() {
            count += 1;
        }
    }
    count as u64
}

/// Puts the open nets, and how many they are, into the buffer.
fn push_parts<W: Sink>(
    buffer: &mut ReportBuffer,
    out: &mut W,
    board: &Board,
    parts: &[NetPart],
) -> Result<(), Failed>
    requires { All (IsWritable board.now) parts.now }
    ensures { Buffered W.written W.faults out.old out.new buffer.old
        (nets_text board.now parts.now) buffer.new result }
{
    push_open(buffer, out, board, parts)?;
    push_line(buffer, out, b"open nets ", count_open(parts), b"")
}

/// How many tiles were gone through, and how many hold an item.
#[derive(Clone, Copy)]
pub struct Tiles {
    pub done: u64,
    pub held: u32,
}

/// Puts into the buffer how many tiles were gone through, and how many hold an item.
fn push_tiles<W: Sink>(buffer: &mut ReportBuffer, out: &mut W, tiles: Tiles) -> Result<(), Failed>
    ensures { Buffered W.written W.faults out.old out.new buffer.old
        (tiles_line tiles.done tiles.held) buffer.new result }
{
    let mut done_digits = Buffer::new();
    let mut held_digits = Buffer::new();
    push_all(
        buffer,
        out,
        &[
            b"rechecked ",
            done_digits.format(tiles.done).as_bytes(),
            b" of ",
            held_digits.format(tiles.held).as_bytes(),
            b" tiles\n",
        ],
    )
}

/// Puts what was found of rows and notes into the buffer, behind the line that begins the report.
fn push_items<W: Sink>(
    buffer: &mut ReportBuffer,
    out: &mut W,
    number: u64,
    view: &CheckView<'_>,
    rules: &Rules,
    rows: &[Row],
) -> Result<(), Failed>
    requires items { All (HasItems view.now.board.now) rows.now }
    requires sources { All (HasSource (map plain_rule view.now.rules.now)) rows.now }
    ensures { Buffered W.written W.faults out.old out.new buffer.old
        (first_line number
        ++ rows_text view.now.board.now (map plain_rule view.now.rules.now) rows.now
        ++ notes_text view.now.board.now (plain_rules rules.now))
        buffer.new result }
{
    push_line(buffer, out, b"report ", number, b"")?;
    push_counted_rows(buffer, out, view, rows)?;
    push_counted_notes(buffer, out, view.board, rules)
}

/// Writes the line that opens a report, the rows, and how many they are. No rule stands behind them. `Failed` comes
/// only where the sink's count of faults rose, and then a prefix of these lines was written. It takes no memory.
pub fn write_rows_alone<W: Sink>(
    alloc: Global,
    board: &Board,
    classes: &Classes,
    rows: &[Row],
    out: &mut W,
) -> Result<(), Failed>
    requires items { All (HasItems board.now) rows.now }
    requires sources { All (HasSource []) rows.now }
    ensures { Wrote W.written W.faults out.old out.new
        (first_line 0 ++ rows_text board.now [] rows.now) result }
{
    // The line of a row looks at no facts.
    let view = CheckView {
        board,
        facts: &FactsById::new(alloc),
        rules: &[],
        classes,
    };
    let mut buffer = ReportBuffer::new();
    push_line(&mut buffer, out, b"report ", 0, b"")?;
    push_counted_rows(&mut buffer, out, &view, rows)?;
    buffer.end(out)
}

/// Writes the whole report of this number: the board's rows, its notes, its open nets, and how many tiles were gone
/// through. `Failed` comes only where the sink's count of faults rose, and then a prefix of the report was
/// written. It takes no memory. What was put together goes out when the next piece has no room in 8,192 bytes, and at the end.
pub fn write_whole<W: Sink>(
    number: u64,
    view: &CheckView<'_>,
    rules: &Rules,
    rows: &[Row],
    parts: &[NetPart],
    tiles: Tiles,
    out: &mut W,
) -> Result<(), Failed>
    requires rules { map plain_rule view.now.rules.now ≡ (plain_rules rules.now).rules }
    requires items { All (HasItems view.now.board.now) rows.now }
    requires sources { All (HasSource (map plain_rule view.now.rules.now)) rows.now }
    requires writable { All (IsWritable view.now.board.now) parts.now }
    ensures { Wrote W.written W.faults out.old out.new
        (whole_report number view.now.board.now (plain_rules rules.now)
        (record { rows = rows.now; parts = parts.now; held = tiles.held }) tiles.done)
        result }
{
    let mut buffer = ReportBuffer::new();
    push_items(&mut buffer, out, number, view, rules, rows)?;
    push_parts(&mut buffer, out, view.board, parts)?;
    push_tiles(&mut buffer, out, tiles)?;
    buffer.end(out)
}

/// How many rows, notes and open nets a report has.
#[derive(Clone, Copy)]
struct Counts {
    rows: u64,
    notes: u64,
    nets: u64,
}

/// Puts into the buffer how many rows, notes and open nets there are.
fn push_counts<W: Sink>(
    buffer: &mut ReportBuffer,
    out: &mut W,
    counts: Counts,
) -> Result<(), Failed>
    ensures { Buffered W.written W.faults out.old out.new buffer.old
        (counts_text counts.rows counts.notes counts.nets) buffer.new result }
{
    push_line(buffer, out, b"rows ", counts.rows, b"")?;
    push_line(buffer, out, b"not checked ", counts.notes, b"")?;
    push_line(buffer, out, b"open nets ", counts.nets, b"")
}

/// Writes the short report of this number: how many rows, notes and open nets there are, and how many tiles were gone
/// through. `Failed` comes only where the sink's count of faults rose, and then a prefix of the report was
/// written. It takes no memory, and makes one write where the sink takes it whole.
pub fn write_short<W: Sink>(
    number: u64,
    board: &Board,
    rules: &Rules,
    rows: &[Row],
    parts: &[NetPart],
    tiles: Tiles,
    out: &mut W,
) -> Result<(), Failed>
    ensures { Wrote W.written W.faults out.old out.new
        (short_report number board.now (plain_rules rules.now)
        (record { rows = rows.now; parts = parts.now; held = tiles.held }) tiles.done)
        result }
{
    let counts = Counts {
        rows: rows.len() as u64,
        notes: count_notes(board, rules),
        nets: count_open(parts),
    };
    let mut buffer = ReportBuffer::new();
    push_line(&mut buffer, out, b"report ", number, b"")?;
    push_counts(&mut buffer, out, counts)?;
    push_tiles(&mut buffer, out, tiles)?;
    buffer.end(out)
}
