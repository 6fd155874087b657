//! The lines of rows, and lines with a number.

ghost use Rattle.std.specs.Prelude.{◌≡◌, ◌<◌, ℕ, length, map, All};
ghost use Rattle.std.specs.List.{flat_map};
ghost use Rattle.drc_io.specs.Sinks.{Wrote};
ghost use Rattle.cond_lang.specs.Rules.{plain_rule};
ghost use Rattle.rule_pick.specs.declared.kinds.Source.TheVariants.{Rule as NumberOf};
ghost use Rattle.pair_check.specs.Rows.{HasItems, HasSource};
ghost use Rattle.drc_rows.specs.Buffer.{Buffered};
ghost use Rattle.drc_rows.specs.Report.{severity_word, layer_text, head_text, single_text, pair_text, items_text, source_text, asked_text, lengths_text, measured_text, limit_word, measures, row_line, number_line};

use crate::buffer::ReportBuffer;
use crate::items::push_item_of;
use crate::pieces::{push_all, push_lengths, push_quoted};
use board_items::Board;
use cond_lang::{Family, Rule, Severity};
use copper_layers::layer_name;
use drc_io::{Failed, Sink};
use itoa::Buffer;
use row_check::{CheckView, Row, RowLayer};
use rule_pick::Source;

fn severity_word(severity: Severity) -> &'static [u8]
    ensures { result.now ≡ severity_word severity }
{
    match severity {
        Severity::Error => b"error",
        Severity::Warning => b"warning",
        Severity::Ignore => b"ignore",
        Severity::Exclusion => b"exclusion",
    }
}

fn layer_text(row: &Row) -> &'static [u8]
    ensures { result.now ≡ layer_text row.now.layer }
{
    match row.layer() {
        RowLayer::Copper(layer) => layer_name(layer),
        RowLayer::FrontYard => b"F.CrtYd",
        RowLayer::BackYard => b"B.CrtYd",
        RowLayer::Nowhere => b"-",
    }
}

/// Puts into the buffer the severity of a row, the kind that is broken, and the layer.
fn push_head<W: Sink>(buffer: &mut ReportBuffer, out: &mut W, row: &Row) -> Result<(), Failed>
    ensures { Buffered W.written W.faults out.old out.new buffer.old
        (head_text row.now) buffer.new result }
{
    let severity = severity_word(row.severity());
    let kind = row.kind().name().as_bytes();
    let layer = layer_text(row);
    push_all(buffer, out, &[severity, b" ", kind, b" ", layer, b": "])
}

/// Puts the first item of a row into the buffer.
fn push_first<W: Sink>(
    buffer: &mut ReportBuffer,
    out: &mut W,
    board: &Board,
    row: &Row,
) -> Result<(), Failed>
    requires { HasItems board.now row.now }
    ensures { Buffered W.written W.faults out.old out.new buffer.old
        (single_text board.now row.now) buffer.new result }
{
    push_item_of(buffer, out, board, row.first())
}

/// Puts the two items of a row into the buffer.
fn push_pair<W: Sink>(
    buffer: &mut ReportBuffer,
    out: &mut W,
    board: &Board,
    row: &Row,
) -> Result<(), Failed>
    requires { HasItems board.now row.now }
    ensures { Buffered W.written W.faults out.old out.new buffer.old
        (pair_text board.now row.now) buffer.new result }
{
    push_first(buffer, out, board, row)?;
    buffer.push(out, b" | ")?;
    push_item_of(buffer, out, board, row.second())
}

/// Puts the item or the items of a row into the buffer.
fn push_items<W: Sink>(
    buffer: &mut ReportBuffer,
    out: &mut W,
    board: &Board,
    row: &Row,
) -> Result<(), Failed>
    requires { HasItems board.now row.now }
    ensures { Buffered W.written W.faults out.old out.new buffer.old
        (items_text row.now.kind board.now row.now) buffer.new result }
{
    match row.kind().family() {
        Family::Meets | Family::Keeps => push_pair(buffer, out, board, row),
        Family::Limits | Family::Forbids => push_first(buffer, out, board, row),
    }
}

/// Puts a source into the buffer.
fn push_source<W: Sink>(
    buffer: &mut ReportBuffer,
    out: &mut W,
    rules: &[Rule],
    source: Source,
) -> Result<(), Failed>
    requires { (n : ℕ) → source ≡ NumberOf n → n < length (map plain_rule rules.now) }
    ensures { Buffered W.written W.faults out.old out.new buffer.old
        (source_text (map plain_rule rules.now) source) buffer.new result }
{
    match source {
        Source::Default => buffer.push(out, b"default"),
        Source::Local => buffer.push(out, b"local"),
        Source::Rule(n) => push_quoted(buffer, out, b"rule", rules[n as usize].name.bytes()),
    }
}

/// Appends to the buffer where the value of a row comes from: ` | ` and the rule, `local` or `default`.
fn push_asked<W: Sink>(
    buffer: &mut ReportBuffer,
    out: &mut W,
    rules: &[Rule],
    row: &Row,
) -> Result<(), Failed>
    requires { HasSource (map plain_rule rules.now) row.now }
    ensures { Buffered W.written W.faults out.old out.new buffer.old
        (asked_text (map plain_rule rules.now) row.now) buffer.new result }
{
    buffer.push(out, b" | ")?;
    push_source(buffer, out, rules, row.source())
}

/// Puts into the buffer the length that is asked for, under a word, and the one that there is.
fn push_measure<W: Sink>(
    buffer: &mut ReportBuffer,
    out: &mut W,
    word: &[u8],
    row: &Row,
) -> Result<(), Failed>
    ensures { Buffered W.written W.faults out.old out.new buffer.old
        (lengths_text word.now row.now) buffer.new result }
{
    push_all(buffer, out, &[b" | ", word])?;
    push_lengths(buffer, out, b" ", row.value(), b" | has ", row.gap())
}

/// Puts into the buffer both lengths and what asks for the one.
fn push_measured<W: Sink>(
    buffer: &mut ReportBuffer,
    out: &mut W,
    word: &[u8],
    rules: &[Rule],
    row: &Row,
) -> Result<(), Failed>
    requires { HasSource (map plain_rule rules.now) row.now }
    ensures { Buffered W.written W.faults out.old out.new buffer.old
        (measured_text word.now (map plain_rule rules.now) row.now) buffer.new result }
{
    push_measure(buffer, out, word, row)?;
    push_asked(buffer, out, rules, row)
}

fn limit_word(over: bool) -> &'static [u8]
    ensures { result.now ≡ limit_word over }
{
    if over { b"most" } else { b"least" }
}

/// Puts into the buffer what is asked for, what there is and what asks for it, as far as the kind of a row has them.
fn push_measures<W: Sink>(
    buffer: &mut ReportBuffer,
    out: &mut W,
    rules: &[Rule],
    row: &Row,
) -> Result<(), Failed>
    requires { HasSource (map plain_rule rules.now) row.now }
    ensures { Buffered W.written W.faults out.old out.new buffer.old
        (measures row.now.kind (map plain_rule rules.now) row.now) buffer.new result }
{
    match row.kind().family() {
        Family::Meets => Ok(()),
        Family::Keeps => push_measured(buffer, out, b"needs", rules, row),
        Family::Limits => push_measured(buffer, out, limit_word(row.over()), rules, row),
        Family::Forbids => push_asked(buffer, out, rules, row),
    }
}

/// Puts the line of a row into the buffer.
fn push_row<W: Sink>(
    buffer: &mut ReportBuffer,
    out: &mut W,
    view: &CheckView<'_>,
    row: &Row,
) -> Result<(), Failed>
    requires items { HasItems view.now.board.now row.now }
    requires source { HasSource (map plain_rule view.now.rules.now) row.now }
    ensures { Buffered W.written W.faults out.old out.new buffer.old
        (row_line view.now.board.now (map plain_rule view.now.rules.now) row.now)
        buffer.new result }
{
    push_head(buffer, out, row)?;
    push_items(buffer, out, view.board, row)?;
    push_measures(buffer, out, view.rules, row)?;
    buffer.push(out, b"\n")
}

/// Puts the lines of rows into the buffer, in their order. Their items are in the board of the view, and the rules
/// that ask for them are among its rules. `Failed` comes only where the sink's count of faults rose, and then a prefix of what the buffer
/// held and of these lines was written. It takes no memory.
pub fn push_rows<W: Sink>(
    buffer: &mut ReportBuffer,
    out: &mut W,
    view: &CheckView<'_>,
    rows: &[Row],
) -> Result<(), Failed>
    requires items { All (HasItems view.now.board.now) rows.now }
    requires sources { All (HasSource (map plain_rule view.now.rules.now)) rows.now }
    ensures { Buffered W.written W.faults out.old out.new buffer.old
        (flat_map (row_line view.now.board.now (map plain_rule view.now.rules.now)) rows.now)
        buffer.new result }
{
    for row in rows {
        push_row(buffer, out, view, row)?;
    }
    Ok(())
}

/// Writes the lines of rows, in their order. Their items are in the board of the view, and the rules that ask for
/// them are among its rules. `Failed` comes only where the sink's count of faults rose, and then a prefix of the
/// lines was written. It takes no memory.
pub fn write_rows<W: Sink>(view: &CheckView<'_>, rows: &[Row], out: &mut W) -> Result<(), Failed>
    requires items { All (HasItems view.now.board.now) rows.now }
    requires sources { All (HasSource (map plain_rule view.now.rules.now)) rows.now }
    ensures { Wrote W.written W.faults out.old out.new
        (flat_map (row_line view.now.board.now (map plain_rule view.now.rules.now)) rows.now)
        result }
{
    let mut buffer = ReportBuffer::new();
    push_rows(&mut buffer, out, view, rows)?;
    buffer.end(out)
}

/// Writes pieces one behind another, as one text. `Failed` comes only where the sink's count of faults rose, and
/// then a prefix of them was written.
pub fn write_pieces<W: Sink>(pieces: &[&[u8]], out: &mut W) -> Result<(), Failed>
    ensures { Wrote W.written W.faults out.old out.new (flat_map (λ p. p.now) pieces.now) result }
{
    let mut buffer = ReportBuffer::new();
    push_all(&mut buffer, out, pieces)?;
    buffer.end(out)
}

/// Puts a line of a text, a number and a text into the buffer. `Failed` comes only where the sink's count of faults
/// rose, and then a prefix of what the buffer held and of the line was written.
pub fn push_line<W: Sink>(
    buffer: &mut ReportBuffer,
    out: &mut W,
    before: &[u8],
    number: u64,
    after: &[u8],
) -> Result<(), Failed>
    ensures { Buffered W.written W.faults out.old out.new buffer.old
        (number_line before.now number after.now) buffer.new result }
{
    let mut digits = Buffer::new();
    push_all(
        buffer,
        out,
        &[before, digits.format(number).as_bytes(), after, b"\n"],
    )
}

/// Writes a line of a text, a number and a text. `Failed` comes only where the sink's count of faults rose, and then
/// a prefix of it was written.
pub fn write_line<W: Sink>(
    before: &[u8],
    number: u64,
    after: &[u8],
    out: &mut W,
) -> Result<(), Failed>
    ensures { Wrote W.written W.faults out.old out.new
        (number_line before.now number after.now) result }
{
    let mut buffer = ReportBuffer::new();
    push_line(&mut buffer, out, before, number, after)?;
    buffer.end(out)
}
