//! Rows behind a mark.

ghost use Rattle.std.specs.Prelude.{◌≡◌, ◌++◌, false, map, All};
ghost use Rattle.std.specs.List.{flat_map};
ghost use Rattle.drc_io.specs.Sinks.{Wrote};
ghost use Rattle.cond_lang.specs.Rules.{plain_rule};
ghost use Rattle.pair_check.specs.Rows.{IsRow, HasItems, HasSource};
ghost use Rattle.drc_rows.specs.Buffer.{Buffered};
ghost use Rattle.drc_rows.specs.Report.{row_line};
ghost use Rattle.drc_state.specs.States.{checked_in};
ghost use Rattle.run_output.specs.CommandOutputs.{marked_lines};

use drc_io::{Failed, Sink};
use drc_rows::{ReportBuffer, push_rows};
use drc_session::Session;
use row_check::laws::{rows_have_items, rows_have_sources};
use row_check::{CheckView, Row};
use std::slice::from_ref;

/// Puts the line of a row behind a mark into the buffer.
fn push_marked_row<W: Sink>(
    buffer: &mut ReportBuffer,
    out: &mut W,
    mark: &[u8],
    view: &CheckView<'_>,
    row: &Row,
) -> Result<(), Failed>
    requires items { HasItems view.now.board.now row.now }
    requires source { HasSource (map plain_rule view.now.rules.now) row.now }
    ensures { Buffered W.written W.faults out.old out.new buffer.old
        (mark.now ++ row_line view.now.board.now (map plain_rule view.now.rules.now) row.now)
        buffer.new result }
{
    buffer.push(out, mark)?;
    push_rows(buffer, out, view, from_ref(row))
}

/// Puts the lines of rows, each behind a mark, into the buffer.
fn push_marked<W: Sink>(
    buffer: &mut ReportBuffer,
    out: &mut W,
    mark: &[u8],
    view: &CheckView<'_>,
    rows: &[Row],
) -> Result<(), Failed>
    requires items { All (HasItems view.now.board.now) rows.now }
    requires sources { All (HasSource (map plain_rule view.now.rules.now)) rows.now }
    ensures { Buffered W.written W.faults out.old out.new buffer.old
        (flat_map (λ row. mark.now
        ++ row_line view.now.board.now (map plain_rule view.now.rules.now) row) rows.now)
        buffer.new result }
{
    for row in rows {
        push_marked_row(buffer, out, mark, view, row)?;
    }
    Ok(())
}

/// Puts the lines of some rows of a session that is not stopped, each behind a mark, into the buffer.
pub(crate) fn push_some<W: Sink>(
    buffer: &mut ReportBuffer,
    out: &mut W,
    mark: &[u8],
    session: &Session,
    rows: &[Row],
) -> Result<(), Failed>
    requires running { session.now.stopped ≡ false }
    requires rows { All (IsRow (checked_in session.now.state)) rows.now }
    ensures { Buffered W.written W.faults out.old out.new buffer.old
        (marked_lines mark.now session.now.state rows.now) buffer.new result }
{
    rows_have_items();
    rows_have_sources();
    let _ = session.rows();
    push_marked(buffer, out, mark, &session.view(), rows)
}

/// Writes the lines of some rows of a session that is not stopped, each behind a mark.
pub(crate) fn write_some<W: Sink>(
    mark: &[u8],
    session: &Session,
    rows: &[Row],
    out: &mut W,
) -> Result<(), Failed>
    requires running { session.now.stopped ≡ false }
    requires rows { All (IsRow (checked_in session.now.state)) rows.now }
    ensures { Wrote W.written W.faults out.old out.new
        (marked_lines mark.now session.now.state rows.now) result }
{
    let mut buffer = ReportBuffer::new();
    push_some(&mut buffer, out, mark, session, rows)?;
    buffer.end(out)
}
