//! `steal BOARD N`: from a board to its rows, or to the line that stands in their place.

ghost use Rattle.std.specs.Prelude.{◌≡◌, []};
ghost use Rattle.plain_types.specs.Limits.{IsWorkerCount};
ghost use Rattle.drc_io.specs.FaultCounts.{Rose};
ghost use Rattle.run_words.specs.Calls.{steal};
ghost use Rattle.run_texts.specs.OpenedValues.{opened_in};
ghost use Rattle.run_output.specs.declared.status.Status.{Status};
ghost use Rattle.run_output.specs.Output.{AreRowsTold, status_of};
ghost use Rattle.run_output.specs.RunEndings.{Ends, EndsFor, IsTextOfOne, number_of};

use drc_io::{Shelf, Sink};
use row_check::Row;
use row_check::laws::{rows_have_items, rows_have_sources};
use run_output::{Status, after, write_stop};
use run_reports::write_rows_alone;
use run_texts::{Texts, board_alone, texts_of};
use run_words::Numbered;
use std::alloc::AllocGlobal;
use std::thread::Threads;
use stolen_rows::rows_by_stealing;
use tile_pool::Gate;

/// The status of these rows: whether there is one.
fn status_of(rows: &[Row]) -> Status
    ensures { number_of result ≡ status_of rows.now }
{
    match rows {
        [] => Status::Clean,
        _ => Status::Rows,
    }
}

/// Finds the rows of the board of the texts and writes them.
fn report<R: Threads + Sync + AllocGlobal, W: Sink, G: Gate>(
    rt: &R,
    gate: &G,
    workers: u32,
    texts: Texts,
    out: &mut W,
) -> Status
    requires workers { IsWorkerCount workers }
    requires unruled { (opened_in texts).rules.rules ≡ [] }
    ensures ends { Ends (AreRowsTold (opened_in texts))
        (IsTextOfOne (AreRowsTold (opened_in texts))) (λ _. ⊥) (W.written out.old)
        (W.written out.new) result }
    ensures fault { result ≡ Status.WriteFault → Rose (W.faults out.old) (W.faults out.new) }
{
    rows_have_items();
    rows_have_sources();
    let alloc = rt.alloc();
    match rows_by_stealing(rt, alloc, workers, &texts.board, &texts.classes, gate) {
        Ok(rows) => {
            let status = status_of(&rows);
            after(
                write_rows_alone(alloc, &texts.board, &texts.classes, &rows, out),
                status,
            )
        }
        Err(_) => Status::OutOfMemory,
    }
}

/// Fetches and reads the board, and writes its rows.
pub(crate) fn steal<R: Threads + Sync + AllocGlobal, F: Shelf, W: Sink, G: Gate>(
    rt: &R,
    gate: &G,
    found: Numbered<'_>,
    shelf: &mut F,
    out: &mut W,
) -> Status
    requires { IsWorkerCount found.number }
    ensures ends { EndsFor (steal found.entry.board.now found.entry.number) (F.files shelf.old)
        (F.faults shelf.old) (F.faults shelf.new) (W.written out.old) (W.written out.new) result }
    ensures fault { result ≡ Status.WriteFault → Rose (W.faults out.old) (W.faults out.new) }
    ensures same { F.files shelf.new ≡ F.files shelf.old }
{
    match texts_of(rt, rt.alloc(), board_alone(found.board), shelf) {
        Ok(texts) => report(rt, gate, found.number, texts, out),
        Err(stop) => write_stop(stop, out),
    }
}
