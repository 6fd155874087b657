//! The program's report of a board beside what is found of it over all items and all pairs.

use case_gates::Turns;
use case_reader::Reason;
use drc_io::{MemShelf, MemSink, Name};
use drc_run::run;
use pair_cases::pieces_of;
use session_cases::Texts;
use std::alloc::AllocGlobal;
use std::thread::Threads;

/// The most bytes of a report.
const ROOM: usize = 1 << 20;

/// The whole report of the program.
fn report_of<R: Threads + Sync + AllocGlobal>(
    rt: &R,
    board: Vec<u8>,
    rules: Vec<u8>,
    gate: &Turns,
) -> Option<Vec<u8>> {
    let alloc = rt.alloc();
    let mut files = Vec::new(alloc);
    files
        .push((Name::of("b".to_string(alloc).ok()?.into_bytes()), board))
        .ok()?;
    files
        .push((Name::of("r".to_string(alloc).ok()?.into_bytes()), rules))
        .ok()?;
    let mut shelf = MemShelf::new(files, Vec::new(alloc));
    let mut out = MemSink::new(alloc, usize::MAX, ROOM, Vec::new(alloc)).ok()?;
    run(rt, &["b", "--rules", "r"], &mut shelf, &mut out, gate);
    out.bytes().to_vec(alloc).ok()
}

/// Whether the text has the piece somewhere.
fn contains(text: &[u8], piece: &[u8]) -> bool {
    for at in 0..text.len() {
        if text[at..].starts_with(piece) {
            return true;
        }
    }
    false
}

/// How many rows the board has, where the program's report begins with those over all pairs and says the same of notes and nets.
fn rows_alike<R: Threads + Sync + AllocGlobal>(
    rt: &R,
    texts: Texts<'_>,
    gate: &Turns,
) -> Option<u64> {
    let pieces = pieces_of(rt.alloc(), texts.board, texts.other)?;
    let board = texts.board.to_vec(rt.alloc()).ok()?;
    let rules = texts.other.to_vec(rt.alloc()).ok()?;
    let whole = report_of(rt, board, rules, gate)?;
    let begins = whole.as_slice().starts_with(&pieces.rows);
    if begins && contains(&whole, &pieces.notes) && contains(&whole, &pieces.nets) {
        let lines = pieces.rows.iter().filter(|byte| **byte == b'\n').count();
        Some((lines as u64).saturating_sub(2))
    } else {
        None
    }
}

/// How many rows there are, or that the two are not alike.
pub fn told<R: Threads + Sync + AllocGlobal>(
    rt: &R,
    texts: Texts<'_>,
    gate: &Turns,
) -> Result<Vec<u8>, Reason> {
    let text = match rows_alike(rt, texts, gate) {
        Some(rows) => format!(in rt.alloc(); "{rows} rows\n")?,
        None => "not alike\n".to_string(rt.alloc())?,
    };
    Ok(text.into_bytes())
}
