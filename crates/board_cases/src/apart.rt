//! Groups of the vias of one net, which stand in columns and rows.

ghost use Rattle.std.specs.Prelude.{◌≤◌, length, IfOk};

use board_index::index_of;
use board_items::Board;
use case_lines::{Fault, add, numbers_of, refused, small};
use net_groups::{Group, groups};
use pcb_read::read_board;
use plain_types::HasReason;
use std::alloc::Global;

/// A board up to its items.
const HEAD: &[u8] =
    b"(kicad_pcb (version 20221018) (layers (0 F.Cu signal) (31 B.Cu signal)) (net 1 N1)";

/// The most bytes of a text.
const LIMIT: usize = 33_554_432;

/// How many columns there are, how many rows, and how many millimetres from each to the next.
#[derive(Clone, Copy)]
struct Grid {
    columns: u32,
    rows: u32,
    step: i64,
}

/// The place of the column or row of that number, in millimetres.
fn place(number: u32, step: i64, first: i64) -> i64 {
    i64::from(number).wrapping_mul(step).wrapping_add(first)
}

/// The text of a board of vias of net 1, of which the first stands at -499 mm and -399 mm.
fn text_of_grid(alloc: Global, grid: Grid) -> Result<Vec<u8>, Fault>
    ensures { IfOk result (λ text. length text.items ≤ 33_554_432) }
{
    let Grid {
        columns,
        rows,
        step,
    } = grid;
    let columns = columns.max(1);
    let mut text = HEAD.to_vec(alloc)?;
    for number in 0..columns.wrapping_mul(rows) {
        let x = place(number % columns, step, -499);
        let y = place(number / columns, step, -399);
        let via = format!(in alloc;
            " (via (at {x} {y}) (size 0.8) (drill 0.4) (layers F.Cu B.Cu) (net 1))"
        )?;
        add(&mut text, via.as_bytes())?;
    }
    add(&mut text, b")")?;
    if text.len() > LIMIT {
        return Err(Fault::NotTaken);
    }
    Ok(text)
}

/// The least member of a group that is there.
fn least(group: Option<&Group>) -> Option<u32> {
    group?.members().first().copied()
}

/// How many groups there are, how many of these have one member, and the least members of the first and of the last.
fn shown(alloc: Global, groups: &[Group]) -> Result<Vec<u8>, Fault> {
    let count = groups.len();
    let alone = groups
        .iter()
        .filter(|group| group.members().len() == 1)
        .count();
    let first = least(groups.first());
    let last = least(groups.last());
    Ok(format!(in alloc; "{count} groups, {alone} of one, {first:?} to {last:?}")?.into_bytes())
}

/// The groups of net 1, found with an index whose boxes are as large as the items.
fn grouped(alloc: Global, board: &Board) -> Result<Vec<u8>, Fault> {
    let index = index_of(alloc, board, 0)?;
    shown(alloc, &groups(alloc, board, 1, &index)?)
}

/// The groups of vias, where the number of columns, that of rows and the step are written.
pub fn answer(alloc: Global, written: &str) -> Result<Vec<u8>, Fault> {
    let numbers = numbers_of(alloc, written)?;
    let [columns, rows, step] = numbers.as_slice() else {
        return Err(Fault::BadNumber);
    };
    let grid = Grid {
        columns: small(*columns)?,
        rows: small(*rows)?,
        step: *step,
    };
    match read_board(alloc, &text_of_grid(alloc, grid)?) {
        Ok(board) => grouped(alloc, &board),
        Err(error) => refused(alloc, &error, error.reason().place()),
    }
}
