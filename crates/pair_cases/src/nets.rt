//! The lines of the nets of a board that are not whole, each net by itself.

ghost use Rattle.board_index.specs.IndexedItems.{HoldsItems};

use board_index::index_of;
use board_items::Board;
use box_index::TileIndex;
use case_reader::Reason;
use drc_io::{Failed, MemSink};
use drc_rows::{write_line, write_net};
use net_groups::{anchors, groups};
use ratsnest::nest;
use std::alloc::Global;

/// Writes the lines of a net where it is not whole, and says whether it is open.
fn write_open(
    alloc: Global,
    board: &Board,
    net: u32,
    index: &TileIndex,
    out: &mut MemSink,
) -> Result<bool, Reason>
    requires { HoldsItems board.now index.now }
{
    if board.net_name(net).is_none() {
        return Ok(false);
    }
    let found = groups(alloc, board, net, index)?;
    if found.len() < 2 {
        return Ok(false);
    }
    let ends = anchors(alloc, board, net, &found)?;
    let nest = nest(alloc, &ends)?;
    match write_net(board, net, &found, &ends, &nest, out) {
        Ok(()) => Ok(true),
        Err(Failed) => Err(Reason::TooLong),
    }
}

/// Writes the lines of all open nets, and gives how many there are.
fn write_all(
    alloc: Global,
    board: &Board,
    index: &TileIndex,
    out: &mut MemSink,
) -> Result<u64, Reason>
    requires { HoldsItems board.now index.now }
{
    let mut count = 0u64;
    for (net, _) in board.nets() {
        if write_open(alloc, board, net, index, out)? {
            count = count.wrapping_add(1);
        }
    }
    Ok(count)
}

/// What a report says of the nets of a board, in at most so many bytes.
pub(crate) fn told(alloc: Global, board: &Board, capacity: usize) -> Option<Vec<u8>> {
    let index = match index_of(alloc, board, 0) {
        Ok(index) => index,
        Err(_) => return None,
    };
    let mut out = MemSink::new(alloc, usize::MAX, capacity, Vec::new(alloc)).ok()?;
    let count = write_all(alloc, board, &index, &mut out).ok()?;
    write_line(b"open nets ", count, b"", &mut out).ok()?;
    out.bytes().to_vec(alloc).ok()
}
