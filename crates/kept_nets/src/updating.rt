//! The parts of nets after an edit.

ghost use Rattle.std.specs.Prelude.{◌≡◌, ◌<◌, ℕ, List, All, IfOk, OnOk, Some, length, map, slice_set};
ghost use Rattle.std.specs.List.{AllZip};
ghost use Rattle.std.specs.List.Sorted.{IsStrictlyIncreasing};
ghost use Rattle.board_items.specs.Boards.{PlainBoard};
ghost use Rattle.board_laws.specs.Edits.{is_one_of};
ghost use Rattle.net_groups.specs.NetParts.{PlainNetPart, IsNetPart, AreParts};
ghost use Rattle.board_laws.specs.Edits.{IsEdit};
ghost use Rattle.kept_nets.specs.TouchedNets.{AreTouched};
ghost use Rattle.kept_nets.specs.NetPlans.{AreWorksUpTo, IsPlan};

use board_items::Board;
use net_groups::NetPart;
use net_groups::works::{Work, find_parts};
use std::alloc::{AllocError, Global};
use std::thread::Threads;

/// Whether the net of the part is one of these.
fn is_touched(part: &NetPart, nets: &[u32]) -> bool
    requires { IsStrictlyIncreasing nets.now }
    ensures { result ≡ is_one_of nets.now part.now.net }
{
    nets.binary_search(&part.net).is_ok()
}

/// A work for each part whose net is touched.
fn works_of(alloc: Global, parts: &[NetPart], nets: &[u32]) -> Result<Vec<Work>, AllocError>
    requires { IsStrictlyIncreasing nets.now }
    ensures { IfOk result (λ works.
        AreWorksUpTo (map (λ part. part.net) parts.now) nets.now (length parts.now) works.items) }
{
    let mut works = Vec::new(alloc);
    for place in 0..parts.len() {
        let part = &parts[place];
        if is_touched(part, nets) {
            works.push(Work {
                place,
                net: part.net,
                part: None,
            })?;
        }
    }
    Ok(works)
}

/// Puts the part that a work found into its place.
fn put(parts: &mut [NetPart], work: Work) -> Result<(), AllocError>
    requires { work.place < length parts.old }
    ensures { OnOk result
        ((part : PlainNetPart) × (work.part ≡ Some part)
        × (parts.new ≡ slice_set parts.old work.place part)) }
{
    let place = work.place;
    match work.part {
        Some(part) => {
            parts[place] = part;
            Ok(())
        }
        None => Err(AllocError),
    }
}

/// Puts the parts that were found into their places. It fails where a work ran out of memory.
fn put_parts(parts: &mut [NetPart], mut works: Vec<Work>) -> Result<(), AllocError>
    requires { All (λ work. work.place < length parts.old) works.items }
    ensures { OnOk result
        ((board : PlainBoard) (nets : List ℕ) → IsPlan board nets parts.old works.items
        → AllZip (IsNetPart board) nets parts.new) }
{
    while let Some(work) = works.pop() {
        put(parts, work)?;
    }
    Ok(())
}

/// Makes the parts of the nets of a board before an edit those of the board as it is now.
///
/// `nets` are the numbers, rising, of the nets of all items of the edit, as they were and as they are; they may have others, and
/// net 0. Only parts of these nets are found again: with one worker on the thread of the caller, with more by as many threads as there
/// are processors. Only running out of memory fails it, and the parts are then of no use.
pub fn update_parts(
    rt: &(impl Threads + Sync),
    alloc: Global,
    workers: u32,
    board: &Board,
    parts: &mut [NetPart],
    nets: &[u32],
) -> Result<(), AllocError>
    requires { IsStrictlyIncreasing nets.now }
    ensures { (old : PlainBoard) (ids : List ℕ) → IsEdit old board.now ids
        → AreTouched old board.now ids nets.now → AreParts old parts.old
        → OnOk result (AreParts board.now parts.new) }
{
    let mut works = works_of(alloc, parts, nets)?;
    find_parts(rt, alloc, workers, board, &mut works);
    put_parts(parts, works)
}
