//! The parts of all nets.

ghost use Rattle.std.specs.Prelude.{◌≡◌, ◌++◌, [], ◌∷◌, IfOk, OnOk, Some};
ghost use Rattle.std.specs.List.{AllZip};
ghost use Rattle.net_groups.specs.NetParts.{PlainNetPart, AreParts, real_nets};
ghost use Rattle.net_groups.specs.Works.{AreAllWorks};

use crate::part::NetPart;
use crate::works::{Work, find_parts};
use board_items::Board;
use std::alloc::{AllocError, Global};
use std::thread::Threads;

/// Appends a work for the net.
fn push_work(works: &mut Vec<Work>, net: u32) -> Result<(), AllocError>
    ensures { OnOk result
        ((work : Work) × (work.net ≡ net) × (works.new.items ≡ works.old.items ++ work ∷ [])) }
{
    let place = works.len();
    works.push(Work {
        place,
        net,
        part: None,
    })?;
    Ok(())
}

/// A work for each declared net but net 0, in the order of the board.
fn all_works(alloc: Global, board: &Board) -> Result<Vec<Work>, AllocError>
    ensures { IfOk result (λ works. AreAllWorks (real_nets board.now) works.items) }
{
    let mut works = Vec::new(alloc);
    for (net, _) in board.nets() {
        if net != 0 {
            push_work(&mut works, net)?;
        }
    }
    Ok(works)
}

/// Appends the part that the work found. It fails where the work ran out of memory.
fn push_found(parts: &mut Vec<NetPart>, work: Work) -> Result<(), AllocError>
    ensures { OnOk result
        ((part : PlainNetPart) × (work.part ≡ Some part)
        × (parts.new.items ≡ parts.old.items ++ part ∷ [])) }
{
    match work.part {
        None => Err(AllocError),
        Some(part) => {
            parts.push(part)?;
            Ok(())
        }
    }
}

/// The parts that the works found, in their order.
fn parts_of(alloc: Global, works: Vec<Work>) -> Result<Vec<NetPart>, AllocError>
    ensures { IfOk result (λ parts.
        AllZip (λ work part. work.part ≡ Some part) works.items parts.items) }
{
    let mut parts = Vec::new(alloc);
    for work in works {
        push_found(&mut parts, work)?;
    }
    Ok(parts)
}

/// What is found of each declared net but net 0, in the order of the board. With one worker they are found on the thread of the caller,
/// with more by as many threads as there are processors. Only running out of memory refuses it.
pub fn all_parts(
    rt: &(impl Threads + Sync),
    alloc: Global,
    workers: u32,
    board: &Board,
) -> Result<Vec<NetPart>, AllocError>
    ensures { IfOk result (λ parts. AreParts board.now parts.items) }
{
    let mut works = all_works(alloc, board)?;
    find_parts(rt, alloc, workers, board, &mut works);
    parts_of(alloc, works)
}
