//! Nets whose parts are found one after the other or side by side.

ghost use Rattle.std.specs.Prelude.{◌≡◌, IfSome};
ghost use Rattle.net_groups.specs.NetParts.{IsNetPart};
ghost use Rattle.net_groups.specs.Works.{AreFound};

use crate::part::{NetPart, part_of};
use board_items::Board;
use rayon::prelude::*;
use std::alloc::Global;
use std::thread::Threads;

/// A net, its place among all, and its part once that is found.
#[derive(Drop)]
pub struct Work {
    pub place: usize,
    pub net: u32,
    pub part: Option<NetPart>,
}

/// Finds the part of a net. Where memory runs out there is none.
fn find_part(alloc: Global, board: &Board, work: &mut Work)
    ensures place { work.new.place ≡ work.old.place }
    ensures net { work.new.net ≡ work.old.net }
    ensures part { IfSome work.new.part (IsNetPart board.now work.old.net) }
{
    work.part = part_of(alloc, board, work.net).ok();
}

/// Finds the parts of these nets, one after the other.
fn find_each(alloc: Global, board: &Board, works: &mut [Work])
    ensures { AreFound board.now works.old works.new }
{
    for place in 0..works.len() {
        find_part(alloc, board, &mut works[place]);
    }
}

/// Finds the parts of these nets: with one worker, or for a single net, on the thread of the caller, and else by as many threads as
/// there are processors.
pub fn find_parts(
    rt: &(impl Threads + Sync),
    alloc: Global,
    workers: u32,
    board: &Board,
    works: &mut [Work],
)
    ensures { AreFound board.now works.old works.new }
{
    if workers == 1 || works.len() <= 1 {
        find_each(alloc, board, works);
        return;
    }
    par_for_each_mut(
        rt,
        works,
        |_: usize, work: &mut Work|
            ensures { (work.new.place ≡ work.old.place) × (work.new.net ≡ work.old.net)
                × IfSome work.new.part (IsNetPart board.entry.now work.old.net) }
        {
            find_part(alloc, board, work);
        },
    );
}
