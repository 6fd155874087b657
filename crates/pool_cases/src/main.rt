//! Runs numbered works by workers and prints what comes of it: whether two workers run side by side, the answers of 1, 2 and 64 workers,
//! and what is tested after a test that runs out of memory. The same by workers that steal, and whether one does.
#![tactic(auto)]

ghost use Rattle.std.specs.Prelude.{◌<◌, ◌≤◌};

mod gates;
mod stealing;
mod works;

use crate::gates::Calls;
use crate::works::{Failing, Squares, numbers, weighed};
use case_gates::Turns;
use std::io;
use std::io::Print;
use std::thread::Threads;
use tile_pool::{NoGate, run_tiles};

/// Two workers, of which the one that has number 0 needs the other to go on.
fn side_by_side<R: AllocGlobal + Print + Threads + Sync>(rt: &R) -> io::Result<()> {
    let gate = Turns::new(0, 1);
    let work = Squares {
        numbers: &[2, 3, 5, 7],
    };
    let (answers, dealt) = run_tiles(rt, rt.alloc(), 2, 4, &work, &gate)?;
    let seats = dealt.seats();
    let gave_up = gate.gave_up();
    let rounds = gate.rounds();
    println!(rt; "side by side: {seats} seats, gave up: {gave_up}, asked: {rounds}")?;
    for answer in &answers {
        println!(rt; "{answer}")?;
    }
    Ok(())
}

/// The answers of 100 numbers: how many, the sum with places as weights, and how many numbers all hands hold.
fn by_workers<R: AllocGlobal + Print + Threads + Sync>(rt: &R, workers: u32) -> io::Result<()>
    requires { (0 < workers) × (workers ≤ 64) }
{
    let numbers = numbers(rt.alloc(), 100)?;
    let work = Squares { numbers: &numbers };
    let count = numbers.len().min(100) as u32;
    let (answers, dealt) = run_tiles(rt, rt.alloc(), workers, count, &work, &NoGate)?;
    let sum = weighed(answers.as_slice());
    let mut held = 0usize;
    for seat in 0..dealt.seats() {
        held = held.wrapping_add(dealt.hand(seat).len());
    }
    let count = answers.len();
    let tiles = dealt.tiles();
    println!(rt; "{workers} workers: {count} answers, sum {sum}, {held} of {tiles} numbers held")
}

/// One worker and a test that runs out of memory: the numbers behind it are drawn, and not tested.
fn out_of_memory<R: AllocGlobal + Print + Threads + Sync>(rt: &R) -> io::Result<()> {
    let gate = Calls::new();
    let work = Failing { count: 5, at: 2 };
    let refused = run_tiles(rt, rt.alloc(), 1, 5, &work, &gate).is_err();
    let begun = gate.begun();
    let ended = gate.ended();
    println!(rt; "memory runs out: {refused}, {begun} tests begun, {ended} ended")
}

fn main(rt: HostRuntime) -> io::Result<()> {
    side_by_side(&rt)?;
    by_workers(&rt, 1)?;
    by_workers(&rt, 2)?;
    by_workers(&rt, 64)?;
    out_of_memory(&rt)?;
    stealing::side_by_side(&rt)?;
    stealing::by_workers(&rt, 1)?;
    stealing::by_workers(&rt, 2)?;
    stealing::by_workers(&rt, 64)?;
    stealing::out_of_memory(&rt)
}
