//! The same by workers that have deques of their own and steal from each other's.

ghost use Rattle.std.specs.Prelude.{◌<◌, ◌≤◌};

use crate::gates::{Calls, Theft};
use crate::works::{Failing, Squares, numbers, weighed};
use std::io;
use std::io::Print;
use std::thread::Threads;
use steal_pool::run_stolen;
use tile_pool::NoGate;

/// Two workers. The one that has number 0 needs the other to take number 2, which was given to the worker that was given 0.
pub fn side_by_side<R: AllocGlobal + Print + Threads + Sync>(rt: &R) -> io::Result<()> {
    let gate = Theft::new();
    let work = Squares {
        numbers: &[2, 3, 5, 7],
    };
    let (answers, _stolen) = run_stolen(rt, rt.alloc(), 2, 4, &work, &gate)?;
    let gave_up = gate.turns().gave_up();
    let rounds = gate.turns().rounds();
    let was_early = gate.was_early();
    println!(rt; "stealing: gave up: {gave_up}, asked: {rounds}, 2 before 3: {was_early}")?;
    for answer in &answers {
        println!(rt; "{answer}")?;
    }
    Ok(())
}

/// The answers of 100 numbers: how many, the sum with places as weights, and how many numbers all hands hold, the caller's too.
pub fn by_workers<R: AllocGlobal + Print + Threads + Sync>(rt: &R, workers: u32) -> io::Result<()>
    requires { (0 < workers) × (workers ≤ 64) }
{
    let numbers = numbers(rt.alloc(), 100)?;
    let work = Squares { numbers: &numbers };
    let count = numbers.len().min(100) as u32;
    let (answers, stolen) = run_stolen(rt, rt.alloc(), workers, count, &work, &NoGate)?;
    let sum = weighed(answers.as_slice());
    let mut held = 0usize;
    for seat in 0..workers + 1 {
        held = held.wrapping_add(stolen.hand(seat).len());
    }
    let count = answers.len();
    println!(rt; "stealing by {workers}: {count} answers, sum {sum}, {held} numbers held")
}

/// One worker and a test that runs out of memory: the numbers behind it are taken, and not tested.
pub fn out_of_memory<R: AllocGlobal + Print + Threads + Sync>(rt: &R) -> io::Result<()> {
    let gate = Calls::new();
    let work = Failing { count: 5, at: 2 };
    let refused = run_stolen(rt, rt.alloc(), 1, 5, &work, &gate).is_err();
    let begun = gate.begun();
    let ended = gate.ended();
    println!(rt; "stealing, memory runs out: {refused}, {begun} tests begun, {ended} ended")
}
