//! Workers that steal from each other, and what each of them took.

ghost use Rattle.std.specs.Prelude.{◌≡◌, ℕ, ◌+◌, ◌-◌, ◌<◌, ◌≤◌, false, length, map, sum_by, All, IfOk};
ghost use Rattle.std.specs.Vec.{vec_len};
ghost use Rattle.claim_board.specs.DealMachine.{sum_below, times, once_below};
ghost use Rattle.tile_pool.specs.NumberedValues.{AreAnswers, AreBatches, AreFull};
ghost use Rattle.steal_pool.specs.Seats.{AreOwners, AreUnused, AreGiven, pushed_by, taken_by};
ghost use Rattle.steal_pool.specs.StolenViews.{stolen_tiles, stolen_hands};

use crate::crew::run_crew;
use crate::deal::{Dealing, deal_out};
use crate::job::Job;
use crate::rest::{Taken, with_rest};
use crate::rule::{Line, Own};
use crate::stolen::Stolen;
use std::alloc::{AllocError, Global};
use std::thread::Threads;
use tile_pool::gather::{place, slots_of, take_all};
use tile_pool::{Gate, TileWork};

/// The workers run, and then the caller takes what is left.
fn run_seats<R: Threads + Sync, T: TileWork, G: Gate>(
    rt: &R,
    job: &Job<'_, T, G>,
    owners: Vec<Own>,
    all: Vec<Vec<Line>>,
) -> Result<Taken<T::Out>, AllocError>
    requires ready { T.ready job.now.work.now }
    requires count { job.now.tiles ≤ T.count job.now.work.now }
    requires workers { (0 < length owners.items) × (length owners.items ≤ 64) }
    requires owners { AreOwners job.now.tiles
        (1024 - length owners.items) job.now.others.now owners.items
        × ((h : ℕ → ℕ) → (pushed_by h owners.items ≡ sum_below h job.now.tiles)
        × (taken_by h owners.items ≡ 0)) }
    requires given { AreGiven job.now.tiles owners.items }
    requires lines { (length all.items ≡ length owners.items)
        × All (λ v. AreUnused job.now.tiles job.now.others.now v.items) all.items }
    ensures once { IfOk result (λ taken. (x : ℕ)
        → sum_by (times x) (map (λ v. v.items) taken.hands.items) ≡ once_below x job.now.tiles) }
    ensures values { IfOk result (λ taken. taken.failed ≡ false
        → AreBatches (T.gives job.now.work.now)
        (map (λ v. v.items) taken.hands.items) taken.batches.items) }
    ensures counts { IfOk result (λ taken. (length taken.hands.items ≡ length owners.items + 1)
        × (length taken.batches.items ≡ length owners.items + 1)) }
{
    let left = run_crew(rt, job, owners, all)?;
    with_rest(job, left)
}

/// Each number below the number of tiles gets its value.
fn place_all<T: TileWork>(
    work: &T,
    slots: &mut [Option<T::Out>],
    stolen: &Stolen,
    mut batches: Vec<Vec<T::Out>>,
)
    requires slots { length slots.old ≡ stolen_tiles stolen.now }
    requires count { length batches.items ≡ length (stolen_hands stolen.now) }
    requires batches { AreBatches (T.gives work.now) (stolen_hands stolen.now) batches.items }
    requires few { vec_len batches ≤ 65 }
    ensures { AreFull (T.gives work.now) slots.new }
{
    while let Some(batch) = batches.pop() {
        place(work, slots, stolen.hand(batches.len() as u32), batch);
    }
}

/// The answers, in the order of the numbers.
fn gathered<T: TileWork>(
    alloc: Global,
    work: &T,
    stolen: &Stolen,
    batches: Vec<Vec<T::Out>>,
) -> Result<Vec<T::Out>, AllocError>
    requires count { length batches.items ≡ length (stolen_hands stolen.now) }
    requires batches { AreBatches (T.gives work.now) (stolen_hands stolen.now) batches.items }
    requires few { vec_len batches ≤ 65 }
    ensures { IfOk result (λ answers. AreAnswers (T.gives work.now)
        (stolen_tiles stolen.now) answers.items) }
{
    let mut slots = slots_of(alloc, stolen.tiles)?;
    let answers = Vec::with_capacity(alloc, stolen.tiles as usize)?;
    place_all(work, slots.as_mut_slice(), stolen, batches);
    Ok(take_all(work, slots, answers))
}

/// Tests each number below `tiles`, which is at most the count of the work and at most 15,625, by 1 to 64 workers that have deques of
/// their own and steal from each other's. Worker w is given the numbers that leave w over when they are divided by the number of
/// workers. The answers stand in the order of the numbers, and beside them it is told which seat took which numbers. A taker calls
/// `before`, tests and calls `after`; after running out of memory it takes on without testing. Only running out of memory refuses the call.
pub fn run_stolen<R: Threads + Sync, T: TileWork, G: Gate>(
    rt: &R,
    alloc: Global,
    workers: u32,
    tiles: u32,
    work: &T,
    gate: &G,
) -> Result<(Vec<T::Out>, Stolen), AllocError>
    requires ready { T.ready work.now }
    requires workers { (0 < workers) × (workers ≤ 64) }
    requires tiles { tiles ≤ 15625 }
    requires count { tiles ≤ T.count work.now }
    ensures answers { IfOk result (λ r. AreAnswers (T.gives work.now) tiles r.0.items) }
    ensures hands { IfOk result (λ r. (stolen_tiles r.1 ≡ tiles)
        × (length (stolen_hands r.1) ≡ workers + 1)) }
    ensures once { IfOk result (λ r. (x : ℕ)
        → sum_by (times x) (stolen_hands r.1) ≡ once_below x tiles) }
{
    let Dealing {
        others,
        owners,
        all,
    } = deal_out(alloc, workers, tiles)?;
    let job = Job {
        alloc,
        work,
        gate,
        others: others.as_slice(),
        tiles,
    };
    let Taken {
        hands,
        batches,
        failed,
    } = run_seats(rt, &job, owners, all)?;
    if failed {
        return Err(AllocError);
    }
    let stolen = Stolen { tiles, hands };
    let answers = gathered(alloc, work, &stolen, batches)?;
    Ok((answers, stolen))
}
