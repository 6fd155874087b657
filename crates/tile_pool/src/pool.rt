//! Workers, and what they leave.

ghost use Rattle.std.specs.Prelude.{◌≡◌, ◌<◌, ◌≤◌, [], ◌∷◌, ◌++◌, true, false, length, map, All, IfOk, replicate, None};
ghost use Rattle.std.specs.Vec.{vec_len, vec_capacity};
ghost use Rattle.claim_board.specs.DealViews.{IsSeatOf, AreSeatsOf, deal_tiles, deal_seats, seat_number, seat_hand, seat_done, dealt_tiles, dealt_seats};
ghost use Rattle.tile_pool.specs.NumberedValues.{AreAnswers, AreValues, AreBatches};
ghost use Rattle.tile_pool.specs.Crews.{IsFresh, IsDone, HasRun};

use crate::gate::Gate;
use crate::gather::{place_all, slots_of, take_all};
use crate::work::TileWork;
use claim_board::{Deal, DealSeat, Dealt};
use std::alloc::{AllocError, Global};
use std::thread;
use std::thread::Threads;

/// A worker's seat, and what it made of the numbers that it was given.
#[derive(Drop)]
struct Worker<X> {
    seat: DealSeat,
    batch: Vec<X>,
    failed: bool,
}

/// Draws numbers and tests each, until none is left. After running out of memory it draws on and tests no more.
fn draw_all<T: TileWork, G: Gate>(
    alloc: Global,
    deal: &Deal,
    work: &T,
    gate: &G,
    worker: &mut Worker<T::Out>,
)
    requires ready { T.ready work.now }
    requires own { IsSeatOf deal.now worker.old.seat }
    requires open { seat_done worker.old.seat ≡ false }
    requires fresh { (seat_hand worker.old.seat ≡ []) × (worker.old.batch.items ≡ [])
        × (worker.old.failed ≡ false) }
    requires count { deal_tiles deal.now ≤ T.count work.now }
    ensures own { IsSeatOf deal.now worker.new.seat
        × (seat_number worker.new.seat ≡ seat_number worker.old.seat) }
    ensures done { seat_done worker.new.seat ≡ true }
    ensures batch { worker.new.failed ≡ false
        → AreValues (T.gives work.now) (seat_hand worker.new.seat) worker.new.batch.items }
{
    while let Some(number) = deal.claim(&mut worker.seat) {
        if worker.failed {
            continue;
        }
        gate.before(number);
        if !add(alloc, work, number, &mut worker.batch) {
            worker.failed = true;
        }
        gate.after(number);
    }
}

/// Tests a number, and says whether there was memory for its value.
fn add<T: TileWork>(alloc: Global, work: &T, number: u32, batch: &mut Vec<T::Out>) -> bool
    requires ready { T.ready work.now }
    requires number { number < T.count work.now }
    ensures { result ≡ true → (value : _) × (batch.new.items ≡ batch.old.items ++ value ∷ [])
        × T.gives work.now number value }
{
    let Ok(value) = work.test(alloc, number) else {
        return false;
    };
    batch.push(value).is_ok()
}

/// A worker for each seat, with room for so many values.
fn crew_of<X: Drop>(
    alloc: Global,
    seats: Vec<DealSeat>,
    share: usize,
) -> Result<Vec<Worker<X>>, AllocError>
    ensures seats { IfOk result (λ crew. map (λ w. w.seat) crew.items ≡ seats.items) }
    ensures fresh { IfOk result (λ crew. All (λ w. (w.batch.items ≡ [])
        × (w.failed ≡ false)) crew.items) }
{
    let mut crew = Vec::with_capacity(alloc, seats.len())?;
    for seat in seats {
        let batch = Vec::with_capacity(alloc, share)?;
        crew.push_reserved(Worker {
            seat,
            batch,
            failed: false,
        });
    }
    Ok(crew)
}

/// What a crew leaves.
#[derive(Drop)]
struct Left<X> {
    seats: Vec<DealSeat>,
    batches: Vec<Vec<X>>,
    failed: bool,
}

fn disband<X: Drop>(
    crew: Vec<Worker<X>>,
    mut seats: Vec<DealSeat>,
    mut batches: Vec<Vec<X>>,
) -> Left<X>
    requires seats { (seats.items ≡ []) × (vec_len crew ≤ vec_capacity seats) }
    requires batches { (batches.items ≡ []) × (vec_len crew ≤ vec_capacity batches) }
    ensures seats { result.seats.items ≡ map (λ w. w.seat) crew.items }
    ensures batches { result.batches.items ≡ map (λ w. w.batch) crew.items }
    ensures failed { result.failed ≡ false → All (λ w. w.failed ≡ false) crew.items }
{
    let mut any_failed = false;
    for worker in crew {
        let Worker {
            seat,
            batch,
            failed,
        } = worker;
        seats.push_reserved(seat);
        batches.push_reserved(batch);
        any_failed = any_failed || failed;
    }
    Left {
        seats,
        batches,
        failed: any_failed,
    }
}

/// The workers run side by side, each over its own seat and batch.
fn run_crew<R: Threads + Sync, T: TileWork, G: Gate>(
    rt: &R,
    alloc: Global,
    deal: &Deal,
    work: &T,
    gate: &G,
    crew: &mut [Worker<T::Out>],
    threads: usize,
)
    requires ready { T.ready work.now }
    requires threads { 0 < threads }
    requires count { deal_tiles deal.now ≤ T.count work.now }
    requires fresh { All (IsFresh deal.now) crew.old }
    ensures { HasRun deal.now (T.gives work.now) crew.old crew.new }
{
    thread::for_each_mut(
        rt,
        crew,
        threads,
        &|_: usize, worker: &mut Worker<T::Out>|
            requires { T.ready work.now × (deal_tiles deal.now ≤ T.count work.now)
                × IsFresh deal.now worker.now }
            ensures { IsDone deal.entry.now
                (T.gives work.entry.now) worker.entry.now worker.exit.now }
        { draw_all(alloc, deal, work, gate, worker) },
    );
}

/// Has each worker of a crew draw tiles and test them, on so many threads. The crew is handed over and comes back.
fn run_all<R: Threads + Sync, T: TileWork, G: Gate>(
    rt: &R,
    alloc: Global,
    deal: &Deal,
    work: &T,
    gate: &G,
    mut crew: Vec<Worker<T::Out>>,
    threads: usize,
) -> Vec<Worker<T::Out>>
    requires ready { T.ready work.now }
    requires threads { 0 < threads }
    requires count { deal_tiles deal.now ≤ T.count work.now }
    requires fresh { All (IsFresh deal.now) crew.items }
    ensures long { length result.items ≡ length crew.items }
    ensures run { HasRun deal.now (T.gives work.now) crew.items result.items }
{
    run_crew(rt, alloc, deal, work, gate, crew.as_mut_slice(), threads);
    crew
}

/// Ends the deal of seats that are done, and puts the batches that they made in the order of the numbers.
fn gathered<T: TileWork>(
    work: &T,
    deal: Deal,
    seats: Vec<DealSeat>,
    batches: Vec<Vec<T::Out>>,
    mut slots: Vec<Option<T::Out>>,
    answers: Vec<T::Out>,
) -> (Vec<T::Out>, Dealt)
    requires own { AreSeatsOf deal seats.items }
    requires done { All (λ s. seat_done s ≡ true) seats.items }
    requires batches { AreBatches (T.gives work.now) (map seat_hand seats.items) batches.items }
    requires count { (length batches.items ≡ length seats.items) × (vec_len batches ≤ 64) }
    requires slots { slots.items ≡ replicate (deal_tiles deal) None }
    requires answers { (answers.items ≡ []) × (deal_tiles deal ≤ vec_capacity answers) }
    ensures answers { AreAnswers (T.gives work.now) (deal_tiles deal) result.0.items }
    ensures dealt { (dealt_tiles result.1 ≡ deal_tiles deal)
        × (dealt_seats result.1 ≡ deal_seats deal) }
{
    let dealt = deal.close(seats);
    place_all(work, slots.as_mut_slice(), &dealt, batches);
    (take_all(work, slots, answers), dealt)
}

/// Ends the deal of one seat, which was given all numbers in their order, so that its batch is the answers.
fn gathered_alone<T: TileWork>(
    work: &T,
    deal: Deal,
    seats: Vec<DealSeat>,
    mut batches: Vec<Vec<T::Out>>,
) -> (Vec<T::Out>, Dealt)
    requires own { AreSeatsOf deal seats.items }
    requires done { All (λ s. seat_done s ≡ true) seats.items }
    requires batches { AreBatches (T.gives work.now) (map seat_hand seats.items) batches.items }
    requires alone { (length batches.items ≡ 1) × (length seats.items ≡ 1) }
    ensures answers { AreAnswers (T.gives work.now) (deal_tiles deal) result.0.items }
    ensures dealt { (dealt_tiles result.1 ≡ deal_tiles deal)
        × (dealt_seats result.1 ≡ deal_seats deal) }
{
    let dealt = deal.close(seats);
    match batches.pop() {
        Some(batch) => (batch, dealt),
        None => unreachable!(),
    }
}

/// The workers of a deal of the numbers below `tiles` run side by side, and leave what they made of their numbers.
fn played<R: Threads + Sync, T: TileWork, G: Gate>(
    rt: &R,
    alloc: Global,
    workers: u32,
    tiles: u32,
    work: &T,
    gate: &G,
) -> Result<(Deal, Left<T::Out>), AllocError>
    requires ready { T.ready work.now }
    requires workers { (0 < workers) × (workers ≤ 64) }
    requires tiles { tiles ≤ 15625 }
    requires count { tiles ≤ T.count work.now }
    ensures deal { IfOk result (λ r. (deal_tiles r.0 ≡ tiles) × (deal_seats r.0 ≡ workers)) }
    ensures own { IfOk result (λ r. AreSeatsOf r.0 r.1.seats.items) }
    ensures done { IfOk result (λ r. All (λ s. seat_done s ≡ true) r.1.seats.items) }
    ensures batches { IfOk result (λ r. AreBatches (T.gives work.now)
        (map seat_hand r.1.seats.items) r.1.batches.items) }
    ensures counts { IfOk result (λ r. (length r.1.seats.items ≡ workers)
        × (length r.1.batches.items ≡ workers)) }
{
    let seats_left = Vec::with_capacity(alloc, workers as usize)?;
    let batches = Vec::with_capacity(alloc, workers as usize)?;
    let (deal, seats) = Deal::new(alloc, tiles, workers)?;
    let Ok(crew) = crew_of(alloc, seats, (tiles / workers) as usize) else {
        drop(deal);
        return Err(AllocError);
    };
    let threads = workers.min(tiles.max(1)) as usize;
    let crew = run_all(rt, alloc, &deal, work, gate, crew, threads);
    let left = disband(crew, seats_left, batches);
    if left.failed {
        drop(left);
        drop(deal);
        return Err(AllocError);
    }
    Ok((deal, left))
}

/// Tests each number below `tiles`, which is at most the count of the work and at most 15,625, by 1 to 64 workers that claim numbers
/// side by side. The answers stand in the order of the numbers, and beside them it is told which worker was given which numbers. A
/// worker calls `before`, tests and calls `after`; after running out of memory it draws on without testing. Only running out of memory
/// refuses the call, and nothing waits. At most as many threads start as there are numbers, so one number starts none.
pub fn run_tiles<R: Threads + Sync, T: TileWork, G: Gate>(
    rt: &R,
    alloc: Global,
    workers: u32,
    tiles: u32,
    work: &T,
    gate: &G,
) -> Result<(Vec<T::Out>, Dealt), AllocError>
    requires ready { T.ready work.now }
    requires workers { (0 < workers) × (workers ≤ 64) }
    requires tiles { tiles ≤ 15625 }
    requires count { tiles ≤ T.count work.now }
    ensures answers { IfOk result (λ r. AreAnswers (T.gives work.now) tiles r.0.items) }
    ensures dealt { IfOk result (λ r. (dealt_tiles r.1 ≡ tiles) × (dealt_seats r.1 ≡ workers)) }
{
    if workers == 1 {
        let (deal, left) = played(rt, alloc, workers, tiles, work, gate)?;
        return Ok(gathered_alone(work, deal, left.seats, left.batches));
    }
    let slots = slots_of(alloc, tiles)?;
    let answers = Vec::with_capacity(alloc, tiles as usize)?;
    let (deal, left) = played(rt, alloc, workers, tiles, work, gate)?;
    Ok(gathered(work, deal, left.seats, left.batches, slots, answers))
}
