//! A worker takes from its own deque until it is empty, and then steals.

ghost use Rattle.std.specs.Prelude.{◌≡◌, ℕ, ◌+◌, ◌<◌, ◌≤◌, length, sum_by, All, IfSome, IfNone};
ghost use Rattle.crossbeam_deque.specs.Handles.{worker_view, worker_flavor, worker_deque};
ghost use Rattle.steal_pool.specs.Seats.{AreLines, taken_with, taken_of};
ghost use Rattle.steal_pool.specs.SeatValues.{HasTakenValues};
ghost use Rattle.steal_pool.specs.PoolMembers.{IsReady, HasRun, HaveRun};

use crate::job::Job;
use crate::rule::{Line, Other, Own, Takes};
use crate::share::{Share, take};
use crossbeam_deque::Steal;
use std::thread;
use std::thread::Threads;
use tile_pool::{Gate, TileWork};

/// Takes from the own deque until it is empty.
fn take_own<T: TileWork, G: Gate>(job: &Job<'_, T, G>, own: &mut Own, share: &mut Share<T::Out>)
    requires ready { T.ready job.now.work.now }
    requires count { job.now.tiles ≤ T.count job.now.work.now }
    requires own { (worker_flavor own.old ≡ 0) × (0 < (worker_view own.old).parts)
        × ((worker_view own.old).limit ≤ job.now.tiles) }
    requires values { HasTakenValues (T.gives job.now.work.now) share.old }
    ensures own { (worker_deque own.new ≡ worker_deque own.old) × (worker_flavor own.new ≡ 0)
        × ((worker_view own.new).parts ≡ (worker_view own.old).parts)
        × ((worker_view own.new).limit ≡ (worker_view own.old).limit)
        × ((worker_view own.new).put ≡ (worker_view own.old).put) }
    ensures kept { (h : ℕ → ℕ) → sum_by h share.new.hand.items + taken_of h own.old
        ≡ sum_by h share.old.hand.items + taken_of h own.new }
    ensures values { HasTakenValues (T.gives job.now.work.now) share.new }
{
    for _ in 0..job.tiles {
        if !share.has_capacity() {
            break;
        }
        match own.pop_as::<Takes>() {
            Some(number) => take(job, number, share),
            None => break,
        }
    }
}

/// Steals one number from one deque, if it can. A try that was lost to another is not repeated.
fn steal_one(others: &[Other], lines: &mut [Line], at: usize, tiles: u32) -> Option<u32>
    requires at { at < length others.now }
    requires lines { AreLines tiles others.now lines.old }
    ensures lines { AreLines tiles others.now lines.new }
    ensures took { IfSome result (λ number. (number < tiles)
        × ((h : ℕ → ℕ) → taken_with h lines.new ≡ taken_with h lines.old + h number)) }
    ensures none { IfNone result ((h : ℕ → ℕ) → taken_with h lines.new ≡ taken_with h lines.old) }
{
    match others[at].steal_as::<Takes>(&mut lines[at].ticket) {
        Steal::Success(number) => Some(number),
        Steal::Empty => None,
        Steal::Retry => None,
    }
}

/// Sweeps the other deques in rising order, and says whether any gave a number.
fn sweep<T: TileWork, G: Gate>(
    job: &Job<'_, T, G>,
    lines: &mut [Line],
    seat: usize,
    share: &mut Share<T::Out>,
) -> bool
    requires ready { T.ready job.now.work.now }
    requires count { job.now.tiles ≤ T.count job.now.work.now }
    requires lines { AreLines job.now.tiles job.now.others.now lines.old }
    requires values { HasTakenValues (T.gives job.now.work.now) share.old }
    ensures lines { AreLines job.now.tiles job.now.others.now lines.new }
    ensures kept { (h : ℕ → ℕ) → sum_by h share.new.hand.items + taken_with h lines.old
        ≡ sum_by h share.old.hand.items + taken_with h lines.new }
    ensures values { HasTakenValues (T.gives job.now.work.now) share.new }
{
    let mut gave = false;
    for at in 0..job.others.len() {
        if at == seat || !share.has_capacity() {
            continue;
        }
        if let Some(number) = steal_one(job.others, lines, at, job.tiles) {
            take(job, number, share);
            gave = true;
        }
    }
    gave
}

/// Sweeps until two sweeps gave nothing. At most `tiles` sweeps can give a number.
fn steal_all<T: TileWork, G: Gate>(
    job: &Job<'_, T, G>,
    lines: &mut [Line],
    seat: usize,
    share: &mut Share<T::Out>,
)
    requires ready { T.ready job.now.work.now }
    requires count { job.now.tiles ≤ T.count job.now.work.now }
    requires lines { AreLines job.now.tiles job.now.others.now lines.old }
    requires values { HasTakenValues (T.gives job.now.work.now) share.old }
    ensures lines { AreLines job.now.tiles job.now.others.now lines.new }
    ensures kept { (h : ℕ → ℕ) → sum_by h share.new.hand.items + taken_with h lines.old
        ≡ sum_by h share.old.hand.items + taken_with h lines.new }
    ensures values { HasTakenValues (T.gives job.now.work.now) share.new }
{
    let mut nothing = 0u8;
    for _ in 0..job.tiles.saturating_add(2) {
        if nothing == 2 {
            break;
        }
        if !sweep(job, lines, seat, share) {
            nothing += 1;
        }
    }
}

/// A worker: its own deque, its passes of all deques, its number, and what it took.
#[derive(Drop)]
pub(crate) struct Member<X> {
    pub(crate) own: Own,
    pub(crate) lines: Vec<Line>,
    pub(crate) seat: usize,
    pub(crate) share: Share<X>,
}

fn run_member<T: TileWork, G: Gate>(job: &Job<'_, T, G>, member: &mut Member<T::Out>)
    requires ready { T.ready job.now.work.now }
    requires count { job.now.tiles ≤ T.count job.now.work.now }
    requires member { IsReady
        (T.gives job.now.work.now) job.now.tiles job.now.others.now member.old }
    ensures { HasRun (T.gives job.now.work.now) job.now.tiles job.now.others.now member.old
        member.new }
{
    take_own(job, &mut member.own, &mut member.share);
    let seat = member.seat;
    let lines = member.lines.as_mut_slice();
    steal_all(job, lines, seat, &mut member.share);
}

/// The workers run side by side.
pub(crate) fn run_all<R: Threads + Sync, T: TileWork, G: Gate>(
    rt: &R,
    job: &Job<'_, T, G>,
    members: &mut [Member<T::Out>],
)
    requires ready { T.ready job.now.work.now }
    requires count { job.now.tiles ≤ T.count job.now.work.now }
    requires some { 0 < length members.old }
    requires members { All (λ m. IsReady
        (T.gives job.now.work.now) job.now.tiles job.now.others.now m) members.old }
    ensures { HaveRun (T.gives job.now.work.now) job.now.tiles job.now.others.now members.old
        members.new }
{
    let threads = members.len();
    thread::for_each_mut(
        rt,
        members,
        threads,
        &|_: usize, member: &mut Member<T::Out>|
            requires { T.ready job.now.work.now × (job.now.tiles ≤ T.count job.now.work.now)
                × IsReady (T.gives job.now.work.now) job.now.tiles job.now.others.now member.now }
            ensures { HasRun (T.gives job.entry.now.work.now) job.entry.now.tiles
                job.entry.now.others.now member.entry.now member.exit.now }
        { run_member(job, member) },
    );
}
