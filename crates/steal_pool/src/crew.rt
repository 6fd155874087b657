//! Workers, and what they leave.

ghost use Rattle.std.specs.Prelude.{◌≡◌, ℕ, ◌+◌, ◌-◌, ◌<◌, ◌≤◌, [], false, length, map, sum_by, All, IfOk};
ghost use Rattle.tile_pool.specs.NumberedValues.{AreBatches};
ghost use Rattle.steal_pool.specs.PoolMembers.{IsReady, HaveRun};
ghost use Rattle.steal_pool.specs.Seats.{AreOwners, AreLines, AreUnused, AreGiven, pushed_by, taken_by, taken_with};

use crate::job::Job;
use crate::member::{Member, run_all};
use crate::rule::{Line, Other, Own};
use crate::share::Share;
use std::alloc::{AllocError, Global};
use std::thread::Threads;
use tile_pool::{Gate, TileWork};

/// A worker for each seat.
fn crew_of<X: Drop>(
    alloc: Global,
    others: &[Other],
    owners: Vec<Own>,
    mut all: Vec<Vec<Line>>,
    tiles: u32,
) -> Result<Vec<Member<X>>, AllocError>
    requires count { length all.items ≡ length owners.items }
    requires lines { All (λ v. AreUnused tiles others.now v.items) all.items }
    ensures owners { IfOk result (λ crew. map (λ m. m.own) crew.items ≡ owners.items) }
    ensures lines { IfOk result (λ crew.
        All (λ m. AreUnused tiles others.now m.lines.items) crew.items) }
    ensures fresh { IfOk result (λ crew. All (λ m. (m.share.hand.items ≡ [])
        × (m.share.batch.items ≡ [])) crew.items) }
{
    let mut crew = Vec::with_capacity(alloc, owners.len())?;
    for own in owners {
        let lines = match all.pop() {
            Some(lines) => lines,
            None => unreachable!(),
        };
        let share = Share::new(alloc, tiles)?;
        let seat = crew.len();
        crew.push_reserved(Member {
            own,
            lines,
            seat,
            share,
        });
    }
    Ok(crew)
}

/// What a crew leaves.
#[derive(Drop)]
pub(crate) struct Left<X> {
    pub(crate) owners: Vec<Own>,
    pub(crate) all: Vec<Vec<Line>>,
    pub(crate) hands: Vec<Vec<u32>>,
    pub(crate) batches: Vec<Vec<X>>,
    pub(crate) failed: bool,
}

fn disband<X: Drop>(alloc: Global, crew: Vec<Member<X>>) -> Result<Left<X>, AllocError>
    ensures owners { IfOk result (λ left. left.owners.items ≡ map (λ m. m.own) crew.items) }
    ensures lines { IfOk result (λ left. left.all.items ≡ map (λ m. m.lines) crew.items) }
    ensures hands { IfOk result (λ left. left.hands.items ≡ map (λ m. m.share.hand) crew.items) }
    ensures batches { IfOk result (λ left. left.batches.items
        ≡ map (λ m. m.share.batch) crew.items) }
    ensures failed { IfOk result (λ left. left.failed ≡ false
        → All (λ m. m.share.failed ≡ false) crew.items) }
{
    let mut owners = Vec::with_capacity(alloc, crew.len())?;
    let mut all = Vec::with_capacity(alloc, crew.len())?;
    let mut hands = Vec::with_capacity(alloc, crew.len())?;
    let mut batches = Vec::with_capacity(alloc, crew.len())?;
    let mut any_failed = false;
    for member in crew {
        let Member {
            own,
            lines,
            share,
            ..
        } = member;
        let Share {
            hand,
            batch,
            failed,
        } = share;
        owners.push_reserved(own);
        all.push_reserved(lines);
        hands.push_reserved(hand);
        batches.push_reserved(batch);
        any_failed = any_failed || failed;
    }
    Ok(Left {
        owners,
        all,
        hands,
        batches,
        failed: any_failed,
    })
}

/// Workers run side by side: a crew that is handed over and comes back.
fn run_members<R: Threads + Sync, T: TileWork, G: Gate>(
    rt: &R,
    job: &Job<'_, T, G>,
    mut crew: Vec<Member<T::Out>>,
) -> Vec<Member<T::Out>>
    requires ready { T.ready job.now.work.now }
    requires count { job.now.tiles ≤ T.count job.now.work.now }
    requires some { 0 < length crew.items }
    requires members { All (IsReady
        (T.gives job.now.work.now) job.now.tiles job.now.others.now) crew.items }
    ensures long { length result.items ≡ length crew.items }
    ensures run { HaveRun (T.gives job.now.work.now) job.now.tiles job.now.others.now crew.items
        result.items }
{
    run_all(rt, job, crew.as_mut_slice());
    crew
}

/// The workers run side by side, and leave what they have.
pub(crate) fn run_crew<R: Threads + Sync, T: TileWork, G: Gate>(
    rt: &R,
    job: &Job<'_, T, G>,
    owners: Vec<Own>,
    all: Vec<Vec<Line>>,
) -> Result<Left<T::Out>, AllocError>
    requires ready { T.ready job.now.work.now }
    requires count { job.now.tiles ≤ T.count job.now.work.now }
    requires workers { (0 < length owners.items) × (length owners.items ≤ 64) }
    requires owners { AreOwners job.now.tiles
        (1024 - length owners.items) job.now.others.now owners.items
        × ((h : ℕ → ℕ) → taken_by h owners.items ≡ 0) }
    requires given { AreGiven job.now.tiles owners.items }
    requires lines { (length all.items ≡ length owners.items)
        × All (λ v. AreUnused job.now.tiles job.now.others.now v.items) all.items }
    ensures owners { IfOk result (λ left. AreOwners job.now.tiles
        (1024 - length owners.items) job.now.others.now left.owners.items
        × ((h : ℕ → ℕ) → pushed_by h left.owners.items ≡ pushed_by h owners.items)) }
    ensures lines { IfOk result (λ left. (length left.all.items ≡ length owners.items)
        × All (λ v. AreLines job.now.tiles job.now.others.now v.items) left.all.items) }
    ensures kept { IfOk result (λ left. (h : ℕ → ℕ)
        → sum_by (λ v. sum_by h v.items) left.hands.items
        ≡ taken_by h left.owners.items + sum_by (λ v. taken_with h v.items) left.all.items) }
    ensures values { IfOk result (λ left. left.failed ≡ false
        → AreBatches (T.gives job.now.work.now)
        (map (λ v. v.items) left.hands.items) left.batches.items) }
    ensures counts { IfOk result (λ left. (length left.hands.items ≡ length owners.items)
        × (length left.batches.items ≡ length owners.items)) }
{
    let crew = crew_of(job.alloc, job.others, owners, all, job.tiles)?;
    let crew = run_members(rt, job, crew);
    let left = disband(job.alloc, crew)?;
    Ok(left)
}
