//! The caller takes what is left.

ghost use Rattle.std.specs.Prelude.{◌≡◌, ℕ, ◌+◌, ◌-◌, ◌≤◌, false, length, map, sum_by, All, IfOk};
ghost use Rattle.std.specs.Vec.{vec_len};
ghost use Rattle.claim_board.specs.DealMachine.{sum_below, times, once_below};
ghost use Rattle.crossbeam_deque.specs.Handles.{worker_view, worker_flavor};
ghost use Rattle.tile_pool.specs.NumberedValues.{AreBatches};
ghost use Rattle.steal_pool.specs.Seats.{AreOwners, AreLines, taken_with, put_of, taken_of, pushed_by, taken_by};
ghost use Rattle.steal_pool.specs.SeatValues.{HasTakenValues};

use crate::crew::Left;
use crate::deal::all_back;
use crate::job::Job;
use crate::rule::{Line, Other, Own, Takes};
use crate::share::{Share, take};
use std::alloc::AllocError;
use tile_pool::{Gate, TileWork};

/// Who has every part of a deque takes what is left in it.
fn drain<T: TileWork, G: Gate>(
    job: &Job<'_, T, G>,
    mut own: Own,
    share: &mut Share<T::Out>,
) -> Result<(), AllocError>
    requires ready { T.ready job.now.work.now }
    requires count { job.now.tiles ≤ T.count job.now.work.now }
    requires own { (worker_flavor own ≡ 0) × ((worker_view own).parts ≡ 1024)
        × ((worker_view own).limit ≤ job.now.tiles) }
    requires values { HasTakenValues (T.gives job.now.work.now) share.old }
    ensures kept { IfOk result (λ _. (h : ℕ → ℕ)
        → sum_by h share.new.hand.items + taken_of h own
        ≡ sum_by h share.old.hand.items + put_of h own) }
    ensures values { IfOk result (λ _. HasTakenValues (T.gives job.now.work.now) share.new) }
{
    while let Some(number) = own.pop_as::<Takes>() {
        share.hand.reserve(1)?;
        take(job, number, share);
    }
    Ok(())
}

/// All deques, once all passes are back.
fn take_rest<T: TileWork, G: Gate>(
    job: &Job<'_, T, G>,
    mut owners: Vec<Own>,
    share: &mut Share<T::Out>,
) -> Result<(), AllocError>
    requires ready { T.ready job.now.work.now }
    requires count { job.now.tiles ≤ T.count job.now.work.now }
    requires owners { AreOwners job.now.tiles 1024 job.now.others.now owners.items }
    requires values { HasTakenValues (T.gives job.now.work.now) share.old }
    ensures kept { IfOk result (λ _. (h : ℕ → ℕ)
        → sum_by h share.new.hand.items + taken_by h owners.items
        ≡ sum_by h share.old.hand.items + pushed_by h owners.items) }
    ensures values { IfOk result (λ _. HasTakenValues (T.gives job.now.work.now) share.new) }
{
    while let Some(own) = owners.pop() {
        drain(job, own, share)?;
    }
    Ok(())
}

/// What all seats took, the caller last, and what they made of it.
#[derive(Drop)]
pub(crate) struct Taken<X> {
    pub(crate) hands: Vec<Vec<u32>>,
    pub(crate) batches: Vec<Vec<X>>,
    pub(crate) failed: bool,
}

/// Passes go back to the owners, of whom each then has all parts.
fn whole(others: &[Other], mut owners: Vec<Own>, all: Vec<Vec<Line>>, tiles: u32) -> Vec<Own>
    requires workers { vec_len all ≤ 64 }
    requires owners { AreOwners tiles (1024 - vec_len all) others.now owners.items }
    requires lines { All (λ v. AreLines tiles others.now v.items) all.items }
    ensures owners { AreOwners tiles 1024 others.now result.items }
    ensures same { (h : ℕ → ℕ) → pushed_by h result.items ≡ pushed_by h owners.items }
    ensures taken { (h : ℕ → ℕ) → taken_by h result.items
        ≡ taken_by h owners.items + sum_by (λ v. taken_with h v.items) all.items }
{
    all_back(others, owners.as_mut_slice(), all, tiles);
    owners
}

/// When a crew has left, the caller takes what is left in the deques.
pub(crate) fn with_rest<T: TileWork, G: Gate>(
    job: &Job<'_, T, G>,
    left: Left<T::Out>,
) -> Result<Taken<T::Out>, AllocError>
    requires ready { T.ready job.now.work.now }
    requires count { job.now.tiles ≤ T.count job.now.work.now }
    requires workers { (vec_len left.all ≤ 64) × (length left.hands.items
        ≡ length left.batches.items) }
    requires owners { AreOwners job.now.tiles
        (1024 - vec_len left.all) job.now.others.now left.owners.items
        × ((h : ℕ → ℕ) → pushed_by h left.owners.items ≡ sum_below h job.now.tiles) }
    requires lines { All (λ v. AreLines job.now.tiles job.now.others.now v.items) left.all.items }
    requires kept { (h : ℕ → ℕ) → sum_by (λ v. sum_by h v.items) left.hands.items
        ≡ taken_by h left.owners.items + sum_by (λ v. taken_with h v.items) left.all.items }
    requires values { left.failed ≡ false → AreBatches (T.gives job.now.work.now)
        (map (λ v. v.items) left.hands.items) left.batches.items }
    ensures once { IfOk result (λ taken. (x : ℕ)
        → sum_by (times x) (map (λ v. v.items) taken.hands.items) ≡ once_below x job.now.tiles) }
    ensures values { IfOk result (λ taken. taken.failed ≡ false
        → AreBatches (T.gives job.now.work.now)
        (map (λ v. v.items) taken.hands.items) taken.batches.items) }
    ensures counts { IfOk result (λ taken. (length taken.hands.items ≡ length left.hands.items + 1)
        × (length taken.batches.items ≡ length left.batches.items + 1)) }
{
    let Left {
        owners,
        all,
        mut hands,
        mut batches,
        failed,
    } = left;
    let owners = whole(job.others, owners, all, job.tiles);
    let mut share = Share::new(job.alloc, job.tiles)?;
    take_rest(job, owners, &mut share)?;
    let Share {
        hand,
        batch,
        failed: last_failed,
    } = share;
    hands.push(hand)?;
    batches.push(batch)?;
    Ok(Taken {
        hands,
        batches,
        failed: failed || last_failed,
    })
}
