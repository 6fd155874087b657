//! What a seat took, and what it made of that.

ghost use Rattle.std.specs.Prelude.{◌≡◌, ◌<◌, ◌≤◌, ◌∷◌, ◌++◌, [], true, false, IfOk};
ghost use Rattle.std.specs.Vec.{vec_len, vec_capacity};
ghost use Rattle.steal_pool.specs.SeatValues.{HasTakenValues};

use crate::job::Job;
use std::alloc::{AllocError, Global};
use tile_pool::{Gate, TileWork};

/// The numbers that a seat took, in its order, and their values, as long as there was memory.
#[derive(Drop)]
pub(crate) struct Share<X> {
    pub(crate) hand: Vec<u32>,
    pub(crate) batch: Vec<X>,
    pub(crate) failed: bool,
}

impl<X: Drop> Share<X> {
    /// A share in which no number is taken yet, with room for all of them.
    pub(crate) fn new(alloc: Global, tiles: u32) -> Result<Share<X>, AllocError>
        ensures { IfOk result (λ s. (s.hand.items ≡ []) × (s.batch.items ≡ []) × (s.failed ≡ false)
            × (tiles ≤ vec_capacity s.hand)) }
    {
        Ok(Share {
            hand: Vec::with_capacity(alloc, tiles as usize)?,
            batch: Vec::new(alloc),
            failed: false,
        })
    }

    /// Whether the hand takes one more number without asking for memory.
    pub(crate) fn has_capacity(&self) -> bool
        ensures { result ≡ true → vec_len self.now.hand < vec_capacity self.now.hand }
    {
        self.hand.len() < self.hand.capacity()
    }
}

/// Takes a number to the end of the hand and tests it. After running out of memory it is taken and not tested.
pub(crate) fn take<T: TileWork, G: Gate>(
    job: &Job<'_, T, G>,
    number: u32,
    share: &mut Share<T::Out>,
)
    requires ready { T.ready job.now.work.now }
    requires number { number < T.count job.now.work.now }
    requires room { vec_len share.old.hand < vec_capacity share.old.hand }
    requires values { HasTakenValues (T.gives job.now.work.now) share.old }
    ensures values { HasTakenValues (T.gives job.now.work.now) share.new }
    ensures hand { share.new.hand.items ≡ share.old.hand.items ++ number ∷ [] }
    ensures room { vec_capacity share.new.hand ≡ vec_capacity share.old.hand }
{
    share.hand.push_reserved(number);
    if share.failed {
        return;
    }
    job.gate.before(number);
    if !add(job.alloc, job.work, number, &mut share.batch) {
        share.failed = true;
    }
    job.gate.after(number);
}

/// Tests a number, and says whether there was memory for its value.
fn add<T: TileWork>(alloc: Global, work: &T, number: u32, batch: &mut Vec<T::Out>) -> bool
    requires ready { T.ready work.now }
    requires number { number < T.count work.now }
    ensures { result ≡ true → (value : _) × (batch.new.items ≡ batch.old.items ++ value ∷ [])
        × T.gives work.now number value }
{
    let Ok(value) = work.test(alloc, number) else {
        return false;
    };
    batch.push(value).is_ok()
}
