//! The deques before a run, and after it.

ghost use Rattle.std.specs.Prelude.{◌≡◌, ℕ, ◌+◌, ◌-◌, ◌<◌, ◌≤◌, length, sum_by, All, IfOk};
ghost use Rattle.std.specs.Vec.{vec_len};
ghost use Rattle.claim_board.specs.DealMachine.{sum_below};
ghost use Rattle.steal_pool.specs.Seats.{AreOwners, AreLines, AreUnused, AreGiven, PutAlike, pushed_by, taken_by, taken_with};

use crate::rule::{Line, Other, Own, Puts, Share};
use std::alloc::{AllocError, Global};

/// A deque for each worker. Each begins with `room` slots.
pub(crate) fn deques(
    alloc: Global,
    workers: u32,
    room: usize,
) -> Result<(Vec<Other>, Vec<Own>), AllocError>
    ensures owners { IfOk result (λ r. AreOwners 0 1024 r.0.items r.1.items
        × (length r.0.items ≡ workers)) }
    ensures fresh { IfOk result (λ r. (h : ℕ → ℕ)
        → (pushed_by h r.1.items ≡ 0) × (taken_by h r.1.items ≡ 0)) }
{
    let mut others = Vec::with_capacity(alloc, workers as usize)?;
    let mut owners = Vec::with_capacity(alloc, workers as usize)?;
    for _ in 0..workers {
        let own = Own::fifo_as(alloc, room)?;
        let stealer = own.stealer()?;
        others.push_reserved(stealer);
        owners.push_reserved(own);
    }
    Ok((others, owners))
}

/// Deals the numbers below `tiles` to the deques in turn, rising: number `n` to the deque `n % others.len()`.
pub(crate) fn give_out(others: &[Other], owners: &mut [Own], tiles: u32) -> Result<(), AllocError>
    requires some { 0 < length others.now }
    requires owners { AreOwners 0 1024 others.now owners.old }
    requires fresh { (h : ℕ → ℕ) → (pushed_by h owners.old ≡ 0) × (taken_by h owners.old ≡ 0) }
    ensures owners { IfOk result (λ _. AreOwners tiles 1024 others.now owners.new) }
    ensures given { IfOk result (λ _. AreGiven tiles owners.new) }
    ensures pushed { IfOk result (λ _. (h : ℕ → ℕ)
        → (pushed_by h owners.new ≡ sum_below h tiles) × (taken_by h owners.new ≡ 0)) }
{
    for number in 0..tiles {
        let at = number as usize % others.len();
        match owners[at].push_as::<Puts>(number) {
            Ok(()) => {}
            Err(_) => return Err(AllocError),
        }
    }
    Ok(())
}

/// A seat's passes, one of each deque.
pub(crate) fn lines_of(
    alloc: Global,
    others: &[Other],
    owners: &mut [Own],
    tiles: u32,
    parts: u32,
) -> Result<Vec<Line>, AllocError>
    requires parts { 0 < parts }
    requires owners { AreOwners tiles (parts + 1) others.now owners.old }
    ensures owners { IfOk result (λ _. AreOwners tiles parts others.now owners.new) }
    ensures alike { IfOk result (λ _. PutAlike owners.old owners.new) }
    ensures same { IfOk result (λ _. (h : ℕ → ℕ)
        → (pushed_by h owners.new ≡ pushed_by h owners.old)
        × (taken_by h owners.new ≡ taken_by h owners.old)) }
    ensures lines { IfOk result (λ lines. AreLines tiles others.now lines.items
        × ((h : ℕ → ℕ) → taken_with h lines.items ≡ 0)) }
{
    let mut lines = Vec::with_capacity(alloc, others.len())?;
    for at in 0..others.len() {
        let ticket = owners[at].another::<Share>();
        lines.push_reserved(Line { deque: at, ticket });
    }
    Ok(lines)
}

/// A seat's passes go back to the owners.
pub(crate) fn give_back(
    others: &[Other],
    owners: &mut [Own],
    mut lines: Vec<Line>,
    tiles: u32,
    parts: u32,
)
    requires parts { 0 < parts }
    requires owners { AreOwners tiles parts others.now owners.old }
    requires lines { AreLines tiles others.now lines.items }
    ensures owners { AreOwners tiles (parts + 1) others.now owners.new }
    ensures same { (h : ℕ → ℕ) → pushed_by h owners.new ≡ pushed_by h owners.old }
    ensures taken { (h : ℕ → ℕ) → taken_by h owners.new
        ≡ taken_by h owners.old + taken_with h lines.items }
{
    while let Some(line) = lines.pop() {
        owners[lines.len()].absorb::<Share>(line.ticket);
    }
}

/// Each seat's passes.
fn all_lines(
    alloc: Global,
    others: &[Other],
    owners: &mut [Own],
    workers: u32,
    tiles: u32,
) -> Result<Vec<Vec<Line>>, AllocError>
    requires workers { workers ≤ 64 }
    requires owners { AreOwners tiles 1024 others.now owners.old }
    ensures owners { IfOk result (λ _. AreOwners tiles (1024 - workers) others.now owners.new) }
    ensures alike { IfOk result (λ _. PutAlike owners.old owners.new) }
    ensures same { IfOk result (λ _. (h : ℕ → ℕ)
        → (pushed_by h owners.new ≡ pushed_by h owners.old)
        × (taken_by h owners.new ≡ taken_by h owners.old)) }
    ensures lines { IfOk result (λ all. (length all.items ≡ workers)
        × All (λ v. AreUnused tiles others.now v.items) all.items) }
{
    let mut all = Vec::with_capacity(alloc, workers as usize)?;
    for seat in 0..workers {
        let lines = lines_of(alloc, others, owners, tiles, 1023 - seat)?;
        all.push_reserved(lines);
    }
    Ok(all)
}

/// All passes go back.
pub(crate) fn all_back(others: &[Other], owners: &mut [Own], mut all: Vec<Vec<Line>>, tiles: u32)
    requires workers { vec_len all ≤ 64 }
    requires owners { AreOwners tiles (1024 - vec_len all) others.now owners.old }
    requires lines { All (λ v. AreLines tiles others.now v.items) all.items }
    ensures owners { AreOwners tiles 1024 others.now owners.new }
    ensures same { (h : ℕ → ℕ) → pushed_by h owners.new ≡ pushed_by h owners.old }
    ensures taken { (h : ℕ → ℕ) → taken_by h owners.new
        ≡ taken_by h owners.old + sum_by (λ v. taken_with h v.items) all.items }
{
    while let Some(lines) = all.pop() {
        give_back(others, owners, lines, tiles, 1023 - all.len() as u32);
    }
}

/// Deques that have their numbers, and each worker's passes.
#[derive(Drop)]
pub(crate) struct Dealing {
    pub(crate) others: Vec<Other>,
    pub(crate) owners: Vec<Own>,
    pub(crate) all: Vec<Vec<Line>>,
}

/// Gives the numbers out, and makes the passes.
pub(crate) fn deal_out(alloc: Global, workers: u32, tiles: u32) -> Result<Dealing, AllocError>
    requires workers { (0 < workers) × (workers ≤ 64) }
    ensures owners { IfOk result (λ dealing.
        AreOwners tiles (1024 - workers) dealing.others.items dealing.owners.items
        × (length dealing.owners.items ≡ workers)) }
    ensures given { IfOk result (λ dealing. AreGiven tiles dealing.owners.items) }
    ensures pushed { IfOk result (λ dealing. (h : ℕ → ℕ)
        → (pushed_by h dealing.owners.items ≡ sum_below h tiles)
        × (taken_by h dealing.owners.items ≡ 0)) }
    ensures lines { IfOk result (λ dealing. (length dealing.all.items ≡ workers)
        × All (λ v. AreUnused tiles dealing.others.items v.items) dealing.all.items) }
{
    let (others, mut owners) = deques(alloc, workers, (tiles / workers) as usize + 1)?;
    give_out(others.as_slice(), owners.as_mut_slice(), tiles)?;
    let all = all_lines(
        alloc,
        others.as_slice(),
        owners.as_mut_slice(),
        workers,
        tiles,
    )?;
    Ok(Dealing {
        others,
        owners,
        all,
    })
}
