//! Item boxes in runs, each with a box around it: those of a run that is far are passed over together.

ghost use Rattle.std.specs.Prelude.{◌≡◌, ◌*◌, ◌<◌, ◌≤◌, ℕ, IsTrue, IfOk, length, slice_index_or};
ghost use Rattle.geo_seg.specs.declared.boxes.Bounds.{Bounds};
ghost use Rattle.geo_seg.specs.Boxes.{IsPartOf, BoxesMeet};
ghost use Rattle.net_groups.specs.ItemBoxes.{AreBoxRuns};

use box_index::do_boxes_meet;
use geo_seg::Bounds;
use std::alloc::{AllocError, Global};

/// How many item boxes are in a run.
const RUN: usize = 8;

/// A box around the item boxes from one place to another.
fn run_of(item_boxes: &[Bounds], low: usize, high: usize) -> Bounds
    ensures { (i : ℕ) (d : Bounds) → low ≤ i → i < high → i < length item_boxes.now
        → IsPartOf (slice_index_or item_boxes.now i d) result }
{
    let mut run = Bounds {
        left: 1_500_000_000,
        top: 1_500_000_000,
        right: -1_500_000_000,
        bottom: -1_500_000_000,
    };
    for place in low..high.min(item_boxes.len()) {
        run = run.union(item_boxes[place]);
    }
    run
}

/// The boxes around the runs of these item boxes.
pub(crate) fn runs_of(alloc: Global, item_boxes: &[Bounds]) -> Result<Vec<Bounds>, AllocError>
    ensures { IfOk result (λ runs. AreBoxRuns item_boxes.now runs.items) }
{
    let count = item_boxes.len() / RUN + 1;
    let mut runs = Vec::with_capacity(alloc, count)?;
    for run in 0..count {
        runs.push(run_of(item_boxes, run * RUN, run * RUN + RUN))?;
    }
    Ok(runs)
}

/// Whether the boxes share no point.
fn is_far(own: Bounds, item_box: Bounds) -> bool
    ensures { IsTrue result → ¬ (BoxesMeet own item_box) }
{
    !do_boxes_meet(own, item_box)
}

/// Whether there is a box around the run, and it is far from this one.
fn is_clear(runs: &[Bounds], run: usize, own: Bounds) -> bool
    ensures { IsTrue result → (run < length runs.now)
        × ((d : Bounds) → ¬ (BoxesMeet own (slice_index_or runs.now run d))) }
{
    run < runs.len() && !do_boxes_meet(own, runs[run])
}

/// Whether a run begins at the place, and its box is far from this one.
fn begins_clear(runs: &[Bounds], place: usize, own: Bounds) -> bool
    ensures { IsTrue result → (run : ℕ) × (run * 8 ≡ place) × (run < length runs.now)
        × ((d : Bounds) → ¬ (BoxesMeet own (slice_index_or runs.now run d))) }
{
    let run = place / RUN;
    run * RUN == place && is_clear(runs, run, own)
}

/// The first place from the one that is given on whose item box meets this one. Where there is none, all later item boxes are passed.
pub(crate) fn next_met(item_boxes: &[Bounds], runs: &[Bounds], own: Bounds, from: usize) -> usize
    requires { AreBoxRuns item_boxes.now runs.now }
    ensures from { from ≤ result }
    ensures apart { (i : ℕ) (d : Bounds) → from ≤ i → i < result → i < length item_boxes.now
        → ¬ (BoxesMeet own (slice_index_or item_boxes.now i d)) }
{
    let mut place = from;
    'places: while place < item_boxes.len() {
        if begins_clear(runs, place, own) {
            place += RUN;
        } else if is_far(own, item_boxes[place]) {
            place += 1;
        } else {
            return place;
        }
    }
    place
}
