// The corners of a large polygon, with the boxes of its runs of edges.

ghost use Rattle.std.specs.Prelude.{◌≡◌, ◌<◌, ◌∷◌, List, true, IfOk, IfSome, length, take, drop};
ghost use Rattle.geo_seg.specs.declared.points.Seg.{Seg};
ghost use Rattle.geo_seg.specs.Boxes.{FitsCore};
ghost use Rattle.geo_seg.specs.PolygonCorners.{IsCornerBox};
ghost use Rattle.geo_seg.specs.Inside.{outline};
ghost use Rattle.std.specs.List.{AllZip, list_all};
ghost use Rattle.geo_seg.specs.Shifts.{IsShiftedPoint, point_stays};
ghost use Rattle.geo_seg.specs.RunBoxes.{AreRuns, IsRunBox, HasRuns};

use crate::boxes::Bounds;
use crate::extents::{around, grown};
use crate::frames::Frame;
use crate::points::Point;
use crate::shifts::{Shift, shift_outline, shift_row};
use std::alloc::{AllocError, Global};

/// A run whose box is kept has so many parts: the shortest so many edges, and each longer one so many runs of the size before.
pub const RUN_PARTS: usize = 8;

/// How many edges the shortest runs have, those of the first row.
pub const FIRST_RUN: usize = RUN_PARTS;

/// How many edges the runs of the second row have.
pub const SECOND_RUN: usize = RUN_PARTS * FIRST_RUN;

/// How many edges the runs of the third row have.
pub const THIRD_RUN: usize = RUN_PARTS * SECOND_RUN;

/// How many edges the longest runs have, those of the fourth row.
pub const FOURTH_RUN: usize = RUN_PARTS * THIRD_RUN;

/// A polygon with the frames of its runs. Frame `whole` holds all corners. Of each row frame k holds the edges from k times the row's size on, so many as that size is.
#[derive(Drop)]
pub struct Indexed {
    pub corners: Vec<Point>,
    pub whole: Frame,
    pub first: Vec<Frame>,
    pub second: Vec<Frame>,
    pub third: Vec<Frame>,
    pub fourth: Vec<Frame>,
}

/// The least box that holds a corner and others.
pub fn corner_box(first: Point, others: &[Point]) -> Bounds
    ensures { IsCornerBox (first ∷ others.now) result }
{
    let mut bounds = around(first);
    for corner in others {
        bounds = grown(bounds, *corner);
    }
    bounds
}

/// The box of all corners.
pub(crate) fn box_of(corners: &[Point]) -> Bounds
    requires { 0 < length corners.now }
    ensures corners { IsCornerBox corners.now result }
    ensures fits { FitsCore result }
{
    corner_box(corners[0], corners)
}

/// The row of frames of the runs of `size` edges.
fn row(alloc: Global, corners: &[Point], size: usize) -> Result<Vec<Frame>, AllocError>
    requires some { 0 < length corners.now }
    requires size { 0 < size }
    ensures { IfOk result (λ frames. AreRuns size frames.items (outline corners.now)) }
{
    let mut frames = Vec::with_capacity(alloc, corners.len() / size + 1)?;
    let mut from = corners[corners.len() - 1];
    let mut low = 0;
    'runs: while low < corners.len() {
        let high = if corners.len() - low > size {
            low + size
        } else {
            corners.len()
        };
        let part = &corners[low..high];
        frames.push(Frame::of(corner_box(from, part)))?;
        from = part[part.len() - 1];
        low = high;
    }
    Ok(frames)
}

/// The box of the run that begins at edge `low`, where the row has it.
fn at(frames: &[Frame], low: usize, size: usize) -> Option<Bounds>
    requires { 0 < size }
    ensures { (es : List Seg) → AreRuns size frames.now es
        → IfSome result (λ b. IsRunBox (take size (drop low es)) b) }
{
    if low % size != 0 {
        return None;
    }
    match frames.get(low / size) {
        Some(frame) => Some(frame.bounds()),
        None => None,
    }
}

impl Indexed {
    pub(crate) fn of(alloc: Global, corners: Vec<Point>) -> Result<Indexed, AllocError>
        requires { 0 < length corners.items }
        ensures corners { IfOk result (λ index. index.corners ≡ corners) }
        ensures runs { IfOk result HasRuns }
    {
        let whole = Frame::of(box_of(&corners));
        let first = row(alloc, &corners, FIRST_RUN)?;
        let second = row(alloc, &corners, SECOND_RUN)?;
        let third = row(alloc, &corners, THIRD_RUN)?;
        let fourth = row(alloc, &corners, FOURTH_RUN)?;
        Ok(Indexed {
            corners,
            whole,
            first,
            second,
            third,
            fourth,
        })
    }

    /// Moves all corners and frames.
    pub(crate) fn shift(&mut self, by: Shift)
        requires some { 0 < length self.old.corners.items }
        requires runs { HasRuns self.old }
        requires stays { list_all (point_stays by.dx by.dy) self.old.corners.items ≡ true }
        ensures corners { AllZip (IsShiftedPoint by.dx by.dy) self.old.corners.items
            self.new.corners.items }
        ensures runs { HasRuns self.new }
    {
        shift_outline(&mut self.corners, by);
        self.whole = Frame::of(box_of(&self.corners));
        shift_row(&mut self.first, by);
        shift_row(&mut self.second, by);
        shift_row(&mut self.third, by);
        shift_row(&mut self.fourth, by);
    }

    /// The box of all corners.
    pub(crate) fn bounds(&self) -> Bounds
        requires { HasRuns self.now }
        ensures corners { IsCornerBox self.now.corners.items result }
        ensures fits { FitsCore result }
    {
        self.whole.bounds()
    }

    /// The box of the `size` edges from `low` on, where it is kept.
    pub(crate) fn run_box(&self, low: usize, size: usize) -> Option<Bounds>
        requires { HasRuns self.now }
        ensures { IfSome result (λ b. IsRunBox (take size (drop low
            (outline self.now.corners.items))) b) }
    {
        match size {
            FIRST_RUN => at(&self.first, low, FIRST_RUN),
            SECOND_RUN => at(&self.second, low, SECOND_RUN),
            THIRD_RUN => at(&self.third, low, THIRD_RUN),
            FOURTH_RUN => at(&self.fourth, low, FOURTH_RUN),
            _ => None,
        }
    }
}
