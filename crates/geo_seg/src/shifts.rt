// Moves of shapes.

ghost use Rattle.std.specs.Prelude.{◌≡◌, ◌+ℤ◌, ◌<◌, true, All};
ghost use Rattle.geo_seg.specs.Ranges.{IsOffset};
ghost use Rattle.std.specs.List.{AllZip, list_all};
ghost use Rattle.geo_seg.specs.Boxes.{FitsCore};
ghost use Rattle.geo_seg.specs.RunBoxes.{sides_of};
ghost use Rattle.geo_seg.specs.Shifts.{IsShiftedPoint, IsShiftedShape, is_coordinate, point_stays, core_stays};
ghost use Rattle.geo_seg.specs.ShiftedRuns.{IsShiftedFrame, in_range_of};

use crate::boxes::Bounds;
use crate::frames::Frame;
use crate::points::Point;
use crate::shapes::{Core, Shape};

/// The greatest coordinate.
const GREATEST: i64 = 1_000_000_000;

/// How far something is moved, in half nanometres.
#[derive(Clone, Copy, Debug, PartialEq, Eq, Drop)]
pub struct Shift {
    pub dx: i64,
    pub dy: i64,
}

/// Whether the coordinate stays in range where it changes by so much.
fn coordinate_stays(at: i64, by: i64) -> bool
    ensures { result ≡ is_coordinate (at +ℤ by) }
{
    match at.checked_add(by) {
        None => false,
        Some(moved) => -GREATEST <= moved && moved <= GREATEST,
    }
}

impl Point {
    fn stays(self, by: Shift) -> bool
        ensures { result ≡ point_stays by.dx by.dy self }
    {
        coordinate_stays(self.x, by.dx) && coordinate_stays(self.y, by.dy)
    }

    fn shifted(self, by: Shift) -> Point
        requires { point_stays by.dx by.dy self ≡ true }
        ensures { IsShiftedPoint by.dx by.dy self result }
    {
        Point {
            x: self.x + by.dx,
            y: self.y + by.dy,
        }
    }
}

/// Whether all corners stay in range.
fn corners_stay(corners: &[Point], by: Shift) -> bool
    ensures { result ≡ list_all (point_stays by.dx by.dy) corners.now }
{
    corners.iter().all(|corner| corner.stays(by))
}

/// Moves each corner.
fn shift_corners(corners: &mut [Point], by: Shift)
    requires { list_all (point_stays by.dx by.dy) corners.old ≡ true }
    ensures { AllZip (IsShiftedPoint by.dx by.dy) corners.old corners.new }
{
    for corner in corners.iter_mut() {
        *corner = corner.shifted(by);
    }
}

pub(crate) fn shift_outline(corners: &mut Vec<Point>, by: Shift)
    requires { list_all (point_stays by.dx by.dy) corners.old.items ≡ true }
    ensures { AllZip (IsShiftedPoint by.dx by.dy) corners.old.items corners.new.items }
{
    shift_corners(corners, by);
}

/// The nearest number in range.
#[tactic(auto, unfolding(crate::specs::ShiftedRuns::in_range_of))]
fn in_range(z: i64) -> i64
    ensures { result ≡ in_range_of z }
{
    if z < -GREATEST {
        -GREATEST
    } else if z > GREATEST {
        GREATEST
    } else {
        z
    }
}

impl Bounds {
    /// The box moved, and cut to the range of coordinates.
    fn shifted(self, by: Shift) -> Bounds
        requires fits { FitsCore self }
        requires dx { IsOffset by.dx }
        requires dy { IsOffset by.dy }
        ensures left { result.left ≡ in_range_of (self.left +ℤ by.dx) }
        ensures top { result.top ≡ in_range_of (self.top +ℤ by.dy) }
        ensures right { result.right ≡ in_range_of (self.right +ℤ by.dx) }
        ensures bottom { result.bottom ≡ in_range_of (self.bottom +ℤ by.dy) }
    {
        Bounds {
            left: in_range(self.left + by.dx),
            top: in_range(self.top + by.dy),
            right: in_range(self.right + by.dx),
            bottom: in_range(self.bottom + by.dy),
        }
    }
}

impl Frame {
    /// What the frame holds is held by the new one, moved.
    fn shifted(self, by: Shift) -> Frame
        requires fits { FitsCore (sides_of self) }
        requires dx { IsOffset by.dx }
        requires dy { IsOffset by.dy }
        ensures { IsShiftedFrame by.dx by.dy self result }
    {
        Frame::of(self.bounds().shifted(by))
    }
}

/// Moves each frame.
fn shift_frames(frames: &mut [Frame], by: Shift)
    requires fits { All (λ frame. FitsCore (sides_of frame)) frames.old }
    requires dx { IsOffset by.dx }
    requires dy { IsOffset by.dy }
    ensures { AllZip (IsShiftedFrame by.dx by.dy) frames.old frames.new }
{
    for frame in frames.iter_mut() {
        *frame = frame.shifted(by);
    }
}

pub(crate) fn shift_row(frames: &mut Vec<Frame>, by: Shift)
    requires fits { All (λ frame. FitsCore (sides_of frame)) frames.old.items }
    requires dx { IsOffset by.dx }
    requires dy { IsOffset by.dy }
    ensures { AllZip (IsShiftedFrame by.dx by.dy) frames.old.items frames.new.items }
{
    shift_frames(frames, by);
}

impl Shape {
    /// Whether its ends or corners stay within 1,000,000,000 half nanometres of 0 where it is moved.
    pub fn stays(&self, by: Shift) -> bool
        ensures { result ≡ core_stays by.dx by.dy self.now.core }
    {
        match &self.core {
            Core::Line(s) => s.a.stays(by) && s.b.stays(by),
            Core::Area(polygon) => corners_stay(polygon.corners(), by),
        }
    }

    /// Moves it. It takes no memory.
    pub fn shift(&mut self, by: Shift)
        requires { core_stays by.dx by.dy self.old.core ≡ true }
        ensures { IsShiftedShape by.dx by.dy self.old self.new }
    {
        match &mut self.core {
            Core::Line(s) => {
                s.a = s.a.shifted(by);
                s.b = s.b.shifted(by);
            }
            Core::Area(polygon) => polygon.shift(by),
        }
    }
}
