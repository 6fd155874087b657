//! Items that are moved.

ghost use Rattle.std.specs.Prelude.{◌≡◌, ◌≤◌, ◌+ℤ◌, ◌*ℤ◌, ◌++◌, ◌&&◌, pos, true, unsigned_abs};
ghost use Rattle.std.specs.List.{list_all};
ghost use Rattle.geo_seg.specs.Shifts.{core_stays};
ghost use Rattle.one_item.specs.Positions.{is_near, is_on_board};
ghost use Rattle.one_item.specs.ItemParts.{parts_of, hole_parts, kind_parts, HasPoints, FirstHasPoints};
ghost use Rattle.one_item.specs.ItemMoves.{item_stays, IsShiftedItem, IsShiftedPart, AreShifted, HoleIsShifted, KindIsShifted};

use crate::item::{Hole, Item, Nm, What};
use crate::parts::{Part, Parts};
use crate::positions::stays_near;
use geo_seg::{Core, Shift};

/// How far positions are moved, in nanometres.
#[derive(Clone, Copy, Drop)]
pub struct Step {
    pub dx: Nm,
    pub dy: Nm,
}

impl Step {
    /// The step in half nanometres, which shapes count.
    fn doubled(self) -> Shift
        requires dx { unsigned_abs self.dx ≤ 1000000000 }
        requires dy { unsigned_abs self.dy ≤ 1000000000 }
        ensures { result ≡ record { dx = pos 2 *ℤ self.dx; dy = pos 2 *ℤ self.dy } }
    {
        Shift {
            dx: 2 * self.dx,
            dy: 2 * self.dy,
        }
    }
}

// ---- whether all points stay on the board

fn parts_stay(parts: &[Part], by: Shift) -> bool
    ensures { result ≡ list_all (λ part. core_stays by.dx by.dy part.shape.core) parts.now }
{
    parts.iter().all(|part| part.shape.stays(by))
}

fn hole_stays(hole: &Option<Hole>, by: Shift) -> bool
    ensures { result ≡ list_all (λ part.
        core_stays by.dx by.dy part.shape.core) (hole_parts hole.now) }
{
    match hole {
        None => true,
        Some(hole) => hole.shape.stays(by),
    }
}

fn kind_stays(what: &What, by: Shift) -> bool
    ensures { result ≡ list_all (λ part.
        core_stays by.dx by.dy part.shape.core) (kind_parts what.now) }
{
    let (first, second) = what.parts();
    parts_stay(first, by) && parts_stay(second, by)
}

/// Its hole, and what its kind gives.
fn others_stay(item: &Item, by: Shift) -> bool
    ensures { result ≡ list_all (λ part.
        core_stays by.dx by.dy part.shape.core) (hole_parts item.now.hole
        ++ kind_parts item.now.what) }
{
    hole_stays(&item.hole, by) && kind_stays(&item.what, by)
}

/// Whether all points of the item's shapes stay on the board.
fn shapes_stay(item: &Item, by: Shift) -> bool
    ensures { result ≡ list_all (λ part.
        core_stays by.dx by.dy part.shape.core) (parts_of item.now) }
{
    parts_stay(item.copper.as_slice(), by) && others_stay(item, by)
}

fn place_stays(item: &Item, step: Step) -> bool
    ensures { result ≡ (is_near (item.now.x +ℤ step.dx) && is_near (item.now.y +ℤ step.dy)) }
{
    stays_near(item.x, step.dx) && stays_near(item.y, step.dy)
}

impl Item {
    /// Whether the item, which lies on the board, stays there where it is moved so far: its position and all points of its
    /// shapes are then at most 500 mm from 0.
    pub fn stays(&self, step: Step) -> bool
        requires { is_on_board self.now ≡ true }
        ensures { result ≡ item_stays step.dx step.dy self.now }
    {
        if !place_stays(self, step) {
            return false;
        }
        shapes_stay(self, step.doubled())
    }
}

// ---- points

/// A polygon has corners, as a step of a proof. It does nothing.
fn has_points(core: &Core)
    ensures { HasPoints core.now }
{
    if let Core::Area(polygon) = core {
        let _corners = polygon.corners();
    }
}

/// The first of these parts, if there is one, has points. It does nothing.
fn first_of_parts(parts: &[Part])
    ensures { FirstHasPoints parts.now }
{
    if let Some(part) = parts.first() {
        has_points(&part.shape.core);
    }
}

/// The hole, if there is one, has points. It does nothing.
fn first_of_hole(hole: &Option<Hole>)
    ensures { FirstHasPoints (hole_parts hole.now) }
{
    if let Some(hole) = hole {
        has_points(&hole.shape.core);
    }
}

impl Item {
    /// That the first part of the item, if it has one, has points, as a step of a proof. It does nothing.
    pub fn first_has_points(&self)
        ensures { FirstHasPoints (parts_of self.now) }
    {
        first_of_parts(self.copper.as_slice());
        first_of_hole(&self.hole);
        let (first, second) = self.what.parts();
        first_of_parts(first);
        first_of_parts(second);
    }
}

// ---- moving

fn shift_part(part: &mut Part, by: Shift)
    requires { core_stays by.dx by.dy part.old.shape.core ≡ true }
    ensures { IsShiftedPart by.dx by.dy part.old part.new }
{
    part.shape.shift(by);
}

fn shift_parts(parts: &mut [Part], by: Shift)
    requires { list_all (λ part. core_stays by.dx by.dy part.shape.core) parts.old ≡ true }
    ensures { AreShifted by.dx by.dy parts.old parts.new }
{
    for part in parts.iter_mut() {
        shift_part(part, by);
    }
}

impl Parts {
    fn shift(&mut self, by: Shift)
        requires { list_all (λ part. core_stays by.dx by.dy part.shape.core) self.old ≡ true }
        ensures { AreShifted by.dx by.dy self.old self.new }
    {
        shift_parts(self.list.as_mut_slice(), by);
    }
}

fn shift_hole(hole: &mut Option<Hole>, by: Shift)
    requires { list_all (λ part.
        core_stays by.dx by.dy part.shape.core) (hole_parts hole.old) ≡ true }
    ensures { HoleIsShifted by.dx by.dy hole.old hole.new }
{
    if let Some(hole) = hole {
        hole.shape.shift(by);
    }
}

impl What {
    fn shift(&mut self, by: Shift)
        requires { list_all (λ part.
            core_stays by.dx by.dy part.shape.core) (kind_parts self.old) ≡ true }
        ensures { KindIsShifted by.dx by.dy self.old self.new }
    {
        match self {
            What::Edge { lines } => lines.inner.shift(by),
            What::Area { shape, .. } => shift_part(&mut shape.inner, by),
            What::Body { front, back, .. } => {
                front.inner.shift(by);
                back.inner.shift(by);
            }
            What::Track { .. }
            | What::Via { .. }
            | What::Pad { .. }
            | What::Graphic
            | What::Fill
            | What::Note { .. } => {}
        }
    }
}

impl Item {
    /// Moves the item with all its parts. That it lies on the board and stays there was tested before, as [`Item::stays`] does.
    pub fn shift(&mut self, step: Step)
        requires on_board { is_on_board self.old ≡ true }
        requires stays { item_stays step.dx step.dy self.old ≡ true }
        ensures { IsShiftedItem step.dx step.dy self.old self.new }
    {
        let by = step.doubled();
        self.x += step.dx;
        self.y += step.dy;
        self.copper.shift(by);
        shift_hole(&mut self.hole, by);
        self.what.shift(by);
    }
}
