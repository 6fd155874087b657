// Polygons, as lists of corners.

ghost use Rattle.std.specs.Prelude.{◌≡◌, ◌≤◌, length, take, drop, true, IfOk, IfSome};
ghost use Rattle.std.specs.List.{AllZip, list_all};
ghost use Rattle.geo_seg.specs.Shifts.{IsShiftedPoint, point_stays};
ghost use Rattle.geo_seg.specs.Boxes.{IsLeastBox, FitsCore};
ghost use Rattle.geo_seg.specs.Inside.{IsInside, outline};
ghost use Rattle.geo_seg.specs.RunBoxes.{IsRunBox};

use crate::boxes::Bounds;
use crate::points::Point;
use crate::runs::{Indexed, box_of};
use crate::shifts::{Shift, shift_outline};
use std::alloc::{AllocError, Global};
use std::marker::Model;

/// The corners, alone or with boxes. Those of many corners stand apart with theirs, so that a polygon
/// takes no more room than a segment where either may stand.
#[derive(Drop)]
pub enum Outline {
    Plain(Vec<Point>),
    Runs(Box<Indexed>),
}

/// A polygon of three corners or more; an edge joins the last to the first. Contracts see the list
/// of its corners.
#[derive(Drop)]
pub struct Poly {
    outline: Outline,
}

impl Model for Poly {
    ghost use Rattle.std.specs.Prelude.{List};
    ghost use Rattle.geo_seg.specs.declared.points.Point.{Point};
    ghost use Rattle.geo_seg.specs.PolygonCaches.{corners_of, IsKept};

    ghost Value = { List Point };

    ghost view = { λ p. corners_of p.outline };

    ghost invariant = { λ p. IsKept p.outline };
}

impl Poly {
    /// The polygon with these corners, of which there are three or more.
    pub fn of(corners: Vec<Point>) -> Poly
        requires { 3 ≤ length corners.items }
        ensures { result ≡ corners.items }
    {
        Poly {
            outline: Outline::Plain(corners),
        }
    }

    /// The polygon of three or more corners. One of more than 32 also gets the boxes of its runs of edges, so that
    /// questions about it pass over all that lies far away.
    pub fn indexed(alloc: Global, corners: Vec<Point>) -> Result<Poly, AllocError>
        requires { 3 ≤ length corners.items }
        ensures { IfOk result (λ poly. poly ≡ corners.items) }
    {
        if corners.len() <= 32 {
            return Ok(Poly::of(corners));
        }
        let outline = Outline::Runs(Box::new(alloc, Indexed::of(alloc, corners)?)?);
        Ok(Poly { outline })
    }

    /// Its corners, of which there are three or more.
    pub fn corners(&self) -> &[Point]
        ensures same { result.now ≡ self.now }
        ensures enough { 3 ≤ length result.now }
    {
        match &self.outline {
            Outline::Plain(corners) => corners,
            Outline::Runs(index) => &index.corners,
        }
    }

    /// Gives its corners back.
    pub fn into_corners(self) -> Vec<Point>
        ensures same { result.items ≡ self }
        ensures enough { 3 ≤ length result.items }
    {
        match self.outline {
            Outline::Plain(corners) => corners,
            Outline::Runs(index) => Box::into_inner(index).corners,
        }
    }

    /// Moves it by so many half nanometres.
    pub(crate) fn shift(&mut self, by: Shift)
        requires { list_all (point_stays by.dx by.dy) self.old ≡ true }
        ensures { AllZip (IsShiftedPoint by.dx by.dy) self.old self.new }
    {
        match &mut self.outline {
            Outline::Plain(corners) => shift_outline(corners, by),
            Outline::Runs(index) => index.shift(by),
        }
    }

    /// The least box that holds it.
    pub fn bounds(&self) -> Bounds
        ensures least { IsLeastBox (IsInside self.now) result }
        ensures fits { FitsCore result }
    {
        match &self.outline {
            Outline::Plain(corners) => box_of(corners),
            Outline::Runs(index) => index.bounds(),
        }
    }

    /// A box that holds the `size` edges from edge `low` on, where one is kept: the edge that leads to
    /// the first corner is edge 0, and `size` is `FIRST_RUN`, `SECOND_RUN`, `THIRD_RUN` or `FOURTH_RUN`.
    pub fn run_box(&self, low: usize, size: usize) -> Option<Bounds>
        ensures { IfSome result (λ b. IsRunBox (take size (drop low (outline self.now))) b) }
    {
        match &self.outline {
            Outline::Plain(_) => None,
            Outline::Runs(index) => index.run_box(low, size),
        }
    }
}
