//! A side of a footprint, as far as its courtyard goes: the figures, the lines, and whether a curve
//! stands among them.

ghost use Rattle.std.specs.Prelude.{◌≡◌, ◌++◌, ◌∷◌, [], OnOk, All};
ghost use Rattle.part_read.specs.Figures.{IsDrawable};

use part_read::{Drawing, RawPoint};
use std::alloc::{AllocError, Global};
use std::marker::Model;

/// A line of a courtyard from one point to another, as they are read: on the board or off it.
#[derive(Clone, Copy, Debug, PartialEq, Eq, Drop)]
pub struct RawSegment {
    pub a: RawPoint,
    pub b: RawPoint,
}

/// Drawings, relative to the footprint, all of which can be drawn. Contracts see the list.
#[derive(Drop)]
pub struct Drawings {
    list: Vec<Drawing>,
}

impl Model for Drawings {
    ghost use Rattle.std.specs.Prelude.{List, All};
    ghost use Rattle.part_read.specs.declared.figures.Drawing.{Drawing};
    ghost use Rattle.part_read.specs.Figures.{IsDrawable};

    ghost Value = { List Drawing };

    ghost view = { λ d. d.list.items };

    ghost invariant = { λ d. All IsDrawable d.list.items };
}

impl Drawings {
    /// No drawing.
    pub(crate) fn new(alloc: Global) -> Drawings
        ensures { result ≡ [] }
    {
        Drawings {
            list: Vec::new(alloc),
        }
    }

    /// Puts a drawing behind the others.
    pub(crate) fn push(&mut self, drawing: Drawing) -> Result<(), AllocError>
        requires { IsDrawable drawing }
        ensures { OnOk result (self.new ≡ self.old ++ drawing ∷ []) }
    {
        self.list.push(drawing)?;
        Ok(())
    }

    /// The drawings in their order.
    pub(crate) fn as_slice(&self) -> &[Drawing]
        ensures same { result.now ≡ self.now }
        ensures drawable { All IsDrawable result.now }
    {
        &self.list
    }
}

/// Lines. Contracts see the list.
#[derive(Drop)]
pub struct RawSegments {
    list: Vec<RawSegment>,
}

impl Model for RawSegments {
    ghost use Rattle.std.specs.Prelude.{List};
    ghost use Rattle.footprint_read.specs.declared.sides.RawSegment.{RawSegment};

    ghost Value = { List RawSegment };

    ghost view = { λ c. c.list.items };
}

impl RawSegments {
    /// No line.
    pub(crate) fn new(alloc: Global) -> RawSegments
        ensures { result ≡ [] }
    {
        RawSegments {
            list: Vec::new(alloc),
        }
    }

    /// Puts a line behind the others.
    pub(crate) fn push(&mut self, segment: RawSegment) -> Result<(), AllocError>
        ensures { OnOk result (self.new ≡ self.old ++ segment ∷ []) }
    {
        self.list.push(segment)?;
        Ok(())
    }

    /// The lines in their order.
    pub(crate) fn as_slice(&self) -> &[RawSegment]
        ensures { result.now ≡ self.now }
    {
        &self.list
    }
}

/// What was read of a courtyard.
#[derive(Drop)]
pub struct CourtSide {
    /// It has a curve.
    pub curved: bool,
    pub drawings: Drawings,
    pub lines: RawSegments,
}

impl CourtSide {
    ghost use Rattle.std.specs.Prelude.{◌≡◌};
    ghost use Rattle.footprint_read.specs.Courtyards.{empty_side, side_then, curve_side};

    /// A side of which nothing was read.
    pub(crate) fn new(alloc: Global) -> CourtSide
        ensures { result ≡ empty_side }
    {
        CourtSide {
            curved: false,
            drawings: Drawings::new(alloc),
            lines: RawSegments::new(alloc),
        }
    }

    /// Notes that it has a curve.
    #[tactic(auto, using(crate::proofs::Appending::side_curved))]
    pub(crate) fn note_curve(&mut self)
        ensures { self.new ≡ side_then self.old curve_side }
    {
        self.curved = true;
    }
}
