//! What is drawn around the anchor of a custom pad.

ghost use Rattle.std.specs.Prelude.{◌≡◌, [], All};
ghost use Rattle.plain_types.specs.Lengths.{is_length};
ghost use Rattle.part_read.specs.Figures.{IsDrawable};
ghost use Rattle.pad_read.specs.CustomPads.{primitive_fits, primitives_fit};

use part_read::{Drawing, Figure};
use plain_types::is_length;
use std::alloc::Global;
use std::marker::Model;

/// Drawings, all of which can be drawn. Contracts see the list.
#[derive(Drop)]
pub struct Primitives {
    list: Vec<Drawing>,
}

impl Model for Primitives {
    ghost use Rattle.std.specs.Prelude.{List, All};
    ghost use Rattle.part_read.specs.declared.figures.Drawing.{Drawing};
    ghost use Rattle.plain_types.specs.Lengths.{is_length};
    ghost use Rattle.part_read.specs.Figures.{IsDrawable};

    ghost Value = { List Drawing };

    ghost view = { λ p. p.list.items };

    ghost invariant = { λ p. All IsDrawable p.list.items };
}

impl Primitives {
    /// No drawing.
    pub(crate) fn none(alloc: Global) -> Primitives
        ensures { result ≡ [] }
    {
        Primitives {
            list: Vec::new(alloc),
        }
    }

    /// These drawings.
    pub(crate) fn of(list: Vec<Drawing>) -> Primitives
        requires { All IsDrawable list.items }
        ensures { result ≡ list.items }
    {
        Primitives { list }
    }

    /// The drawings in their order.
    pub(crate) fn as_slice(&self) -> &[Drawing]
        ensures same { result.now ≡ self.now }
        ensures drawable { All IsDrawable result.now }
    {
        &self.list
    }
}

/// Whether the width is a length.
fn fits(width: i64) -> bool
    ensures { result ≡ is_length width }
{
    is_length(width)
}

/// Whether its width, and of a circle the diameter of its disc with the width, is at most 500 mm.
fn primitive_fits(drawing: &Drawing) -> bool
    requires { IsDrawable drawing.now }
    ensures { result ≡ primitive_fits drawing.now }
{
    match drawing.figure {
        Figure::Circle(_, radius) => fits(2 * radius + drawing.width),
        _ => fits(drawing.width),
    }
}

/// Whether the width of each drawing, and of a circle the diameter of its disc with the width, is
/// at most 500 mm.
pub(crate) fn primitives_fit(drawings: &[Drawing]) -> bool
    requires { All IsDrawable drawings.now }
    ensures { result ≡ primitives_fit drawings.now }
{
    for drawing in drawings {
        if !primitive_fits(drawing) {
            return false;
        }
    }
    true
}
