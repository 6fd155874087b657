//! The radius of a shape, with its range.

ghost use Rattle.std.specs.Prelude.{◌≤ℤ◌, pos};
ghost use Rattle.plain_types.specs.Lengths.{greatest};

use board_items::Nm;

/// A radius in half nanometres, 0 to 500,000,000: that of 500 mm in diameter.
#[derive(Clone, Copy, Debug, Drop)]
pub struct Radius {
    pub value: Nm,
    pub ghost from: { pos 0 ≤ℤ value },
    pub ghost to: { value ≤ℤ greatest },
}
