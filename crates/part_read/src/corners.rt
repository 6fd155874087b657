//! The corners of an outline: three raw points or more, as they are read.

ghost use Rattle.std.specs.Prelude.{◌≡◌, ◌≤◌, All, length};
ghost use Rattle.part_read.specs.Placements.{IsReadRawPoint};

use crate::numbers::RawPoint;
use std::marker::Model;

/// Three raw points or more, each at most 10^12 nanometres from 0 in x and in y. Contracts see the list
/// of them.
#[derive(Drop)]
pub struct Corners {
    raw_points: Vec<RawPoint>,
}

impl Model for Corners {
    ghost use Rattle.std.specs.Prelude.{◌≤◌, List, All, length};
    ghost use Rattle.part_read.specs.declared.numbers.RawPoint.{RawPoint};
    ghost use Rattle.part_read.specs.Placements.{IsReadRawPoint};

    ghost Value = { List RawPoint };

    ghost view = { λ c. c.raw_points.items };

    ghost invariant = { λ c. (3 ≤ length c.raw_points.items) × All IsReadRawPoint c.raw_points.items };
}

impl Corners {
    /// The corners at these raw points.
    pub fn of(raw_points: Vec<RawPoint>) -> Corners
        requires enough { 3 ≤ length raw_points.items }
        requires within { All IsReadRawPoint raw_points.items }
        ensures { result ≡ raw_points.items }
    {
        Corners { raw_points }
    }

    /// The raw points in their order.
    pub fn as_slice(&self) -> &[RawPoint]
        ensures same { result.now ≡ self.now }
        ensures enough { 3 ≤ length result.now }
        ensures within { All IsReadRawPoint result.now }
    {
        &self.raw_points
    }
}
