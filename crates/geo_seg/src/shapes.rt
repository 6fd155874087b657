// Shapes: a core and all that lies within a radius of it.

ghost use Rattle.std.specs.Prelude.{◌≤ℤ◌, pos};

use crate::points::Seg;
use crate::polygon::Poly;
use std::mem::size_of;

/// What lies in the middle of a shape: a segment, or a polygon with its inside.
#[derive(Drop)]
pub enum Core {
    Line(Seg),
    Area(Poly),
}

/// All points within `radius` of the core. The radius is from 0 to 500,000,000 half nanometres.
#[derive(Drop)]
pub struct Shape {
    pub core: Core,
    pub radius: i64,
    ghost radius_from: { pos 0 ≤ℤ radius },
    ghost radius_to: { radius ≤ℤ pos 500000000 },
}

// A board has far more segments than polygons: what only polygons need is to stand elsewhere.
const _: () = prove!(size_of::<Shape>() == 48);
