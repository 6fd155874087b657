//! Shapes by a core and the radius around it.

ghost use Rattle.std.specs.Prelude.{◌≡◌};
ghost use Rattle.plain_types.specs.Lengths.{is_length};
ghost use Rattle.part_read.specs.Figures.{radius_of, no_radius, around};

use crate::radii::Radius;
use board_items::Nm;
use geo_seg::{Core, Shape};
use plain_types::is_length;

/// The radius, unless it is above 500 mm in diameter, or negative.
pub fn radius_of(width: Nm) -> Option<Radius>
    ensures { result ≡ radius_of width }
{
    if !is_length(width) {
        return None;
    }
    Some(Radius { value: width })
}

/// All that lies within the radius of the core.
pub fn around(radius: Radius, core: Core) -> Shape
    ensures { result ≡ around radius core }
{
    Shape {
        core,
        radius: radius.value,
    }
}

/// No radius.
pub fn no_radius() -> Radius
    ensures { result ≡ no_radius }
{
    Radius { value: 0 }
}
