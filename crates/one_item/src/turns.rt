//! Quarter turns.

ghost use Rattle.std.specs.Prelude.{◌≡◌, ◌<◌, ◌≤◌, unsigned_abs};
ghost use Rattle.one_item.specs.QuarterTurns.{turned};

use crate::item::Nm;

/// The point after so many quarter turns about 0, counterclockwise on a screen, where y grows downward. `quarter` is 0
/// to 3, and the point is at most 1,000 m from 0 in x and in y.
pub fn turn(x: Nm, y: Nm, quarter: u32) -> (Nm, Nm)
    requires quarter { quarter < 4 }
    requires x { unsigned_abs x ≤ 1000000000000 }
    requires y { unsigned_abs y ≤ 1000000000000 }
    ensures { result ≡ turned x y quarter }
{
    match quarter {
        0 => (x, y),
        1 => (y, -x),
        2 => (-x, -y),
        _ => (-y, x),
    }
}
