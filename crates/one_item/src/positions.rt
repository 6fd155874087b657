//! Where items may stand.

ghost use Rattle.std.specs.Prelude.{◌≡◌, ◌+ℤ◌};
ghost use Rattle.one_item.specs.Positions.{is_near};

use crate::item::Nm;
use plain_types::GREATEST_LENGTH;

/// Whether a coordinate is at most 500 mm from 0.
pub fn is_near(z: Nm) -> bool
    ensures { result ≡ is_near z }
{
    -GREATEST_LENGTH <= z && z <= GREATEST_LENGTH
}

/// Whether the coordinate of a position stays on the board where it changes by so much.
pub(crate) fn stays_near(at: Nm, by: Nm) -> bool
    ensures { result ≡ is_near (at +ℤ by) }
{
    match at.checked_add(by) {
        None => false,
        Some(moved) => is_near(moved),
    }
}
