//! Anchors.

ghost use Rattle.ratsnest.specs.CoordinateRange.{IsInReach};

/// A place of an item at which links of its net may end. `id` is the item's and `number` counts its anchors from 0; `group` is
/// the number of the item's group among those of the net. `x` and `y` are nanometres, at most 500,000,000 from 0.
#[derive(Clone, Copy, Debug, PartialEq, Eq, Drop)]
pub struct Anchor {
    pub id: u32,
    pub number: u32,
    pub group: u32,
    pub x: i64,
    pub y: i64,
    ghost x_in_range: { IsInReach x },
    ghost y_in_range: { IsInReach y },
}
