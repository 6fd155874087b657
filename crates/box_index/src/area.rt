//! Rectangles of tiles.

ghost use Rattle.std.specs.Prelude.{◌≤◌};

/// All tiles between two columns and two rows, these included: what a box meets.
#[derive(Clone, Copy)]
pub struct Area {
    pub(crate) left: usize,
    pub(crate) top: usize,
    pub(crate) right: usize,
    pub(crate) bottom: usize,
    ghost wide: { left ≤ right },
    ghost high: { top ≤ bottom },
    ghost right_within: { right ≤ 124 },
    ghost bottom_within: { bottom ≤ 124 },
}
