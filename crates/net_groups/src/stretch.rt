//! How item boxes are spread over tiles.

ghost use Rattle.std.specs.Prelude.{◌≤ℤ◌, pos, neg_ℤ};

/// How item boxes are moved and then stretched.
#[derive(Clone, Copy)]
pub(crate) struct Stretch {
    pub(crate) x: i64,
    pub(crate) y: i64,
    pub(crate) times: i64,
    ghost x_from: { neg_ℤ (pos 1500000000) ≤ℤ x },
    ghost x_to: { x ≤ℤ pos 1500000000 },
    ghost y_from: { neg_ℤ (pos 1500000000) ≤ℤ y },
    ghost y_to: { y ≤ℤ pos 1500000000 },
    ghost times_from: { pos 1 ≤ℤ times },
    ghost times_to: { times ≤ℤ pos 1000 },
}
