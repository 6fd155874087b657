//! How far units are moved.

ghost use Rattle.std.specs.Prelude.{◌≤◌, unsigned_abs};

/// How far a unit was moved, in nanometres: all its moves together, which may be more than fit into 64 bits.
#[derive(Clone, Copy)]
pub(crate) struct Distance {
    pub dx: i128,
    pub dy: i128,
    // As far as 2^32 - 1 moves by distances of 64 bits.
    pub ghost near_x: { unsigned_abs dx ≤ 39614081247908796759917199360 },
    pub ghost near_y: { unsigned_abs dy ≤ 39614081247908796759917199360 },
}
