//! Exact distances of points and segments, with no rounding, and the plain types of shapes.
//!
//! Coordinates, radii and distances are whole numbers of half nanometres.
#![tactic(auto)]

mod boxes;
mod extents;
mod frames;
mod gaps;
mod guesses;
mod near;
mod points;
mod polygon;
mod runs;
mod shapes;
mod shifts;
mod vectors;

pub use boxes::Bounds;
pub use gaps::seg_gap;
pub use near::{point_apart, point_within, seg_apart, seg_meet, seg_within};
pub use points::{Point, Seg};
pub use polygon::Poly;
pub use runs::{FIRST_RUN, FOURTH_RUN, RUN_PARTS, SECOND_RUN, THIRD_RUN, corner_box};
pub use shapes::{Core, Shape};
pub use shifts::Shift;
