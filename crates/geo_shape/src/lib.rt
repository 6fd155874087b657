//! How near shapes are to each other, with no rounding: tracks, vias, pads and fills alike.
//!
//! Coordinates, radii and distances are whole numbers of half nanometres; a gap is one of
//! nanometres.
#![tactic(auto)]

mod distances;

pub use distances::{apart, gap, meet};
