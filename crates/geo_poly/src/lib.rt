//! Which points a polygon holds, and how near polygons are to segments and to each other, with no
//! rounding. A polygon is all points on its edges or inside, however its edges run: they may touch
//! or cross each other, and run twice along the bridges that join holes to the outer outline.
//!
//! Coordinates and distances are whole numbers of half nanometres.
#![tactic(auto)]

mod besides;
mod edges;
mod gaps;
mod parity;
mod polygons;
mod runs;
mod walks;

pub use polygons::{
    holds, poly_apart, poly_gap, poly_seg_apart, poly_seg_gap, poly_seg_within, poly_within,
};
