//! Footprints, read from their lists: the body with its courtyards, pads, graphics, edges and
//! notes.
#![tactic(auto)]

mod children;
mod closing;
mod contents;
mod court_lists;
mod courts;
mod footprint;
mod head;
pub mod laws;
mod notes;
mod sides;

pub use footprint::read_footprint;
