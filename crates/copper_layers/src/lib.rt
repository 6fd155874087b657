//! The copper layers of a board: their names, and sets of them.
//!
//! There are at most 32, numbered from 0 as they lie from front to back: F.Cu, In1.Cu to In30.Cu, and B.Cu.
#![tactic(auto)]

mod names;
mod set;

pub use names::layer_name;
pub use set::LayerSet;
