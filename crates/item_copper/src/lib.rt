//! The copper of items: lists of parts, and whether they meet and how near they are to each other, on a layer and
//! on all; and their other parts in the same way.
//!
//! Shapes are in half nanometres; the distances that are kept are nanometres. No call takes memory.
#![tactic(auto)]

mod layers;
mod measured_pair;
mod side;
mod touch;

pub use layers::share_layer;
pub use measured_pair::{is_empty, sides_gap, sides_meet};
pub use side::{ListedParts, SinglePart, SomeParts};
pub use touch::{copper_meets, touches};
