//! Pads, read from their lists: shapes, sizes, custom pads and holes, how they stand on the board,
//! and the items that they give; and the position, angle and clearance of a list, which footprints
//! have as well.
#![tactic(auto)]

mod copper;
mod customs;
mod forms;
mod frames;
mod halves;
mod head;
mod holes;
mod labels;
mod local_placements;
mod pad;
mod pads;
mod places;
mod primitives;
mod rounded_rects;
mod sizes;
mod turning;
mod words;

pub use head::Head;
pub use local_placements::{LocalPlacement, clearance_of, local_placement_of, quarters_of};
pub use pad::pad_of;
