//! An index of boxes over the tiles of a board: which items are near a tile, which tile answers for a pair of items, and
//! which tiles a change reaches.
//!
//! The board is cut into 125 by 125 tiles of 8 mm, numbered row by row from the top left. Boxes are in half nanometres; the reach is
//! nanometres, so each side of a box is moved out by twice the reach.
#![tactic(auto)]

mod area;
mod boxes;
mod corners;
mod entry;
mod fills;
mod grid;
mod homes;
mod index;
mod kept;
mod lanes;
mod lists;
mod near;
mod parting;
mod shared;
mod spans;
mod walks;

pub use area::Area;
pub use boxes::do_boxes_meet;
pub use entry::Entry;
pub use index::{Nm, TileIndex};
pub use lanes::LANES;
pub use near::{push_ids_near, put_in_order};
use plain_types::crosses_threads;

fn entries_cross() {
    crosses_threads::<Entry>();
}

fn indexes_cross() {
    crosses_threads::<TileIndex>();
}
