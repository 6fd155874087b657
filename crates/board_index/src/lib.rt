//! The index of a board's items, each under its bounds, and the tiles that hold an item.
#![tactic(auto)]

mod index;
mod laws;

pub use index::index_of;
pub use laws::{one_list_of_tiles, tiles_held};
