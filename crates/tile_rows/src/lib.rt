//! The tiles of a board as the work of workers: what each of them gives is its rows.
#![tactic(auto)]

pub mod laws;
mod testing;
mod work;

pub use testing::test_tiles;
pub use work::{AskedTiles, Tiles};
