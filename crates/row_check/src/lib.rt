//! The rows of a board: what its items and pairs of items break, tile by tile or all at once. Those of one pair and of one item
//! are those of `pair_check`.
//!
//! Distances are whole nanometres; shapes are compared in half nanometres, with no rounding.
#![tactic(auto)]

mod asks;
mod batch;
mod blocks;
mod changed;
mod copper;
pub mod laws;
pub mod near;
mod operands;
pub mod order;
mod sound;
mod tile;
mod whole;

pub use asks::PairAsks;
pub use batch::TileRows;
pub use changed::is_changed;
pub use kind_subjects::RowLayer;
pub use pair_check::{CheckView, PairRows, Row, Steps, test_item, test_pair};
use plain_types::crosses_threads;
pub use sound::soundness;
pub use tile::{test_tile, test_tile_by};
pub use whole::{all_rows, ids_of, push_batches, push_singles, rows_of, rows_of_changed};

fn asks_cross() {
    crosses_threads::<PairAsks>();
}
