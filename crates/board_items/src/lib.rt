//! A board: its copper layers, its nets, and a list of items whose ids rise.
//!
//! Positions and sizes are whole nanometres; the points and radii of shapes are half nanometres.
#![tactic(auto)]

mod back;
mod board;
mod copying;
mod found;
pub mod laws;
mod moves;
mod notes;
mod places;
mod slots;
mod tags;
mod units;
mod walk;

pub use back::Kept;
pub use board::Board;
pub use board_errors::{BoardError, ItemError};
pub use copper_layers::LayerSet;
pub use found::Found;
pub use one_item::{About, Bans, Boxed, Hole, Item, Nm, Part, Parts, What, is_near, turn};
use plain_types::crosses_threads;
pub use walk::{BoardIter, BoardNets, UnitIter};

fn all_cross() {
    crosses_threads::<Board>();
}

fn kept_cross() {
    crosses_threads::<Kept>();
}

fn walks_cross() {
    crosses_threads::<BoardIter<'_>>();
}

fn unit_walks_cross() {
    crosses_threads::<UnitIter<'_>>();
}
