//! One item of a board: what it is, its parts and the room that they take up, and how it is copied and moved.
//!
//! Positions and sizes are whole nanometres; the points and radii of shapes are half nanometres.
#![tactic(auto)]

mod boxed;
mod copying;
mod extents;
mod item;
mod kinds;
pub mod laws;
mod parts;
mod positions;
mod shifting;
mod turns;

pub use boxed::Boxed;
pub use item::{About, Bans, Hole, Item, Nm, What};
pub use parts::{Part, Parts};
use plain_types::crosses_threads;
pub use positions::is_near;
pub use shifting::Step;
pub use turns::turn;

fn items_cross() {
    crosses_threads::<Item>();
}

fn parts_cross() {
    crosses_threads::<Parts>();
}
