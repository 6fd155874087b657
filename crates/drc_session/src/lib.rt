//! Sessions: a board that is edited and stays checked. After each command its rows and its nets are those of the board as it now is, and
//! only the tiles are rechecked that the command affected.
#![tactic(auto)]

mod applied;
mod applying;
mod checking;
mod copying;
mod editing;
mod indexing;
pub mod laws;
mod looking;
mod opening;
mod parts;
mod reaching;
mod replacing;
mod session;

pub use applied::Applied;
pub use drc_state::{Change, EditError};
pub use net_groups::NetPart;
use plain_types::crosses_threads;
pub use session::Session;

fn sessions_cross() {
    crosses_threads::<Session>();
}

fn applied_crosses() {
    crosses_threads::<Applied>();
}
