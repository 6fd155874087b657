//! States of what is edited: what a command makes of one, which changes are inverse, and which tiles are rechecked.
#![tactic(auto)]

mod change;
mod error;
pub mod laws;
mod planning;

pub use change::{Change, Edit, change_of, edit_in};
pub use error::EditError;
use plain_types::crosses_threads;
pub use planning::edit_of;

fn all_cross() {
    crosses_threads::<EditError>();
}
