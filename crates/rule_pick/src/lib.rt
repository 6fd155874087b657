//! Which rule decides.
//!
//! The facts of items are what rules may ask of them. [`holds`] says whether a condition holds of them, and [`pick`] which
//! value a kind of check has between two items or of one: a value of their own, that of a rule, or the default of the board.
//! The facts of an item of a board are defined here too, and [`reach`] finds how far checks of a board reach.
//! No call takes memory but those that copy facts or put them by id.
#![tactic(auto)]

mod asking;
mod copper;
mod copying;
mod deciding;
mod facts;
mod facts_by_id;
mod kinds;
pub mod laws;
mod lengths;
mod meaning;
mod minimums;
mod names;
mod picked;
mod picking;
mod reaching;
mod values;

pub use copper::{asked_of_copper, with_own};
pub use facts::Facts;
pub use facts_by_id::FactsById;
pub use kinds::{ItemKind, Source};
pub use lengths::LengthIf;
pub use meaning::holds;
pub use minimums::{board_minimum, has_default};
pub use names::Names;
pub use picked::Picked;
pub use picking::pick;
use plain_types::crosses_threads;
pub use reaching::reach;

fn all_cross() {
    crosses_threads::<Facts>();
    crosses_threads::<FactsById>();
    crosses_threads::<Picked>();
}
