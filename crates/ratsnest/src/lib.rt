//! Links that join the groups of a net at the least sum of squared distances, and a check of such links.
//!
//! Coordinates are nanometres, and squares are square nanometres.
#![tactic(auto)]

mod anchor;
mod area;
mod checking;
mod growing;
mod indexed_anchor;
mod joins;
mod labels;
mod laws;
mod link;
mod links;
mod lists;
mod nearest;
mod places;
mod rounds;
mod span;
mod tree;
mod waiting;

pub use anchor::Anchor;
pub use checking::check_nest;
pub use growing::nest;
pub use laws::{nests_are_least, one_nest};
pub use link::Link;
pub use links::{Links, Nest};
pub use lists::have_nest;
