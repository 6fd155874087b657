//! Why an item or the text of a board is refused: the name, the number and the place of each reason.
#![tactic(auto)]

mod errors;

pub use errors::{BoardError, ItemError};
