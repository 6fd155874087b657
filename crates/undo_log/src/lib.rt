//! The past of what is edited: the states before the present one and those that were undone, which steps lead through them, and that the
//! changes which are kept do. What a history keeps are inverse changes and such that lead on, and no copies of the board.
#![tactic(auto)]

mod error;
mod history;
mod keeping;
pub mod laws;
mod stepping;

pub use error::HistoryError;
pub use history::History;
