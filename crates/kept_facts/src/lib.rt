//! Facts that are kept over an edit: only those of items that were added, put back or moved, and of items to which an area or a
//! body of the edit gives another name than before, are found again.
#![tactic(auto)]

mod asking;
pub mod laws;
mod marks;
mod updating;

pub use marks::marks_before;
pub use updating::update_facts;
