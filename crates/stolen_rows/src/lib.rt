//! All rows of a board under no rules, by workers that steal tiles from each other. How many workers there are and what they steal
//! changes no row.
#![tactic(auto)]

mod stealing;
mod whole;

pub use whole::rows_by_stealing;
