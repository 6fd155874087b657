//! Rows that are kept over a change: those that it leaves, and those of what is tested again.
#![tactic(auto)]

pub mod laws;
mod updating;

pub use updating::update_rows;
