//! Commands and steps, one after another, and after each the report of the board as it then is: `BOARD ..` and
//! `undo BOARD SCRIPT`.
#![tactic(auto)]

mod commands;
mod steps;

pub use commands::check;
pub use steps::undo;
