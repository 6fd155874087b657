//! What each command of a script would do alone: `try BOARD SCRIPT N`.
#![tactic(auto)]

mod marked_rows;
mod sinks;
mod trial_results;
mod trials;

pub use trials::try_each;
