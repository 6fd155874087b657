//! What a run writes, and how it ends: reports of sessions, the lines that stand in their place, and statuses.
#![tactic(auto)]

mod breaks;
mod lines;
mod reporting;
mod status;

pub use breaks::{Break, or_break, tiles_of};
pub use lines::{write_refused, write_refused_step, write_refused_trial};
pub use reporting::write_report;
pub use status::{Status, after, session_status, usage, write_stop};
