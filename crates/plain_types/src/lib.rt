//! What crates of all kinds share: why something is refused, the limits and the range of a length, vectors that contracts see as
//! lists, and what may be shared by threads.
#![tactic(auto)]

mod lengths;
mod limits;
mod lists;
mod reason;
mod shared;

pub use lengths::{GREATEST_LENGTH, Length, is_length};
pub use limits::{MOST_ITEMS, MOST_TEXT, MOST_TILES, MOST_TRIALS, MOST_WORKERS};
pub use lists::{Listed, one};
pub use reason::{Cause, Causes, HasReason, Reason};
pub use shared::crosses_threads;
