//! Reports of a board, whole and short. Each is put together in one buffer, and goes out to a sink in as few writes
//! as its length asks for. No call takes memory.
#![tactic(auto)]

mod writing;

pub use writing::{Tiles, write_rows_alone, write_short, write_whole};
