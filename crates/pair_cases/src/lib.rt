//! What a report has, found over all items and all pairs, with no tiles and no facts kept, and the lines of each net by themselves.
#![tactic(auto)]

mod all_pairs;
mod nets;
mod pieces;

pub use pieces::{Pieces, pieces_of};
