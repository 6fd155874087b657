//! What the edits of a board leave as it was.
#![tactic(auto)]

pub mod laws;
