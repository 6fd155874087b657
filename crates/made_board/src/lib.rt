//! The generated board: its text, byte by byte.
#![tactic(auto)]

mod made;

pub use made::made_text;
