//! What the words of the command line call for.
//!
//! Those of a check are read by `clap`, those behind `undo`, `try`, `steal` and `write` by hand. Words that call for
//! nothing give the line that says how the program is called.
#![tactic(auto)]

mod calls;
mod words;

pub use calls::{Call, Numbered, Scripted, call_of, check_call};
pub use words::{BoardSource, Request};
