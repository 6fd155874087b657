//! What programs share that try cases.
//!
//! A case of a call is two lines, the call with its argument, and `= ` with its answer. [`try_files`] reads the files that
//! the words of the command line name, makes each call and prints how it was answered. A case of a run has an [`Outcome`].
//! `docs/CASES.md` has the formats.
#![tactic(auto)]

mod fault;
mod lines;
mod numbers;
mod outcome;
mod texts;
mod threads;

pub use fault::Fault;
pub use lines::{Counts, try_files};
pub use numbers::{number, numbers_of, parts_of, small};
pub use outcome::{Outcome, difference};
pub use texts::{add, first_word, quoted, refused, text_of, told};
pub use threads::crosses_threads;
