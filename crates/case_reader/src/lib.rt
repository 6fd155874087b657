//! Cases of runs of the program and of calls, read from the lines of their files: what each gives, and how it is to end.
//!
//! A file is taken apart into the [`Line`]s of its cases, and [`read_case`] reads the lines of each. `docs/CASES.md` has the format.
#![tactic(auto)]

mod case;
mod cuts;
mod fault;
mod reader;
mod shorthands;

pub use case::{Case, Given, Hold, Shorter};
pub use cuts::Cut;
pub use fault::{Fault, Reason};
pub use reader::{Line, first_case, lines_of, read_case};
pub use shorthands::Shorthands;
