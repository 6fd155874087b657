//! The list of a pad, and that of a footprint, which is the same but for spans and for where it is, gives the same items, carried. Laws of
//! the readers' definitions alone: no function here does anything.
#![tactic(auto)]

pub mod footprint_laws;
pub mod pad_laws;
