//! Workers that take numbers from their own deques, steal from each other's, test each, and give the answers in the order of the
//! numbers.
//!
//! Any number of workers gives the same answers, in every interleaving. Nothing waits: a try that is lost to another worker gives
//! nothing and is not repeated.
#![tactic(auto)]

mod crew;
mod deal;
mod job;
pub mod laws;
mod member;
mod pool;
mod rest;
mod rule;
mod share;
mod stolen;

pub use pool::run_stolen;
pub use stolen::Stolen;
