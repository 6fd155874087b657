//! The facts of the items of a board, found one after the other or side by side. How far checks of it reach is found in
//! `rule_pick`, and can be called here too.
//!
//! Which facts an item has is defined in `rule_pick`, in its `specs/FactsOf`; the reach in its `specs/Reach`.
#![tactic(auto)]

mod all;
mod classes;
mod equality;
mod kinds;
pub mod laws;
mod layers;
mod meets;
mod names;
mod near;
mod of_item;
mod threads;

pub use all::{all_facts, facts, facts_near};
pub use equality::same;
pub use meets::{area_met, courtyard_met};
pub use rule_pick::reach;
pub use threads::all_facts_by;
