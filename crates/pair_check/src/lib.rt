//! What one item or two items of a board break, by the rules, the classes of a project and the board's least values.
//!
//! Distances are whole nanometres; shapes are compared in half nanometres, with no rounding.
#![tactic(auto)]

mod alone;
mod asked;
mod found;
pub mod laws;
mod pair;
mod pair_rows;
mod passed;
mod row;
mod same;
mod single;
mod steps;
mod view;

pub use alone::{Enough, enough_alone};
pub use asked::Asked;
use board_items::Board;
use cond_lang::Rule;
pub use found::Single;
use net_class::Classes;
pub use pair::{test_pair, test_two};
pub use pair_rows::PairRows;
pub use passed::are_copper;
use plain_types::crosses_threads;
pub use row::Row;
use rule_pick::FactsById;
pub use single::{single_at, test_item};
pub use steps::Steps;
pub use view::CheckView;

fn rows_cross() {
    crosses_threads::<Row>();
}

// What a view lends:

fn boards_cross<'a>() {
    crosses_threads::<&'a Board>();
}

/// The facts that a view lends may be shared by threads.
fn facts_cross<'a>() {
    crosses_threads::<&'a FactsById>();
}

fn rules_cross<'a>() {
    crosses_threads::<&'a [Rule]>();
}

fn classes_cross<'a>() {
    crosses_threads::<&'a Classes>();
}
