//! Rules of a board's design, and the conditions that say of which items they hold.
//!
//! The language of conditions is a part of that of KiCad 7 (PCB editor manual, custom design rules): a text is read into a
//! tree of what it asks. What a text spells is defined in `specs/ConditionGrammar`, and where it is refused in `specs/Conditions`.
#![tactic(auto)]

mod cond;
mod constraint;
mod constraints;
mod error;
mod kind;
pub mod laws;
mod number;
mod reader;
mod rule;
mod scan;
mod terms;
mod values;

pub use cond::{Cond, Conds};
pub use constraint::Constraint;
pub use constraints::{Constraints, Rule};
pub use error::CondError;
pub use kind::{Family, Kind, Special};
use plain_types::crosses_threads;
pub use reader::parse_cond;
pub use rule::{Disallow, RuleLayer, Severity};
pub use terms::{Func, Op, Prop, Side, Term};

fn all_cross() {
    crosses_threads::<Cond>();
    crosses_threads::<CondError>();
    crosses_threads::<Kind>();
    crosses_threads::<Rule>();
}
