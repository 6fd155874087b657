//! A rule of which some clauses were read.

use crate::notes::RuleNote;
use cond_lang::{Cond, Constraint, RuleLayer, Severity};

/// A rule so far: its number, what its clauses have said, and the notes of all rules up to here.
#[derive(Drop)]
pub(crate) struct Draft {
    pub(crate) number: u32,
    pub(crate) layer: Option<RuleLayer>,
    pub(crate) severity: Option<Severity>,
    pub(crate) cond: Option<Cond>,
    pub(crate) constraints: Vec<Constraint>,
    pub(crate) notes: Vec<RuleNote>,
}
