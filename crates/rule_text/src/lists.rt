//! The rules and notes of the forms up to here.

use crate::notes::RuleNote;
use cond_lang::Rule;

#[derive(Drop)]
pub(crate) struct Lists {
    pub(crate) rules: Vec<Rule>,
    pub(crate) notes: Vec<RuleNote>,
}
