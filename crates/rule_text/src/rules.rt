//! The rules of a rule file.

ghost use Rattle.std.specs.Prelude.{◌≡◌, map, IfOk};
ghost use Rattle.cond_lang.specs.Rules.{plain_rule};
ghost use Rattle.rule_text.specs.RuleValues.{plain_rules};

use crate::notes::{RuleNotes, copy_notes};
use cond_lang::Rule;
use std::alloc::AllocError;
use std::marker::Model;

/// Rules, in the order of the text. Contracts see the list.
#[derive(Drop)]
pub struct RuleList {
    list: Vec<Rule>,
}

impl Model for RuleList {
    ghost use Rattle.std.specs.Prelude.{List};
    ghost use Rattle.std.specs.Coded.{codes};
    ghost use Rattle.cond_lang.specs.contracts.cond.Cond as cond;
    ghost use Rattle.cond_lang.specs.declared.constraints.Rule.{Rule};

    ghost Value = { List Rule };

    ghost coded = { Prim.hlevel (codes, cond.the_row.coded) };

    ghost view = { λ rules. rules.list.items };
}

impl RuleList {
    /// These rules. It takes no memory.
    pub fn of(list: Vec<Rule>) -> RuleList
        ensures { result ≡ list.items }
    {
        RuleList { list }
    }

    /// The rules in their order.
    pub fn as_slice(&self) -> &[Rule]
        ensures { result.now ≡ self.now }
    {
        &self.list
    }

    /// Equal rules.
    fn copy(&self) -> Result<RuleList, AllocError>
        ensures { IfOk result (λ rules. map plain_rule rules ≡ map plain_rule self.now) }
    {
        let mut list = Vec::new(*self.list.allocator());
        for rule in &self.list {
            list.push(rule.copy()?)?;
        }
        Ok(RuleList { list })
    }
}

/// The rules of a file, and its constraints whose name is that of no kind: they are told as not checked.
#[derive(Drop)]
pub struct Rules {
    pub rules: RuleList,
    pub notes: RuleNotes,
}

impl Rules {
    /// Equal rules and notes.
    pub fn copy(&self) -> Result<Rules, AllocError>
        ensures { IfOk result (λ rules. plain_rules rules ≡ plain_rules self.now) }
    {
        Ok(Rules {
            rules: self.rules.copy()?,
            notes: copy_notes(&self.notes)?,
        })
    }
}
