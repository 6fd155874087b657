//! A rule, and the list of what it asks.

ghost use Rattle.std.specs.Prelude.{◌≡◌, map, IfOk};
ghost use Rattle.std.specs.Option.{option_map};
ghost use Rattle.cond_lang.specs.Rules.{plain_constraint, plain_rule};
ghost use Rattle.cond_lang.specs.Trees.{cond_tree_of};

use crate::cond::Cond;
use crate::constraint::Constraint;
use crate::rule::{RuleLayer, Severity};
use drc_io::Name;
use std::alloc::{AllocError, Global};
use std::marker::Model;

/// What a rule asks, in the order of the text. Contracts see the list.
#[derive(Drop)]
pub struct Constraints {
    list: Vec<Constraint>,
}

impl Model for Constraints {
    ghost use Rattle.std.specs.Prelude.{List};
    ghost use Rattle.std.specs.Coded.{codes};
    ghost use Rattle.cond_lang.specs.contracts.cond.Cond as cond;
    ghost use Rattle.cond_lang.specs.declared.constraint.Constraint.{Constraint};

    ghost Value = { List Constraint };

    ghost coded = { Prim.hlevel (codes, cond.the_row.coded) };

    ghost view = { λ constraints. constraints.list.items };
}

impl Constraints {
    /// These constraints. It takes no memory.
    pub fn of(list: Vec<Constraint>) -> Constraints
        ensures { result ≡ list.items }
    {
        Constraints { list }
    }

    /// The constraints in their order.
    pub fn as_slice(&self) -> &[Constraint]
        ensures { result.now ≡ self.now }
    {
        &self.list
    }

    /// Equal constraints.
    pub(crate) fn copy(&self) -> Result<Constraints, AllocError>
        ensures { IfOk result
            (λ constraints. map plain_constraint constraints ≡ map plain_constraint self.now) }
    {
        let alloc = *self.list.allocator();
        let mut list = Vec::new(alloc);
        for constraint in &self.list {
            list.push(copy_constraint(alloc, constraint)?)?;
        }
        Ok(Constraints { list })
    }

    fn allocator(&self) -> Global {
        *self.list.allocator()
    }
}

fn copy_cond(alloc: Global, cond: &Option<Cond>) -> Result<Option<Cond>, AllocError>
    ensures { IfOk result (λ copy.
        option_map cond_tree_of copy ≡ option_map cond_tree_of cond.now) }
{
    match cond {
        Some(cond) => Ok(Some(cond.copy(alloc)?)),
        None => Ok(None),
    }
}

fn copy_constraint(alloc: Global, constraint: &Constraint) -> Result<Constraint, AllocError>
    ensures { IfOk result (λ copy. plain_constraint copy ≡ plain_constraint constraint.now) }
{
    Ok(Constraint {
        kind: constraint.kind,
        least: constraint.least,
        most: constraint.most,
        bans: constraint.bans,
        claim: copy_cond(alloc, &constraint.claim)?,
    })
}

/// A rule of a rule file.
#[derive(Drop)]
pub struct Rule {
    pub name: Name,
    pub layer: RuleLayer,
    pub severity: Severity,
    /// Where there is none, the rule holds of all items.
    pub cond: Option<Cond>,
    pub constraints: Constraints,
}

impl Rule {
    /// An equal rule.
    pub fn copy(&self) -> Result<Rule, AllocError>
        ensures { IfOk result (λ rule. plain_rule rule ≡ plain_rule self.now) }
    {
        let alloc = self.constraints.allocator();
        Ok(Rule {
            name: self.name.copy()?,
            layer: self.layer,
            severity: self.severity,
            cond: copy_cond(alloc, &self.cond)?,
            constraints: self.constraints.copy()?,
        })
    }
}
