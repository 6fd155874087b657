//! The lengths of a constraint: the least, the greatest, and one between that has no effect.

ghost use Rattle.std.specs.Prelude.{◌≡◌};
ghost use Rattle.plain_types.specs.Lengths.{IsLengthIfSome};
ghost use Rattle.sexpr_read.specs.TreeViews.{tree_of};
ghost use Rattle.list_read.specs.ListHeads.{place};
ghost use Rattle.rule_text.specs.RuleForms.{clauses};
ghost use Rattle.rule_text.specs.RuleLimits.{length_in, with_least, with_wished, with_most, with_limit, with_limits, unlimited};
ghost use Rattle.rule_text.specs.RuleValues.{nm_in, nm_if, plain_limits, Gives};

use crate::error::RuleError;
use crate::forms::{atom_at, bad, clauses};
use crate::limits::Limits;
use exact_dec::{Nm, with_unit};
use list_read::{has_head, place};
use plain_types::{Length, is_length};
use sexpr_read::Node;

/// BadNumber, at this atom.
fn bad_number(atom: Node<'_, '_>) -> RuleError
    ensures { result ≡ RuleError.BadNumber (place (tree_of atom.entry)) }
{
    RuleError::BadNumber { at: place(atom) }
}

/// A length with its unit, from 0 to 500 mm.
#[tactic(auto, unfolding(crate::specs::RuleLimits::length_in))]
fn length_in(atom: Node<'_, '_>) -> Result<Length, RuleError>
    ensures { nm_in result ≡ length_in (tree_of atom.entry) }
{
    let Some(text) = atom.atom() else {
        return Err(bad_number(atom));
    };
    match with_unit(text) {
        Ok(nm) if is_length(nm) => Ok(Length { nm }),
        _ => Err(bad_number(atom)),
    }
}

/// Its nanometres, if there is one.
pub(crate) fn nm_of(length: Option<Length>) -> Option<Nm>
    ensures value { result ≡ nm_if length }
    ensures in_range { IsLengthIfSome result }
{
    match length {
        Some(length) => Some(length.nm),
        None => None,
    }
}

#[tactic(auto, unfolding(crate::specs::RuleLimits::with_least))]
fn with_least(limits: Limits, part: Node<'_, '_>) -> Result<Limits, RuleError>
    ensures { Gives plain_limits result (with_least (plain_limits limits) (tree_of part.entry)) }
{
    if limits.least.is_some() {
        return Ok(limits);
    }
    let length = length_in(atom_at(part)?)?;
    Ok(Limits {
        least: Some(length),
        wished: limits.wished,
        most: limits.most,
    })
}

#[tactic(auto, unfolding(crate::specs::RuleLimits::with_wished))]
fn with_wished(limits: Limits, part: Node<'_, '_>) -> Result<Limits, RuleError>
    ensures { Gives plain_limits result (with_wished (plain_limits limits) (tree_of part.entry)) }
{
    if limits.wished {
        return Ok(limits);
    }
    length_in(atom_at(part)?)?;
    Ok(Limits {
        least: limits.least,
        wished: true,
        most: limits.most,
    })
}

#[tactic(auto, unfolding(crate::specs::RuleLimits::with_most))]
fn with_most(limits: Limits, part: Node<'_, '_>) -> Result<Limits, RuleError>
    ensures { Gives plain_limits result (with_most (plain_limits limits) (tree_of part.entry)) }
{
    if limits.most.is_some() {
        return Ok(limits);
    }
    let length = length_in(atom_at(part)?)?;
    Ok(Limits {
        least: limits.least,
        wished: limits.wished,
        most: Some(length),
    })
}

/// One of `(min V)`, `(opt V)` and `(max V)`. What stands between least and most has no effect.
#[tactic(auto, unfolding(crate::specs::RuleLimits::with_limit))]
fn with_limit(limits: Limits, part: Node<'_, '_>) -> Result<Limits, RuleError>
    ensures { Gives plain_limits result (with_limit (plain_limits limits) (tree_of part.entry)) }
{
    if has_head(part, b"min") {
        with_least(limits, part)
    } else if has_head(part, b"opt") {
        with_wished(limits, part)
    } else if has_head(part, b"max") {
        with_most(limits, part)
    } else {
        Err(bad(part))
    }
}

/// The lengths of `(constraint NAME ..)`.
#[tactic(auto, unfolding(crate::specs::RuleLimits::with_limits))]
pub(crate) fn limits_in(clause: Node<'_, '_>) -> Result<Limits, RuleError>
    ensures { Gives plain_limits result (with_limits unlimited (clauses (tree_of clause.entry))) }
{
    let mut limits = Limits {
        least: None,
        wished: false,
        most: None,
    };
    for part in clauses(clause) {
        limits = with_limit(limits, part)?;
    }
    Ok(limits)
}
