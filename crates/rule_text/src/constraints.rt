//! The constraints of a rule, each of one kind, and whether the condition of their rule is asked.

ghost use Rattle.std.specs.Prelude.{◌≡◌, false, true, map};
ghost use Rattle.sexpr_read.specs.TreeViews.{tree_of};
ghost use Rattle.cond_lang.specs.CheckKinds.{is_assertion};
ghost use Rattle.cond_lang.specs.Rules.{plain_constraint};
ghost use Rattle.rule_text.specs.RuleLimits.{kind_named};
ghost use Rattle.rule_text.specs.RulesOf.{limited, banned, claimed, forbidding, constraint_in, is_other, is_constraint, is_asked};
ghost use Rattle.rule_text.specs.RuleWalk.{has_kind};
ghost use Rattle.rule_text.specs.RuleForms.{clauses};
ghost use Rattle.rule_text.specs.ShortRuleTrees.{IsShort};
ghost use Rattle.rule_text.specs.RuleValues.{Gives};

use crate::bans::bans_in;
use crate::conds::{claim_at, cond_in};
use crate::error::RuleError;
use crate::forms::{clauses, name_at};
use crate::lengths::{limits_in, nm_of};
use cond_lang::{Constraint, Disallow, Family, Kind};
use list_read::has_head;
use sexpr_read::Node;
use std::alloc::Global;

/// The kinds that a constraint may name.
const CONSTRAINED: [Kind; 13] = [
    Kind::Clearance,
    Kind::HoleClearance,
    Kind::HoleToHole,
    Kind::EdgeClearance,
    Kind::CourtyardClearance,
    Kind::TrackWidth,
    Kind::ViaDiameter,
    Kind::HoleSize,
    Kind::AnnularWidth,
    Kind::Disallow,
    Kind::PhysicalClearance,
    Kind::PhysicalHoleClearance,
    Kind::Assertion,
];

/// The kind that an atom names, if a constraint may name it.
#[tactic(auto, unfolding(crate::specs::RuleLimits::kind_named))]
pub(crate) fn kind_named(atom: Node<'_, '_>) -> Option<Kind>
    ensures { result ≡ kind_named (tree_of atom.entry) }
{
    for kind in CONSTRAINED {
        if atom.is(kind.name().as_bytes()) {
            return Some(kind);
        }
    }
    None
}

/// A constraint with the lengths of its clause.
fn limited(kind: Kind, clause: Node<'_, '_>) -> Result<Constraint, RuleError>
    requires { is_assertion kind ≡ false }
    ensures { Gives plain_constraint result (limited kind (tree_of clause.entry)) }
{
    let limits = limits_in(clause)?;
    Ok(Constraint {
        kind,
        least: nm_of(limits.least),
        most: nm_of(limits.most),
        bans: Disallow::NONE,
        claim: None,
    })
}

/// A constraint that bans what its words say.
fn banned(kind: Kind, clause: Node<'_, '_>) -> Result<Constraint, RuleError>
    requires { is_assertion kind ≡ false }
    ensures { Gives plain_constraint result (banned kind (tree_of clause.entry)) }
{
    let bans = bans_in(clause)?;
    Ok(Constraint {
        kind,
        least: None,
        most: None,
        bans,
        claim: None,
    })
}

/// An assertion of its one part.
fn claimed(alloc: Global, kind: Kind, clause: Node<'_, '_>) -> Result<Constraint, RuleError>
    requires kind { is_assertion kind ≡ true }
    requires short { IsShort (tree_of clause) }
    ensures { Gives plain_constraint result (claimed kind (tree_of clause.entry)) }
{
    let atom = claim_at(clause)?;
    let claim = cond_in(alloc, atom)?;
    Ok(Constraint {
        kind,
        least: None,
        most: None,
        bans: Disallow::NONE,
        claim: Some(claim),
    })
}

/// A constraint that forbids, by a claim or by words of what is banned.
fn forbidding(alloc: Global, kind: Kind, clause: Node<'_, '_>) -> Result<Constraint, RuleError>
    requires { IsShort (tree_of clause) }
    ensures { Gives plain_constraint result (forbidding kind (tree_of clause.entry)) }
{
    if kind.is_assertion() {
        claimed(alloc, kind, clause)
    } else {
        banned(kind, clause)
    }
}

/// What `(constraint NAME ..)` asks of its kind.
#[tactic(auto, unfolding(crate::specs::RulesOf::constraint_in))]
pub(crate) fn constraint_in(
    alloc: Global,
    kind: Kind,
    clause: Node<'_, '_>,
) -> Result<Constraint, RuleError>
    requires { IsShort (tree_of clause) }
    ensures { Gives plain_constraint result (constraint_in kind (tree_of clause.entry)) }
{
    match kind.family() {
        Family::Meets | Family::Keeps | Family::Limits => limited(kind, clause),
        Family::Forbids => forbidding(alloc, kind, clause),
    }
}

/// Whether a constraint of this kind is among them.
pub(crate) fn has_kind(kind: Kind, constraints: &[Constraint]) -> bool
    ensures { result ≡ has_kind kind (map plain_constraint constraints.now) }
{
    for constraint in constraints {
        if constraint.kind.number() == kind.number() {
            return true;
        }
    }
    false
}

/// Whether it is a constraint of a name that no rule may have.
#[tactic(auto, unfolding(crate::specs::RulesOf::is_other))]
fn is_other(clause: Node<'_, '_>) -> bool
    ensures { result ≡ is_other (tree_of clause.entry) }
{
    match name_at(clause) {
        Ok(name) => kind_named(name).is_none(),
        Err(_) => false,
    }
}

fn is_constraint(clause: Node<'_, '_>) -> bool
    ensures { result ≡ is_constraint (tree_of clause.entry) }
{
    has_head(clause, b"constraint")
}

/// Whether a rule's condition is read: the rule has no constraint, or one whose name is that of a kind.
pub(crate) fn is_asked(form: Node<'_, '_>) -> bool
    ensures { result ≡ is_asked (clauses (tree_of form.entry)) }
{
    let mut constrained = false;
    for clause in clauses(form) {
        if is_constraint(clause) {
            if !is_other(clause) {
                return true;
            }
            constrained = true;
        }
    }
    !constrained
}
