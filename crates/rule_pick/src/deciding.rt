//! Which rule decides.

ghost use Rattle.std.specs.Prelude.{◌≡◌, map, false, IsTrue, MatchOption};
ghost use Rattle.std.specs.Option.{option_map, option_copied};
ghost use Rattle.plain_types.specs.Limits.{AreCounted};
ghost use Rattle.cond_lang.specs.Rules.{plain_constraint, plain_rule};
ghost use Rattle.cond_lang.specs.Trees.{cond_tree_of};
ghost use Rattle.rule_pick.specs.Deciding.{asked_by, Asks, is_outer, admits, holds_either_way, applies, matches_rule, IsDeciding, NoneMatches};

use crate::facts::Facts;
use crate::meaning::holds;
use cond_lang::{Cond, Constraint, Kind, Rule, RuleLayer};

/// A rule that decides, with its number and what it asks.
#[derive(Clone, Copy)]
pub(crate) struct Decided<'r> {
    pub(crate) place: u32,
    pub(crate) rule: &'r Rule,
    pub(crate) constraint: &'r Constraint,
}

/// What the rule asks of the kind.
fn asked_by(kind: Kind, rule: &Rule) -> Option<&Constraint>
    ensures { option_map (λ c. plain_constraint c.now) result
        ≡ asked_by kind (plain_rule rule.now) }
{
    for constraint in rule.constraints.as_slice() {
        if constraint.kind.number() == kind.number() {
            return Some(constraint);
        }
    }
    None
}

fn is_outer(layer: u32) -> bool
    ensures { result ≡ is_outer layer }
{
    layer == 0 || layer == 31
}

/// Whether the rule acts on the layer.
fn admits(rule_layer: RuleLayer, layer: Option<u32>) -> bool
    ensures { result ≡ admits rule_layer layer }
{
    match (rule_layer, layer) {
        (RuleLayer::Any, _) => true,
        (RuleLayer::Outer, Some(layer)) => is_outer(layer),
        (RuleLayer::Inner, Some(layer)) => !is_outer(layer),
        (RuleLayer::One(own), Some(layer)) => own == layer,
        (_, None) => false,
    }
}

fn holds_either_way(cond: &Cond, a: &Facts, b: Option<&Facts>) -> bool
    ensures { result ≡ holds_either_way (cond_tree_of cond.now) a.now (option_copied b.entry) }
{
    match b {
        None => holds(cond, a, None),
        Some(other) => holds(cond, a, Some(other)) || holds(cond, other, Some(a)),
    }
}

fn applies(cond: &Option<Cond>, a: &Facts, b: Option<&Facts>) -> bool
    ensures { result ≡ applies (option_map cond_tree_of cond.now) a.now (option_copied b.entry) }
{
    match cond {
        None => true,
        Some(cond) => holds_either_way(cond, a, b),
    }
}

/// What the rule asks of the kind, where it matches.
#[tactic(auto, unfolding(crate::specs::Deciding::matches_rule))]
fn matching<'r>(
    kind: Kind,
    a: &Facts,
    b: Option<&Facts>,
    layer: Option<u32>,
    rule: &'r Rule,
) -> Option<&'r Constraint>
    ensures { MatchOption result
        (matches_rule kind a.now (option_copied b.entry) layer (plain_rule rule.now) ≡ false)
        (λ c. IsTrue (matches_rule kind a.now (option_copied b.entry) layer (plain_rule rule.now))
        × Asks kind (plain_rule rule.now) (plain_constraint c.now)) }
{
    let constraint = asked_by(kind, rule)?;
    if admits(rule.layer, layer) && applies(&rule.cond, a, b) {
        Some(constraint)
    } else {
        None
    }
}

/// The rule that decides: the last one that matches.
pub(crate) fn deciding<'r>(
    rules: &'r [Rule],
    kind: Kind,
    a: &Facts,
    b: Option<&Facts>,
    layer: Option<u32>,
) -> Option<Decided<'r>>
    requires { AreCounted rules.now }
    ensures { MatchOption result
        (NoneMatches (map plain_rule rules.now) kind a.now (option_copied b.entry) layer)
        (λ d. IsDeciding (map plain_rule rules.now) kind a.now (option_copied b.entry) layer d.place
        (plain_rule d.rule.now)
        × Asks kind (plain_rule d.rule.now) (plain_constraint d.constraint.now)) }
{
    let mut left = rules.len();
    while 0 < left {
        left -= 1;
        let rule = &rules[left];
        if let Some(constraint) = matching(kind, a, b, layer, rule) {
            return Some(Decided {
                place: left as u32,
                rule,
                constraint,
            });
        }
    }
    None
}
