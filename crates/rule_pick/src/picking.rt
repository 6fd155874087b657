//! What is picked: a clearance of the items' own, what the deciding rule asks, or the default.

ghost use Rattle.std.specs.Prelude.{◌≡◌, ◌≢◌, map};
ghost use Rattle.std.specs.Option.{option_map, option_copied};
ghost use Rattle.plain_types.specs.Limits.{AreCounted};
ghost use Rattle.net_class.specs.ClassValues.{mins_of};
ghost use Rattle.cond_lang.specs.declared.kind.Family.{Family};
ghost use Rattle.cond_lang.specs.CheckKinds.{family};
ghost use Rattle.cond_lang.specs.Rules.{plain_constraint, plain_rule};
ghost use Rattle.rule_pick.specs.Deciding.{greater_if, local_if, local_of, default_least, class_clearance_if, claim_holds, asked_least, pick_least, pick_of_rule, IsPick};
ghost use Rattle.rule_pick.specs.Picks.{pick_of};

use crate::deciding::{Decided, deciding};
use crate::facts::Facts;
use crate::kinds::Source;
use crate::meaning::holds;
use crate::minimums::{greater, minimum};
use crate::picked::Picked;
use cond_lang::{Constraint, Disallow, Kind, Rule, Severity};
use net_class::Mins;
use plain_types::Length;

fn own_clearance(facts: &Facts) -> Option<Length>
    ensures { option_map (λ l. l.nm) result ≡ facts.now.local }
{
    match facts.local.get() {
        None => None,
        Some(nm) => Some(Length { nm }),
    }
}

fn local_if(facts: Option<&Facts>) -> Option<Length>
    ensures { option_map (λ l. l.nm) result ≡ local_if (option_copied facts.entry) }
{
    match facts {
        None => None,
        Some(facts) => own_clearance(facts),
    }
}

/// The greater, where there are two.
fn greater_if(nm: Option<Length>, other: Option<Length>) -> Option<Length>
    ensures { option_map (λ l. l.nm) result
        ≡ greater_if (option_map (λ l. l.nm) nm) (option_map (λ l. l.nm) other) }
{
    match (nm, other) {
        (None, other) => other,
        (Some(nm), None) => Some(nm),
        (Some(nm), Some(other)) => Some(greater(nm, other)),
    }
}

/// The greatest that the items have of their own, where the kind has such values.
fn local_of(kind: Kind, a: &Facts, b: Option<&Facts>) -> Option<Length>
    ensures { option_map (λ l. l.nm) result ≡ local_of kind a.now (option_copied b.entry) }
{
    if kind.has_own() {
        greater_if(own_clearance(a), local_if(b))
    } else {
        None
    }
}

fn class_clearance(facts: &Facts) -> Length
    ensures { result.nm ≡ facts.now.class_clearance }
{
    Length {
        nm: facts.class_clearance,
    }
}

fn class_clearance_if(facts: Option<&Facts>, nm: Length) -> Length
    ensures { result.nm ≡ class_clearance_if (option_copied facts.entry) nm.nm }
{
    match facts {
        None => nm,
        Some(facts) => greater(class_clearance(facts), nm),
    }
}

fn default_least(least: Length, kind: Kind, a: &Facts, b: Option<&Facts>) -> Length
    ensures { result.nm ≡ default_least least.nm kind a.now (option_copied b.entry) }
{
    if kind.has_own() {
        class_clearance_if(b, greater(class_clearance(a), least))
    } else {
        least
    }
}

/// What is picked without a rule: so much at least, as an error.
fn pick_least(source: Source, least: Length) -> Picked
    ensures { pick_of result ≡ pick_least source least.nm }
{
    Picked {
        least: least.nm,
        most: None,
        bans: Disallow::NONE,
        source,
        severity: Severity::Error,
        holds: true,
    }
}

/// What an assertion claims of a alone.
fn claim_holds(constraint: &Constraint, a: &Facts) -> bool
    ensures { result ≡ claim_holds (plain_constraint constraint.now).claim a.now }
{
    match &constraint.claim {
        None => true,
        Some(claim) => holds(claim, a, None),
    }
}

/// The least value of the constraint; 0 where it has none.
fn asked_least(constraint: &Constraint) -> Length
    ensures { result.nm ≡ asked_least (plain_constraint constraint.now) }
{
    match constraint.least {
        None => Length { nm: 0 },
        Some(nm) => Length { nm },
    }
}

/// What the rule asks, but not below the board's minimum.
fn pick_of_rule(least: Length, a: &Facts, decided: Decided<'_>) -> Picked
    ensures { pick_of result
        ≡ pick_of_rule least.nm a.now decided.entry.place (plain_rule decided.entry.rule.now)
        (plain_constraint decided.entry.constraint.now) }
{
    Picked {
        least: greater(asked_least(decided.constraint), least).nm,
        most: decided.constraint.most,
        bans: decided.constraint.bans,
        source: Source::Rule(decided.place),
        severity: decided.rule.severity,
        holds: claim_holds(decided.constraint, a),
    }
}

/// What a kind of check asks for between the items a and b, or of a alone, on a layer or without one.
///
/// A clearance that the items have of their own comes first, for the clearance alone, the greater where both have one. Else
/// the last rule decides that asks something of the kind, acts on the layer, and whose condition holds of a and b one way or
/// the other. Else there is the default of the classes and of the board. A value below the board's minimum of the kind is
/// raised to it, and the source stays. Lengths are in nanometres. It takes no memory.
pub fn pick(
    rules: &[Rule],
    mins: &Mins,
    kind: Kind,
    a: &Facts,
    b: Option<&Facts>,
    layer: Option<u32>,
) -> Picked
    requires few { AreCounted rules.now }
    requires limited { family kind ≢ Family.Meets }
    ensures { IsPick (map plain_rule rules.now) (mins_of mins.now) kind a.now
        (option_copied b.entry) layer (pick_of result) }
{
    let least = minimum(mins, a.micro, kind);
    if let Some(nm) = local_of(kind, a, b) {
        return pick_least(Source::Local, greater(nm, least));
    }
    match deciding(rules, kind, a, b, layer) {
        Some(decided) => pick_of_rule(least, a, decided),
        None => pick_least(Source::Default, default_least(least, kind, a, b)),
    }
}
