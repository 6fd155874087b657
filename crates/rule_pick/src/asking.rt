//! The greatest length that rules ask of two items.

ghost use Rattle.std.specs.Prelude.{◌≡◌, ◌∷◌, [], map};
ghost use Rattle.std.specs.List.{flat_map};
ghost use Rattle.std.specs.Option.{option_map};
ghost use Rattle.cond_lang.specs.Rules.{plain_constraint, plain_rule};
ghost use Rattle.rule_pick.specs.Raised.{IsRaised};
ghost use Rattle.rule_pick.specs.Reach.{is_between_two, is_of_copper, is_between, asked_between, distances_between, one_if};

use crate::minimums::greater;
use cond_lang::{Constraint, Family, Kind, Rule};
use plain_types::Length;

/// Of which two items a distance is asked.
#[derive(Clone, Copy)]
pub(crate) enum Between {
    /// Of any two.
    Items,
    /// Of two pieces of copper.
    Coppers,
}

/// The first length, or the other where that is greater.
pub(crate) fn raised(n: Length, other: Length) -> Length
    ensures { IsRaised n.nm (other.nm ∷ []) result.nm }
{
    greater(other, n)
}

/// The first length, or the other where there is one and it is greater.
pub(crate) fn raised_if(n: Length, other: Option<Length>) -> Length
    ensures { IsRaised n.nm (one_if (option_map (λ l. l.nm) other)) result.nm }
{
    match other {
        None => n,
        Some(other) => raised(n, other),
    }
}

/// Whether the kind asks two items to keep a distance.
fn is_between_two(kind: Kind) -> bool
    ensures { result ≡ is_between_two kind }
{
    match kind.family() {
        Family::Keeps => true,
        Family::Meets | Family::Limits | Family::Forbids => false,
    }
}

/// Whether the kind asks two pieces of copper to keep a distance.
fn is_of_copper(kind: Kind) -> bool
    ensures { result ≡ is_of_copper kind }
{
    match kind {
        Kind::Clearance
        | Kind::HoleClearance
        | Kind::HoleToHole
        | Kind::PhysicalClearance
        | Kind::PhysicalHoleClearance => true,
        Kind::Short
        | Kind::EdgeClearance
        | Kind::CourtyardClearance
        | Kind::Keepout
        | Kind::TrackWidth
        | Kind::ViaDiameter
        | Kind::HoleSize
        | Kind::AnnularWidth
        | Kind::Disallow
        | Kind::Assertion => false,
    }
}

/// Whether the kind asks two such items to keep a distance.
fn is_between(between: Between, kind: Kind) -> bool
    ensures { result ≡ is_between between kind }
{
    match between {
        Between::Items => is_between_two(kind),
        Between::Coppers => is_of_copper(kind),
    }
}

/// The least value of the constraint, where its kind asks two such items to keep a distance.
fn asked_between(between: Between, constraint: &Constraint) -> Option<Length>
    ensures { one_if (option_map (λ l. l.nm) result)
        ≡ asked_between between (plain_constraint constraint.now) }
{
    if is_between(between, constraint.kind) {
        match constraint.least {
            None => Some(Length { nm: 0 }),
            Some(nm) => Some(Length { nm }),
        }
    } else {
        None
    }
}

fn raised_by_constraints(n: Length, between: Between, constraints: &[Constraint]) -> Length
    ensures { IsRaised n.nm
        (flat_map (asked_between between) (map plain_constraint constraints.now)) result.nm }
{
    let mut greatest = n;
    for constraint in constraints {
        greatest = raised_if(greatest, asked_between(between, constraint));
    }
    greatest
}

/// The length, or the greatest that the rules ask of two such items where that is greater.
pub(crate) fn raised_by_rules(n: Length, between: Between, rules: &[Rule]) -> Length
    ensures { IsRaised n.nm
        (flat_map (distances_between between) (map plain_rule rules.now)) result.nm }
{
    let mut greatest = n;
    for rule in rules {
        greatest = raised_by_constraints(greatest, between, rule.constraints.as_slice());
    }
    greatest
}
