//! How much is asked of two pieces of copper at most.

ghost use Rattle.std.specs.Prelude.{◌≡◌, ◌≤ℤ◌, true, Bool, map};
ghost use Rattle.net_class.specs.ClassValues.{mins_of};
ghost use Rattle.cond_lang.specs.declared.kind.Kind.{Kind as PlainKind};
ghost use Rattle.cond_lang.specs.Rules.{plain_rule};
ghost use Rattle.rule_pick.specs.Deciding.{minimum};
ghost use Rattle.rule_pick.specs.Reach.{is_of_copper};
ghost use Rattle.rule_pick.specs.CopperDemands.{AskAtMost, ItAsksAtMost};

use crate::asking::{Between, raised_by_rules};
use crate::facts::Facts;
use crate::minimums::greater;
use cond_lang::Rule;
use net_class::Mins;
use plain_types::Length;

/// What the least values of the board ask of any two pieces of copper at most.
fn asked_by_board(mins: &Mins) -> Length
    ensures { (micro : Bool) (kind : PlainKind) → is_of_copper kind ≡ true
        → minimum (mins_of mins.now) micro kind ≤ℤ result.nm }
{
    let copper = Length {
        nm: mins.min_clearance,
    };
    let hole = Length {
        nm: mins.min_hole_clearance,
    };
    let holes = Length {
        nm: mins.min_hole_to_hole,
    };
    greater(greater(copper, hole), holes)
}

/// What rules and the least values of the board ask of any two pieces of copper at most. It takes no memory.
pub fn asked_of_copper(mins: &Mins, rules: &[Rule]) -> Length
    ensures { AskAtMost (map plain_rule rules.now) (mins_of mins.now) result.nm }
{
    raised_by_rules(asked_by_board(mins), Between::Coppers, rules)
}

/// The length, or what the item or the class of its net asks of copper where that is greater. It takes no memory.
pub fn with_own(n: Length, facts: &Facts) -> Length
    ensures old { n.nm ≤ℤ result.nm }
    ensures asked { ItAsksAtMost facts.now result.nm }
{
    let class = Length {
        nm: facts.class_clearance,
    };
    let with_class = greater(n, class);
    match facts.local.get() {
        None => with_class,
        Some(nm) => greater(with_class, Length { nm }),
    }
}
