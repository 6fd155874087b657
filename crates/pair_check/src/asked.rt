//! For which kinds two items are asked to keep a distance at all.

ghost use Rattle.std.specs.Prelude.{◌≡◌, false};
ghost use Rattle.pair_check.specs.Asked.{asks, some_asks, AsksNothing, IsNoteOf};
ghost use Rattle.pair_check.specs.CheckViews.{deciders_of};

use crate::view::CheckView;
use cond_lang::{Kind, Rule};
use kind_subjects::may_not_meet;
use rule_pick::has_default;

/// Of each kind for which neither items nor classes ask, whether a rule or the board does.
#[derive(Clone, Copy)]
pub struct Asked {
    pub hole_clearance: bool,
    pub hole_to_hole: bool,
    pub edge_clearance: bool,
    pub physical_clearance: bool,
    pub physical_hole_clearance: bool,
}

/// Nothing is ruled out. It serves where a single pair is tested.
pub(crate) const ANYTHING: Asked = Asked {
    hole_clearance: true,
    hole_to_hole: true,
    edge_clearance: true,
    physical_clearance: true,
    physical_hole_clearance: true,
};

/// Whether the rule asks something of the kind.
fn asks(rule: &Rule, kind: Kind) -> bool
    ensures { result ≡ asks kind rule.now }
{
    let constraints = rule.constraints.as_slice();
    constraints
        .iter()
        .any(|constraint| constraint.kind.number() == kind.number())
}

/// Whether some rule asks something of the kind.
pub(crate) fn some_asks(rules: &[Rule], kind: Kind) -> bool
    ensures { result ≡ some_asks kind rules.now }
{
    rules.iter().any(|rule| asks(rule, kind))
}

/// Whether anything may be asked of the kind. Only what it answers no to is sure.
fn may_ask(view: &CheckView, kind: Kind) -> bool
    ensures { result ≡ false → AsksNothing (deciders_of view.now) kind }
{
    if may_not_meet(kind) {
        return true;
    }
    has_default(view.classes.mins(), kind) || some_asks(view.rules, kind)
}

impl Asked {
    /// What the board and the rules ask for.
    pub fn by(view: &CheckView) -> Asked
        ensures { IsNoteOf (deciders_of view.now) result }
    {
        Asked {
            hole_clearance: may_ask(view, Kind::HoleClearance),
            hole_to_hole: may_ask(view, Kind::HoleToHole),
            edge_clearance: may_ask(view, Kind::EdgeClearance),
            physical_clearance: may_ask(view, Kind::PhysicalClearance),
            physical_hole_clearance: may_ask(view, Kind::PhysicalHoleClearance),
        }
    }
}
