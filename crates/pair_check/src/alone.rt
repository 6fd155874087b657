//! Single items that break nothing, told by their lengths where no rule asks anything of single items.

ghost use Rattle.std.specs.Prelude.{◌≡◌, ◌≤ℤ◌, ℤ, true, IfSome, Some};
ghost use Rattle.cond_lang.specs.declared.kind.Family.{Family};
ghost use Rattle.cond_lang.specs.CheckKinds.{family};
ghost use Rattle.kind_subjects.specs.LimitedLengths.{length_of};
ghost use Rattle.pair_check.specs.Alone.{IsEnough, ForbidsNone, AreEnoughAlone, BreaksNothing};
ghost use Rattle.pair_check.specs.Pairs.{Deciders};
ghost use Rattle.pair_check.specs.CheckViews.{deciders_of};

use crate::asked::some_asks;
use crate::view::CheckView;
use board_items::{Item, Nm};
use cond_lang::Kind;
use kind_subjects::{counted, length_of};
use rule_pick::board_minimum;

/// From which lengths on a single item breaks no limit, in nanometres: of a track its width, of a via its size, of a hole its smaller
/// size, and of the copper round the hole of a via twice its width.
#[derive(Clone, Copy)]
pub struct Enough {
    width: Nm,
    diameter: Nm,
    hole: Nm,
    ring: Nm,
}

/// The length that is enough for the kind, where no rule asks for it: the board's minimum.
fn enough_for(view: &CheckView, kind: Kind) -> Option<Nm>
    requires { family kind ≡ Family.Limits }
    ensures { IfSome result (IsEnough (deciders_of view.now) kind) }
{
    if some_asks(view.rules, kind) {
        return None;
    }
    let least = board_minimum(view.classes.mins(), kind);
    Some(counted(kind, least))
}

/// Whether the kind is known to forbid nothing: no rule asks for it.
fn forbids_none(view: &CheckView, kind: Kind) -> bool
    requires { family kind ≡ Family.Forbids }
    ensures { result ≡ true → ForbidsNone (deciders_of view.now) kind }
{
    !some_asks(view.rules, kind)
}

/// The lengths from which on a single item of this board breaks nothing; `None` where a rule asks something of single items.
pub fn enough_alone(view: &CheckView) -> Option<Enough>
    ensures { IfSome result (AreEnoughAlone (deciders_of view.now)) }
{
    if !forbids_none(view, Kind::Disallow) || !forbids_none(view, Kind::Assertion) {
        return None;
    }
    Some(Enough {
        width: enough_for(view, Kind::TrackWidth)?,
        diameter: enough_for(view, Kind::ViaDiameter)?,
        hole: enough_for(view, Kind::HoleSize)?,
        ring: enough_for(view, Kind::AnnularWidth)?,
    })
}

/// True only where the length that the kind limits is at least `least`, or the item has no such length.
#[inline(always)]
fn has_enough(kind: Kind, least: &Nm, item: &Item) -> bool
    ensures { result ≡ true → (n : ℤ) → length_of kind item.now ≡ Some n → least.now ≤ℤ n }
{
    match length_of(kind, item) {
        Some(n) => *least <= n,
        None => true,
    }
}

impl Enough {
    /// Whether the item has enough of all that it has. Only what it answers yes to is sure to break nothing.
    pub fn is_had_by(&self, item: &Item) -> bool
        ensures { (d : Deciders) → AreEnoughAlone d self.now → result ≡ true
            → BreaksNothing d item.now }
    {
        if !has_enough(Kind::TrackWidth, &self.width, item) {
            return false;
        }
        if !has_enough(Kind::ViaDiameter, &self.diameter, item) {
            return false;
        }
        if !has_enough(Kind::HoleSize, &self.hole, item) {
            return false;
        }
        has_enough(Kind::AnnularWidth, &self.ring, item)
    }
}
