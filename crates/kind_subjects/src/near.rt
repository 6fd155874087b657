//! How near two items are to each other.

ghost use Rattle.std.specs.Prelude.{◌≡◌, ◌<ℤ◌, pos, true, IsTrue, ◌↔◌, MatchOption};
ghost use Rattle.plain_types.specs.Lengths.{IsLength};
ghost use Rattle.geo_seg.specs.Distances.{IsGap};
ghost use Rattle.kind_subjects.specs.MeasuredPair.{measured_pairs, apart_by, may_not_meet, KeepAt, MeetAt, TooNear};
ghost use Rattle.kind_subjects.specs.PairSides.{measured_pairs_of};

use crate::layer::RowLayer;
use crate::measure::{MeasuredPairs, gap_at, meet_at};
use crate::subject::{OperandKinds, Subject, subject_of};
use board_items::{Item, Nm};
use cond_lang::Kind;

#[inline(always)]
fn apart_by(operand_kinds: OperandKinds) -> bool
    ensures { result ≡ apart_by operand_kinds }
{
    match operand_kinds {
        OperandKinds::Yards => true,
        OperandKinds::Coppers
        | OperandKinds::HolesAndCopper
        | OperandKinds::Holes
        | OperandKinds::EdgesAndCopper
        | OperandKinds::Areas => false,
    }
}

/// Whether what faces each other may not touch either, as courtyards may not.
#[inline(always)]
pub fn may_not_meet(kind: Kind) -> bool
    ensures { result ≡ may_not_meet kind }
{
    match subject_of(kind) {
        Subject::Sides(operand_kinds) => apart_by(operand_kinds),
        Subject::Length(_) | Subject::Whole => false,
    }
}

/// The gap on the layer, where the two are nearer than `least`, or meet where they may not.
#[inline(always)]
pub fn gap_if_near(
    faced: &MeasuredPairs<'_>,
    kind: Kind,
    layer: RowLayer,
    a: &Item,
    b: &Item,
    least: Nm,
) -> Option<Nm>
    requires same { measured_pairs_of faced.now ≡ measured_pairs kind layer a.now b.now }
    requires least { IsLength least }
    ensures { MatchOption result (¬ (TooNear kind layer a.now b.now least))
        (λ gap. TooNear kind layer a.now b.now least
        × IsGap (KeepAt kind layer a.now b.now) least gap) }
{
    let apart = may_not_meet(kind);
    // nothing has to be kept
    if least == 0 && !apart {
        return None;
    }
    let gap = gap_at(faced, kind, layer, a, b, least);
    if gap < least {
        return Some(gap);
    }
    if apart && meet_at(faced, kind, layer, a, b) {
        Some(gap)
    } else {
        None
    }
}

/// Whether `least` is more than nothing and the two keep it on the layer, so that they do not meet there either.
#[inline(always)]
pub fn are_kept(
    faced: &MeasuredPairs<'_>,
    kind: Kind,
    layer: RowLayer,
    a: &Item,
    b: &Item,
    least: Nm,
) -> bool
    requires same { measured_pairs_of faced.now ≡ measured_pairs kind layer a.now b.now }
    requires least { IsLength least }
    ensures keep { IsTrue result ↔ ((pos 0 <ℤ least) × KeepAt kind layer a.now b.now least) }
    ensures meet { result ≡ true → ¬ (MeetAt kind layer a.now b.now) }
{
    least != 0 && gap_at(faced, kind, layer, a, b, least) >= least
}
