//! What a board allows at least.

ghost use Rattle.std.specs.Prelude.{◌≡◌, ◌≤ℤ◌, pos, false, if◌then◌else◌};
ghost use Rattle.std.specs.Int.{int_max};
ghost use Rattle.plain_types.specs.Lengths.{IsLength};
ghost use Rattle.net_class.specs.ClassValues.{mins_of};
ghost use Rattle.rule_pick.specs.Deciding.{minimum, has_default};

use board_items::Nm;
use cond_lang::Kind;
use net_class::Mins;
use plain_types::Length;

/// The greater of the two.
pub(crate) fn greater(a: Length, b: Length) -> Length
    ensures value { result.nm ≡ int_max a.nm b.nm }
    ensures first { a.nm ≤ℤ result.nm }
    ensures second { b.nm ≤ℤ result.nm }
{
    if b.nm < a.nm { a } else { b }
}

fn unless(micro: bool, least: Length) -> Length
    ensures { result.nm ≡ (if micro then pos 0 else least.nm) }
{
    if micro { Length { nm: 0 } } else { least }
}

fn of_via(mins: &Mins) -> Length
    ensures { result.nm ≡ (mins_of mins.now).min_via_diameter }
{
    Length {
        nm: mins.min_via_diameter,
    }
}

fn of_hole(mins: &Mins) -> Length
    ensures { result.nm ≡ (mins_of mins.now).min_through_hole_diameter }
{
    Length {
        nm: mins.min_through_hole_diameter,
    }
}

/// The board's minimum of a kind; 0 where it has none.
pub(crate) fn minimum(mins: &Mins, micro: bool, kind: Kind) -> Length
    ensures { result.nm ≡ minimum (mins_of mins.now) micro kind }
{
    match kind {
        Kind::Clearance => Length {
            nm: mins.min_clearance,
        },
        Kind::HoleClearance => Length {
            nm: mins.min_hole_clearance,
        },
        Kind::HoleToHole => Length {
            nm: mins.min_hole_to_hole,
        },
        Kind::EdgeClearance => Length {
            nm: mins.min_copper_edge_clearance,
        },
        Kind::TrackWidth => Length {
            nm: mins.min_track_width,
        },
        Kind::ViaDiameter => unless(micro, of_via(mins)),
        Kind::HoleSize => unless(micro, of_hole(mins)),
        Kind::AnnularWidth => Length {
            nm: mins.min_via_annular_width,
        },
        Kind::Short
        | Kind::CourtyardClearance
        | Kind::Keepout
        | Kind::Disallow
        | Kind::PhysicalClearance
        | Kind::PhysicalHoleClearance
        | Kind::Assertion => Length { nm: 0 },
    }
}

/// The board's minimum of the kind, in nanometres; 0 where it has none. That of a micro via is never greater. Classes and items may ask
/// for more.
pub fn board_minimum(mins: &Mins, kind: Kind) -> Nm
    ensures least { result ≡ minimum (mins_of mins.now) false kind }
    ensures in_range { IsLength result }
{
    minimum(mins, false, kind).nm
}

/// Whether something may be asked of the kind without a rule.
pub fn has_default(mins: &Mins, kind: Kind) -> bool
    ensures { result ≡ has_default (mins_of mins.now) kind }
{
    kind.has_own() || minimum(mins, false, kind).nm != 0
}
