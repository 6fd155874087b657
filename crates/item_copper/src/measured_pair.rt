//! Two sides that face each other: whether they meet, and how near they are. Distances are nanometres.

ghost use Rattle.std.specs.Prelude.{◌≡◌, ℤ, ◌*ℤ◌, pos, All, IsTrue, ◌↔◌, [], filter};
ghost use Rattle.std.specs.List.{Any};
ghost use Rattle.plain_types.specs.Lengths.{IsLength};
ghost use Rattle.geo_seg.specs.Distances.{Apart, Meet, IsGap};
ghost use Rattle.one_item.specs.CopperPairs.{SomeMeet, Keeps};
ghost use Rattle.item_copper.specs.MeasuredSides.{is_taken, parts_at};

use crate::side::{ListedParts, SomeParts};
use board_items::{Nm, Part};
use geo_seg::Shape;

/// Whether the part is one of those that are listed.
fn takes(listed: &ListedParts<'_>, part: &Part) -> bool
    ensures { result ≡ is_taken listed.now.layer part.now }
{
    match listed.layer {
        None => true,
        Some(layer) => part.layers.has(layer),
    }
}

/// Whether none is listed.
fn lists_none(listed: &ListedParts<'_>) -> bool
    ensures { IsTrue result ↔ (filter (is_taken listed.now.layer) listed.now.parts.now ≡ []) }
{
    for part in listed.parts {
        if takes(listed, part) {
            return false;
        }
    }
    true
}

/// Whether the side has no parts. Shapes are not looked at.
pub fn is_empty(side: &SomeParts<'_>) -> bool
    ensures { IsTrue result ↔ (parts_at side.now ≡ []) }
{
    match side {
        SomeParts::Nothing => true,
        SomeParts::Listed(listed) => lists_none(listed),
        SomeParts::Single(_) => false,
    }
}

/// Whether the shape meets one of those that are listed.
fn meets_listed(shape: &Shape, listed: &ListedParts<'_>) -> bool
    ensures { IsTrue result ↔ Any (λ other.
        Meet shape.now other.shape) (filter (is_taken listed.now.layer) listed.now.parts.now) }
{
    for other in listed.parts {
        if takes(listed, other) && geo_shape::meet(shape, &other.shape) {
            return true;
        }
    }
    false
}

/// Whether the shape meets one of the side.
fn meets_side(shape: &Shape, side: &SomeParts<'_>) -> bool
    ensures { IsTrue result ↔ Any (λ other. Meet shape.now other.shape) (parts_at side.now) }
{
    match side {
        SomeParts::Nothing => false,
        SomeParts::Listed(listed) => meets_listed(shape, listed),
        SomeParts::Single(single) => geo_shape::meet(shape, single.shape),
    }
}

/// Whether one of those that are listed meets one of the side.
fn listed_meet(listed: &ListedParts<'_>, side: &SomeParts<'_>) -> bool
    ensures { IsTrue result ↔ Any (λ part.
        Any (λ other. Meet part.shape other.shape) (parts_at side.now))
        (filter (is_taken listed.now.layer) listed.now.parts.now) }
{
    for part in listed.parts {
        if takes(listed, part) && meets_side(&part.shape, side) {
            return true;
        }
    }
    false
}

/// Whether some of the two sides touch or overlap.
pub fn sides_meet(own: &SomeParts<'_>, others: &SomeParts<'_>) -> bool
    ensures { IsTrue result ↔ SomeMeet (parts_at own.now) (parts_at others.now) }
{
    match own {
        SomeParts::Nothing => false,
        SomeParts::Listed(listed) => listed_meet(listed, others),
        SomeParts::Single(single) => meets_side(single.shape, others),
    }
}

/// `geo_shape::gap`, which takes longer, where the two do not keep the greatest distance.
fn shape_gap(a: &Shape, b: &Shape, most: Nm) -> Nm
    requires { IsLength most }
    ensures { IsGap (λ g. Apart a.now b.now (pos 2 *ℤ g)) most result }
{
    if geo_shape::apart(a, b, 2 * most) {
        most
    } else {
        geo_shape::gap(a, b, most)
    }
}

/// The gap between the shape and those that are listed.
fn gap_to_listed(shape: &Shape, listed: &ListedParts<'_>, most: Nm) -> Nm
    requires { IsLength most }
    ensures { IsGap (λ g. All (λ other.
        Apart shape.now other.shape (pos 2 *ℤ g))
        (filter (is_taken listed.now.layer) listed.now.parts.now)) most result }
{
    let mut gap = most;
    for other in listed.parts {
        if takes(listed, other) {
            gap = shape_gap(shape, &other.shape, gap);
        }
    }
    gap
}

/// The gap between the shape and the side.
fn gap_to_side(shape: &Shape, side: &SomeParts<'_>, most: Nm) -> Nm
    requires { IsLength most }
    ensures { IsGap (λ g. All (λ other.
        Apart shape.now other.shape (pos 2 *ℤ g)) (parts_at side.now)) most result }
{
    match side {
        SomeParts::Nothing => most,
        SomeParts::Listed(listed) => gap_to_listed(shape, listed, most),
        SomeParts::Single(single) => shape_gap(shape, single.shape, most),
    }
}

/// The gap between those that are listed and the side.
fn listed_gap(listed: &ListedParts<'_>, side: &SomeParts<'_>, most: Nm) -> Nm
    requires { IsLength most }
    ensures { IsGap (λ g. All (λ part.
        All (λ other. Apart part.shape other.shape (pos 2 *ℤ g)) (parts_at side.now))
        (filter (is_taken listed.now.layer) listed.now.parts.now)) most result }
{
    let mut gap = most;
    for part in listed.parts {
        if takes(listed, part) {
            gap = gap_to_side(&part.shape, side, gap);
        }
    }
    gap
}

/// The greatest whole number of nanometres from 1 to `most` that the two sides keep, or 0.
pub fn sides_gap(own: &SomeParts<'_>, others: &SomeParts<'_>, most: Nm) -> Nm
    requires { IsLength most }
    ensures { IsGap (Keeps (parts_at own.now) (parts_at others.now)) most result }
{
    match own {
        SomeParts::Nothing => most,
        SomeParts::Listed(listed) => listed_gap(listed, others, most),
        SomeParts::Single(single) => gap_to_side(single.shape, others, most),
    }
}
