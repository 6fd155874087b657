//! Rounded rectangles: the shapes of pads that are all within a radius of a box.

ghost use Rattle.std.specs.Prelude.{◌≡◌, ◌≤ℤ◌, ◌+ℤ◌, ◌-ℤ◌, ◌*ℤ◌, pos, IfOk};
ghost use Rattle.plain_types.specs.Lengths.{greatest};
ghost use Rattle.sexpr_read.specs.TreeViews.{tree_of};
ghost use Rattle.part_read.specs.Placements.{IsPlacementRawPoint};
ghost use Rattle.pad_read.specs.PadSizes.{AreRead, least_of};
ghost use Rattle.pad_read.specs.PadShapes.{circle_rounded_rect, rect_rounded_rect, oval_rounded_rect, round_rounded_rect, least_number, share_of, ratio_in, round_radius, turned_rounded_rect, low_point, high_point, rounded_rect_at, IsSmall, IsSizeRatio, IsTwoShares};

use crate::halves::half_point;
use crate::sizes::{RoundedRect, Sizes, least_of};
use board_items::{BoardError, Nm};
use exact_dec::ratio_near;
use geo_seg::{Point, Shape};
use list_read::element;
use part_read::{RawPoint, around, bad_number, box_core, first_atom, radius_of};
use plain_types::GREATEST_LENGTH;
use sexpr_read::Node;
use std::alloc::{AllocError, Global};

/// A disc as wide as the first size.
pub(crate) fn circle_rounded_rect(sizes: Sizes) -> RoundedRect
    requires { AreRead sizes }
    ensures rounded_rect { result ≡ circle_rounded_rect sizes }
    ensures small { IsSmall result }
{
    RoundedRect {
        x: 0,
        y: 0,
        radius: sizes.w,
    }
}

/// A rectangle.
pub(crate) fn rect_rounded_rect(sizes: Sizes) -> RoundedRect
    requires { AreRead sizes }
    ensures rounded_rect { result ≡ rect_rounded_rect sizes }
    ensures small { IsSmall result }
{
    RoundedRect {
        x: sizes.w,
        y: sizes.h,
        radius: 0,
    }
}

/// A line in its middle, drawn as wide as the smaller size.
pub(crate) fn oval_rounded_rect(sizes: Sizes) -> RoundedRect
    requires { AreRead sizes }
    ensures rounded_rect { result ≡ oval_rounded_rect sizes }
    ensures small { IsSmall result }
{
    let least = least_of(sizes);
    RoundedRect {
        x: sizes.w - least,
        y: sizes.h - least,
        radius: least,
    }
}

/// A box that the radius, in half nanometres, makes as large as the rectangle.
pub(crate) fn round_rounded_rect(sizes: Sizes, radius: i64) -> RoundedRect
    requires sizes { AreRead sizes }
    requires radius { IsTwoShares radius }
    ensures rounded_rect { result ≡ round_rounded_rect sizes radius }
    ensures small { IsSmall result }
{
    RoundedRect {
        x: sizes.w - radius,
        y: sizes.h - radius,
        radius,
    }
}

/// A rounded rectangle, turned by so many quarter turns.
pub(crate) fn turned_rounded_rect(quarter: u32, rounded_rect: RoundedRect) -> RoundedRect
    requires { IsSmall rounded_rect }
    ensures turned { result ≡ turned_rounded_rect quarter rounded_rect }
    ensures small { IsSmall result }
{
    if quarter % 2 == 0 {
        return rounded_rect;
    }
    RoundedRect {
        x: rounded_rect.y,
        y: rounded_rect.x,
        radius: rounded_rect.radius,
    }
}

// ---- the radius of a rounded rectangle

/// The smaller size, or 500 mm where it is above that.
fn capped(sizes: Sizes) -> Nm
    requires { AreRead sizes }
    ensures size { result ≡ least_number (least_of sizes) greatest }
    ensures from { pos 0 ≤ℤ result }
    ensures to { result ≤ℤ greatest }
{
    let least = least_of(sizes);
    if least <= GREATEST_LENGTH {
        least
    } else {
        GREATEST_LENGTH
    }
}

/// The ratio times the smaller size, to the nearest nanometre.
#[tactic(auto, unfolding(crate::specs::PadShapes::share_of))]
fn read_share(sizes: Sizes, atom: Node<'_, '_>) -> Result<Nm, BoardError>
    requires { AreRead sizes }
    ensures { result ≡ share_of (least_of sizes) (tree_of atom.entry) }
{
    let Some(text) = atom.atom() else {
        return Err(bad_number(atom));
    };
    match ratio_near(text, capped(sizes)) {
        Ok(share) => Ok(share),
        Err(_) => Err(bad_number(atom)),
    }
}

/// The ratio times the smaller size, to the nearest nanometre, with its range.
fn share_of(sizes: Sizes, atom: Node<'_, '_>) -> Result<Nm, BoardError>
    requires { AreRead sizes }
    ensures share { result ≡ share_of (least_of sizes) (tree_of atom.entry) }
    ensures near { IfOk result IsSizeRatio }
{
    let share = read_share(sizes, atom)?;
    Ok(share)
}

/// Twice that share, or the smaller size where it is smaller.
fn ratio_in(sizes: Sizes, atom: Node<'_, '_>) -> Result<i64, BoardError>
    requires { AreRead sizes }
    ensures radius { result ≡ ratio_in (least_of sizes) (tree_of atom.entry) }
    ensures near { IfOk result IsTwoShares }
{
    let share = share_of(sizes, atom)?;
    let least = least_of(sizes);
    if 2 * share <= least {
        return Ok(2 * share);
    }
    Ok(least)
}

/// The radius of a rounded rectangle in half nanometres, 0 where its ratio is missing.
#[tactic(auto, unfolding(crate::specs::PadShapes::round_radius))]
pub(crate) fn round_radius(sizes: Sizes, node: Node<'_, '_>) -> Result<i64, BoardError>
    requires { AreRead sizes }
    ensures radius { result ≡ round_radius sizes (tree_of node.entry) }
    ensures near { IfOk result IsTwoShares }
{
    match element(node, b"roundrect_rratio") {
        None => Ok(0),
        Some(list) => ratio_in(sizes, first_atom(list)?),
    }
}

// ---- on the board

/// The left and upper corner of the box around a raw point, in half nanometres.
fn low_corner(at: RawPoint, rounded_rect: RoundedRect) -> RawPoint
    requires at { IsPlacementRawPoint at }
    requires small { IsSmall rounded_rect }
    ensures { result
        ≡ record { x = (pos 2 *ℤ at.x) -ℤ rounded_rect.x; y = (pos 2 *ℤ at.y) -ℤ rounded_rect.y } }
{
    RawPoint {
        x: 2 * at.x - rounded_rect.x,
        y: 2 * at.y - rounded_rect.y,
    }
}

/// The right and lower corner of the box around a raw point, in half nanometres.
fn high_corner(at: RawPoint, rounded_rect: RoundedRect) -> RawPoint
    requires at { IsPlacementRawPoint at }
    requires small { IsSmall rounded_rect }
    ensures { result
        ≡ record { x = (pos 2 *ℤ at.x) +ℤ rounded_rect.x; y = (pos 2 *ℤ at.y) +ℤ rounded_rect.y } }
{
    RawPoint {
        x: 2 * at.x + rounded_rect.x,
        y: 2 * at.y + rounded_rect.y,
    }
}

/// The left and upper corner of the box around a raw point, unless it lies off the board.
fn low_point(at: RawPoint, rounded_rect: RoundedRect) -> Option<Point>
    requires at { IsPlacementRawPoint at }
    requires small { IsSmall rounded_rect }
    ensures { result ≡ low_point at rounded_rect }
{
    half_point(low_corner(at, rounded_rect))
}

/// The right and lower corner of the box around a raw point, unless it lies off the board.
fn high_point(at: RawPoint, rounded_rect: RoundedRect) -> Option<Point>
    requires at { IsPlacementRawPoint at }
    requires small { IsSmall rounded_rect }
    ensures { result ≡ high_point at rounded_rect }
{
    half_point(high_corner(at, rounded_rect))
}

/// The shape around this raw point, unless it leaves the board.
pub(crate) fn rounded_rect_at(
    alloc: Global,
    at: RawPoint,
    rounded_rect: RoundedRect,
) -> Result<Option<Shape>, AllocError>
    requires at { IsPlacementRawPoint at }
    requires small { IsSmall rounded_rect }
    ensures { IfOk result (λ shape. shape ≡ rounded_rect_at at rounded_rect) }
{
    let Some(radius) = radius_of(rounded_rect.radius) else {
        return Ok(None);
    };
    let Some(low) = low_point(at, rounded_rect) else {
        return Ok(None);
    };
    let Some(high) = high_point(at, rounded_rect) else {
        return Ok(None);
    };
    Ok(Some(around(radius, box_core(alloc, low, high)?)))
}
