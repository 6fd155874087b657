//! Pieces of copper that are farther apart than anything asks of them. Most pairs that an index finds are such, since it reaches as far
//! as edges ask.

ghost use Rattle.std.specs.Prelude.{◌≡◌, ◌≤ℤ◌, ◌+ℤ◌, pos, true};
ghost use Rattle.geo_seg.specs.Boxes.{FitsIndex, AreClear};
ghost use Rattle.row_check.specs.CopperSeparation.{AreBoxesApart};

use box_index::Entry;
use geo_seg::Bounds;
use kind_subjects::share_net;
use pair_check::{Single, are_copper};
use plain_types::Length;
use rule_pick::with_own;

/// Whether the first box, of half nanometres, ends more than this length left of the second. Only a yes is sure.
fn is_left_of(a: Bounds, b: Bounds, most: Length) -> bool
    requires first { FitsIndex a }
    requires second { FitsIndex b }
    ensures { result ≡ true → (a.right +ℤ (most.nm +ℤ most.nm +ℤ pos 1)) ≤ℤ b.left }
{
    a.right + (2 * most.nm + 1) <= b.left
}

/// Whether the first box ends more than this length above the second. Only a yes is sure.
fn is_above(a: Bounds, b: Bounds, most: Length) -> bool
    requires first { FitsIndex a }
    requires second { FitsIndex b }
    ensures { result ≡ true → (a.bottom +ℤ (most.nm +ℤ most.nm +ℤ pos 1)) ≤ℤ b.top }
{
    a.bottom + (2 * most.nm + 1) <= b.top
}

/// Whether the boxes are more than this length apart in x or in y. Only a yes is sure.
fn are_clear(a: Bounds, b: Bounds, most: Length) -> bool
    requires first { FitsIndex a }
    requires second { FitsIndex b }
    ensures { result ≡ true → AreClear a b (most.nm +ℤ most.nm +ℤ pos 1) }
{
    if is_left_of(a, b, most) {
        return true;
    }
    if is_left_of(b, a, most) {
        return true;
    }
    if is_above(a, b, most) {
        return true;
    }
    is_above(b, a, most)
}

/// Whether the boxes of two pieces of copper lie farther apart than `asked`, which is the most that the rules and the board ask of any
/// two, and than the two ask for themselves. That they do is sure; `false` says nothing.
pub(crate) fn are_apart(
    asked: Length,
    first: &Entry,
    one: Single<'_>,
    second: &Entry,
    other: Single<'_>,
) -> bool
    requires first { FitsIndex first.now.bounds }
    requires second { FitsIndex second.now.bounds }
    ensures { result ≡ true → AreBoxesApart asked.nm first.now second.now one.entry other.entry }
{
    // what is of one net is told sooner without this
    if share_net(one.item, other.item) || !are_copper(one.item, other.item) {
        return false;
    }
    let most = with_own(with_own(asked, one.facts), other.facts);
    are_clear(first.bounds, second.bounds, most)
}
