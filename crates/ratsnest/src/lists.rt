//! Lists of anchors that a nest may be asked of.

ghost use Rattle.std.specs.Prelude.{◌≡◌, ◌<◌, ℕ, length, IsTrue, ◌↔◌};
ghost use Rattle.ratsnest.specs.NestOf.{anchor_at, group_at, IsBefore, AnchorsRise, GroupsOccur};

use crate::anchor::Anchor;
use crate::places::{count_groups, group_of};

fn is_before(a: Anchor, b: Anchor) -> bool
    ensures { IsTrue result ↔ IsBefore a b }
{
    a.id < b.id || a.id == b.id && a.number < b.number
}

/// Whether the one place's anchor stands before the other's.
fn stand_in_order(anchors: &[Anchor], i: usize, j: usize) -> bool
    requires i { i < length anchors.now }
    requires j { j < length anchors.now }
    ensures { IsTrue result ↔ IsBefore (anchor_at anchors.now i) (anchor_at anchors.now j) }
{
    is_before(anchors[i], anchors[j])
}

/// Whether each anchor stands before the next one.
fn do_rise(anchors: &[Anchor]) -> bool
    ensures { IsTrue result ↔ AnchorsRise anchors.now }
{
    for place in 1..anchors.len() {
        if !stand_in_order(anchors, place - 1, place) {
            return false;
        }
    }
    true
}

fn has_group(anchors: &[Anchor], group: usize) -> bool
    ensures { IsTrue result ↔
        ((i : ℕ) × (i < length anchors.now) × (group_at anchors.now i ≡ group)) }
{
    for place in 0..anchors.len() {
        if group_of(anchors, place) as usize == group {
            return true;
        }
    }
    false
}

/// Whether each group up to the greatest has an anchor.
fn do_groups_occur(anchors: &[Anchor]) -> bool
    ensures { IsTrue result ↔ GroupsOccur anchors.now }
{
    for group in 0..count_groups(anchors) {
        if !has_group(anchors, group) {
            return false;
        }
    }
    true
}

/// Whether the anchors rise by id and number, and each group from 0 to the greatest occurs: then they have a nest. It takes no
/// memory, and looks at each anchor once for each group.
pub fn have_nest(anchors: &[Anchor]) -> bool
    ensures { IsTrue result ↔ (AnchorsRise anchors.now × GroupsOccur anchors.now) }
{
    do_rise(anchors) && do_groups_occur(anchors)
}
