//! The groups of a net: its items whose copper touches, joined by chains, and the anchors of those items, where links may end.
//! Which items are near each other is told by their item boxes. The nets of a board are gone through one after the other or side by
//! side.
#![tactic(auto)]

mod all;
mod anchors_of;
mod ends;
mod gather;
mod group;
mod item_boxes;
mod labels;
mod laws;
mod numbering;
mod of_net;
mod pairs;
mod part;
mod runs;
mod spreading;
mod stretch;
mod touch;
pub mod works;

pub use all::all_parts;
pub use anchors_of::anchors;
pub use group::Group;
pub use laws::{one_list, one_list_of_anchors, one_list_of_parts, part_stays, parts_are_writable};
pub use of_net::{groups, groups_of};
pub use part::NetPart;
use plain_types::crosses_threads;

fn groups_cross() {
    crosses_threads::<Group>();
}

fn anchors_cross() {
    crosses_threads::<ratsnest::Anchor>();
}

fn nests_cross() {
    crosses_threads::<ratsnest::Nest>();
}
