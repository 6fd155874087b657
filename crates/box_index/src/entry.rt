//! Entries.

use geo_seg::Bounds;

/// An item's id with its bounds, in half nanometres.
#[derive(Clone, Copy, Debug, PartialEq, Eq, Drop)]
pub struct Entry {
    pub id: u32,
    pub bounds: Bounds,
}
