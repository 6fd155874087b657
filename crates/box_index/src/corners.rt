//! Where entries begin.

ghost use Rattle.std.specs.Prelude.{◌≤◌};
ghost use Rattle.geo_seg.specs.Boxes.{FitsIndex};
ghost use Rattle.box_index.specs.EntryOrigins.{BeginsBy};

use crate::entry::Entry;
use crate::lanes::lane;

/// A column and a row of tiles.
#[derive(Clone, Copy)]
pub(crate) struct Corner {
    pub(crate) column: usize,
    pub(crate) row: usize,
}

impl Corner {
    /// The corner, moved right and down as far as the entry begins.
    pub(crate) fn with(self, entry: Entry) -> Corner
        requires { FitsIndex entry.bounds }
        ensures column { self.column ≤ result.column }
        ensures row { self.row ≤ result.row }
        ensures begun { BeginsBy result entry }
    {
        Corner {
            column: self.column.max(lane(entry.bounds.left)),
            row: self.row.max(lane(entry.bounds.top)),
        }
    }
}
