//! Lists of entries that tiles share.

ghost use Rattle.std.specs.Prelude.{◌≡◌, [], List, IfOk, OnOk};
ghost use Rattle.geo_seg.specs.Boxes.{FitsIndex};
ghost use Rattle.box_index.specs.declared.entry.Entry.{Entry};
ghost use Rattle.box_index.specs.Tiles.{IsRising, IsAbsent, placed};
ghost use Rattle.box_index.specs.SharedLists.{HasCapacity, HasSameEntries, IsEqual, IsPut, IsEntryRemoved};

use crate::area::Area;
use crate::corners::Corner;
use crate::entry::Entry;
use crate::lists::{has, put, take_out};
use std::alloc::{AllocError, Global};

/// The entries that one tile has, or several.
#[derive(Drop)]
pub(crate) struct Shared {
    /// By rising id.
    pub(crate) entries: Vec<Entry>,
    /// All tiles that have them lie here.
    pub(crate) home: Area,
    /// None of them begins right of its column or below its row.
    pub(crate) last: Corner,
}

impl Shared {
    /// No entries.
    pub(crate) fn new(alloc: Global, home: Area) -> Shared
        ensures entries { result.entries.items ≡ [] }
        ensures home { result.home ≡ home }
    {
        Shared {
            entries: Vec::new(alloc),
            home,
            last: Corner { column: 0, row: 0 },
        }
    }

    /// A copy of the list for the tiles of another area, with room for one more entry.
    pub(crate) fn moved_to(&self, home: Area) -> Result<Shared, AllocError>
        ensures alike { IfOk result (HasSameEntries self.now) }
        ensures home { IfOk result (λ copy. copy.home ≡ home) }
        ensures capacity { IfOk result HasCapacity }
    {
        let mut entries = Vec::new(*self.entries.allocator());
        entries.extend_from_slice(&self.entries)?;
        entries.reserve(1)?;
        Ok(Shared {
            entries,
            home,
            last: self.last,
        })
    }

    /// An equal list.
    pub(crate) fn copy(&self) -> Result<Shared, AllocError>
        ensures { IfOk result (IsEqual self.now) }
    {
        let mut entries = Vec::with_capacity(*self.entries.allocator(), self.entries.len())?;
        entries.extend_from_slice(&self.entries)?;
        Ok(Shared {
            entries,
            home: self.home,
            last: self.last,
        })
    }

    /// Makes room for one more entry.
    pub(crate) fn reserve_one(&mut self) -> Result<(), AllocError>
        ensures same { IsEqual self.old self.new }
        ensures capacity { OnOk result (HasCapacity self.new) }
        ensures kept { HasCapacity self.old → HasCapacity self.new }
    {
        self.entries.reserve(1)
    }

    /// Puts an entry into its place, or changes nothing where its id is there. There is room for it.
    pub(crate) fn put(&mut self, entry: Entry)
        requires rising { IsRising self.old.entries.items }
        requires capacity { IsAbsent entry.id self.old.entries.items → HasCapacity self.old }
        requires fits { FitsIndex entry.bounds }
        ensures put { IsAbsent entry.id self.old.entries.items → IsPut entry self.old self.new }
        ensures once { (xs : List Entry) → self.old.entries.items ≡ placed entry xs
            → self.new ≡ self.old }
    {
        if has(&self.entries, entry.id) {
            return;
        }
        self.last = self.last.with(entry);
        put(&mut self.entries, entry);
    }

    /// Takes out the entry of this id, if there is one.
    pub(crate) fn take_out(&mut self, id: u32)
        requires { IsRising self.old.entries.items }
        ensures { IsEntryRemoved id self.old self.new }
    {
        take_out(&mut self.entries, id);
    }
}
