//! Iterators over a board.

ghost use Rattle.std.specs.Prelude.{◌≡◌, ◌+◌, ◌≤◌, true, length};
ghost use Rattle.board_items.specs.ItemSlots.{are_units_in};
ghost use Rattle.board_items.specs.Tags.{tag_of, are_tags_in};

use crate::slots::{next_full, next_of_unit};
use crate::tags::next_named;
use drc_io::Name;
use indexmap::map::Slice;
use one_item::Item;

/// The items of a board that are still to come, each with its id, by rising id.
#[derive(Clone, Copy)]
pub struct BoardIter<'a> {
    // the slots that are still to come, and the id of the first
    pub(crate) slots: &'a [Option<Item>],
    pub(crate) first: u32,
    pub(crate) ghost spare_capacity: { first + length slots.now ≤ 4294967295 },
}

impl<'a> Iterator for BoardIter<'a> {
    ghost use Rattle.std.specs.Iterator.{YieldsFirstBy, item_count};
    ghost use Rattle.board_items.specs.BoardIterators.{entry_of, items_left};

    type Item = (u32, &'a Item);

    ghost next_gives = { YieldsFirstBy entry_of items_left };

    ghost remaining = { item_count items_left };

    fn next(&mut self) -> Option<(u32, &'a Item)> {
        let (id, item, behind) = next_full(self.slots, self.first)?;
        self.slots = behind;
        self.first = id + 1;
        Some((id, item))
    }
}

/// The items of one unit that are still to come, each with its id, by rising id.
#[derive(Clone, Copy)]
pub struct UnitIter<'a> {
    // the slots and their units that are still to come, and the id of the first
    pub(crate) slots: &'a [Option<Item>],
    pub(crate) units: &'a [u32],
    pub(crate) first: u32,
    pub(crate) unit: u32,
    pub(crate) ghost spare_capacity: { first + length slots.now ≤ 4294967295 },
    pub(crate) ghost units_in: { are_units_in slots.now units.now ≡ true },
}

impl<'a> Iterator for UnitIter<'a> {
    ghost use Rattle.std.specs.Iterator.{YieldsFirstBy, item_count};
    ghost use Rattle.board_items.specs.BoardIterators.{entry_of, unit_left};

    type Item = (u32, &'a Item);

    ghost next_gives = { YieldsFirstBy entry_of unit_left };

    ghost remaining = { item_count unit_left };

    fn next(&mut self) -> Option<(u32, &'a Item)> {
        let (id, item, behind, rest) = next_of_unit(self.slots, self.units, self.first, self.unit)?;
        self.slots = behind;
        self.units = rest;
        self.first = id + 1;
        Some((id, item))
    }
}

/// The items of a name that are still to come, each with its id, by rising id.
#[derive(Clone, Copy)]
pub(crate) struct NamedIter<'a> {
    // all slots with their tags, and the id from which on the items are sought
    pub(crate) slots: &'a [Option<Item>],
    pub(crate) tags: &'a [u32],
    pub(crate) first: u32,
    pub(crate) tag: u32,
    pub(crate) name: &'a Name,
    pub(crate) ghost spare_capacity: { length slots.now ≤ 4294967295 },
    pub(crate) ghost tags_in: { are_tags_in slots.now tags.now ≡ true },
    pub(crate) ghost own: { tag ≡ tag_of name.now },
}

impl<'a> Iterator for NamedIter<'a> {
    ghost use Rattle.std.specs.Iterator.{YieldsFirstBy, item_count};
    ghost use Rattle.board_items.specs.BoardIterators.{entry_of, named_left};

    type Item = (u32, &'a Item);

    ghost next_gives = { YieldsFirstBy entry_of named_left };

    ghost remaining = { item_count named_left };

    fn next(&mut self) -> Option<(u32, &'a Item)> {
        let (id, item) = next_named(self.slots, self.tags, self.first, self.tag, self.name)?;
        self.first = id + 1;
        Some((id, item))
    }
}

/// The nets of a board that are still to come, each with its name, in the order in which they were declared.
#[derive(Drop)]
pub struct BoardNets<'a> {
    pub(crate) nets: Slice<'a, u32, Name>,
}

impl<'a> Iterator for BoardNets<'a> {
    ghost use Rattle.std.specs.Iterator.{YieldsFirstBy, item_count};
    ghost use Rattle.board_items.specs.BoardIterators.{net_of, nets_left};

    type Item = (u32, &'a Name);

    ghost next_gives = { YieldsFirstBy net_of nets_left };

    ghost remaining = { item_count nets_left };

    fn next(&mut self) -> Option<(u32, &'a Name)> {
        let ((net, name), others) = self.nets.split_first()?;
        self.nets = others;
        Some((*net, name))
    }
}
