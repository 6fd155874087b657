//! Tags of names, and the items of a name: a row of tags is gone through, and an item is looked at only where its tag is
//! that of the name.

ghost use Rattle.std.specs.Prelude.{◌≡◌, ◌≤◌, [], true, length, MatchOption};
ghost use Rattle.std.specs.Option.{option_copied};
ghost use Rattle.board_items.specs.Boards.{IsSound};
ghost use Rattle.board_items.specs.Tags.{tag_next, tag_from, tag_of, are_tags_in, all_named, named_from, only_named, IsNextNamed};
ghost use Rattle.board_items.specs.BoardIterators.{named_left};

use crate::board::Board;
use crate::walk::NamedIter;
use drc_io::Name;
use one_item::Item;

// ---- tags

/// The tag with one more byte.
fn tag_next(tag: u32, byte: u8) -> u32
    ensures { result ≡ tag_next tag byte }
{
    tag.wrapping_mul(16).wrapping_add(u32::from(byte))
}

fn tag_from(bytes: &[u8]) -> u32
    ensures { result ≡ tag_from 0 bytes.now }
{
    let mut tag = 0;
    for byte in bytes {
        tag = tag_next(tag, *byte);
    }
    tag
}

/// The tag of a name, of its last eight bytes.
pub(crate) fn tag_of(name: &Name) -> u32
    ensures { result ≡ tag_of name.now }
{
    let bytes = name.bytes();
    tag_from(&bytes[bytes.len().saturating_sub(8)..])
}

// ---- the items of a name

/// The item in the slot if it has the name.
fn only_named<'a>(slot: &'a Option<Item>, name: &Name) -> Option<&'a Item>
    ensures { option_copied result ≡ only_named name.now slot.now }
{
    match slot {
        Some(item) if item.name == *name => Some(item),
        _ => None,
    }
}

/// The first item of the name from the id on, with its own id.
pub(crate) fn next_named<'a>(
    slots: &'a [Option<Item>],
    tags: &[u32],
    first: u32,
    tag: u32,
    name: &Name,
) -> Option<(u32, &'a Item)>
    requires spare_capacity { length slots.now ≤ 4294967295 }
    requires tags_in { are_tags_in slots.now tags.now ≡ true }
    requires tag { tag ≡ tag_of name.now }
    ensures { MatchOption result (named_from name.now first slots.now ≡ [])
        (λ next. IsNextNamed name.now first slots.now next.0 next.1.now) }
{
    for place in first as usize..tags.len() {
        if tags[place] == tag {
            if let Some(item) = only_named(&slots[place], name) {
                return Some((place as u32, item));
            }
        }
    }
    None
}

impl Board {
    /// The items of the name with their ids, by rising id.
    pub(crate) fn named<'a>(&'a self, name: &'a Name) -> NamedIter<'a>
        ensures items { named_left result ≡ all_named name.now self.now.items }
        ensures sound { IsSound self.now }
    {
        NamedIter {
            slots: &self.slots,
            tags: &self.tags,
            first: 0,
            tag: tag_of(name),
            name,
        }
    }
}
