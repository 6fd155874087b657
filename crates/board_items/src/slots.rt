//! Slots: items by id.

ghost use Rattle.std.specs.Prelude.{◌≡◌, ◌+◌, ◌<◌, ◌≤◌, [], true, None, Some, not, nat_eq, filter, length, slice_get, MatchOption, if◌then◌else◌};
ghost use Rattle.std.specs.Option.{option_copied};
ghost use Rattle.board_items.specs.Boards.{item_at};
ghost use Rattle.board_items.specs.ItemSlots.{present, at_slot, IsNext, IsUnitIn, are_units_in, unit_items, only_of, IsNextOf};

use one_item::Item;

/// The item of an id.
pub(crate) fn item_at(slots: &[Option<Item>], id: u32) -> Option<&Item>
    ensures { option_copied result ≡ item_at (present 0 slots.now) id }
{
    item_in(slots, id as usize)
}

/// What stands in the slot.
fn item_in(slots: &[Option<Item>], place: usize) -> Option<&Item>
    ensures { option_copied result ≡ at_slot (slice_get slots.now place) }
{
    match slots.get(place) {
        Some(Some(item)) => Some(item),
        _ => None,
    }
}

/// The first item from here on, with its id and the slots behind it.
pub(crate) fn next_full<'a>(
    slots: &'a [Option<Item>],
    first: u32,
) -> Option<(u32, &'a Item, &'a [Option<Item>])>
    requires { first + length slots.now ≤ 4294967295 }
    ensures { MatchOption result (present first slots.now ≡ [])
        (λ next. IsNext first slots.now next.0 next.1.now next.2.now) }
{
    let mut left = slots;
    let mut id = first;
    'slots: while let Some((slot, behind)) = left.split_first() {
        if let Some(item) = slot {
            return Some((id, item, behind));
        }
        left = behind;
        id += 1;
    }
    None
}

/// The item in the slot if it is of the unit; the unit that stands beside the slot is asked first.
fn only_of(slot: &Option<Item>, own: u32, unit: u32) -> Option<&Item>
    requires { IsUnitIn slot.now own }
    ensures { option_copied result ≡ only_of unit slot.now }
{
    if own != unit {
        return None;
    }
    slot.as_ref()
}

/// The first item of the unit from here on, with its id, and the slots and units behind it.
pub(crate) fn next_of_unit<'a>(
    slots: &'a [Option<Item>],
    units: &'a [u32],
    first: u32,
    unit: u32,
) -> Option<(u32, &'a Item, &'a [Option<Item>], &'a [u32])>
    requires spare_capacity { first + length slots.now ≤ 4294967295 }
    requires units_in { are_units_in slots.now units.now ≡ true }
    ensures { MatchOption result (unit_items unit first slots.now ≡ [])
        (λ next. IsNextOf unit first slots.now next.0 next.1.now next.2.now next.3.now) }
{
    let mut left = slots;
    let mut others = units;
    let mut id = first;
    'slots: while let Some((slot, behind)) = left.split_first() {
        let (own, rest) = others.split_first()?;
        if let Some(item) = only_of(slot, *own, unit) {
            return Some((id, item, behind, rest));
        }
        left = behind;
        others = rest;
        id += 1;
    }
    None
}

/// Drops an id from a list.
pub(crate) fn drop_id(ids: &mut Vec<u32>, id: u32)
    ensures { ids.new.items ≡ filter (λ other. not (nat_eq other id)) ids.old.items }
{
    ids.retain(|other| *other != id);
}

/// Drops it where it may be in the list.
pub(crate) fn drop_if(ids: &mut Vec<u32>, id: u32, listed: bool)
    ensures { ids.new.items ≡ (if listed then filter (λ other.
        not (nat_eq other id)) ids.old.items else
        ids.old.items) }
{
    if listed {
        drop_id(ids, id);
    }
}
