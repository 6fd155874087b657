//! Bodies that notes speak of: a row of slots is gone through backwards, from the note on.

ghost use Rattle.std.specs.Prelude.{◌≡◌, ◌<◌, ◌++◌, ◌∷◌, [], true, length, get_or};
ghost use Rattle.std.specs.Option.{option_copied};
ghost use Rattle.board_items.specs.ItemSlots.{present, IsUnitIn, AreUnitsIn, UnitsRise};
ghost use Rattle.board_items.specs.ItemNotes.{is_body_of, body_before, only_body};

use one_item::Item;

/// Whether the row is in order with one more unit behind the others.
pub(crate) fn goes_on(in_order: bool, units: &[u32], unit: u32) -> bool
    ensures { (in_order ≡ true → UnitsRise 0 units.now) → result ≡ true
        → UnitsRise 0 (units.now ++ unit ∷
        []) }
{
    let Some(last) = units.last() else {
        return true;
    };
    in_order && *last <= unit
}

fn is_body_of(item: &Item, unit: u32) -> bool
    ensures { result ≡ is_body_of unit item.now }
{
    item.unit == unit && item.what.is_body()
}

/// The item in the slot if it is a body of the unit; the unit that stands beside the slot is asked first.
fn only_body(slot: &Option<Item>, own: u32, unit: u32) -> Option<&Item>
    requires { IsUnitIn slot.now own }
    ensures { option_copied result ≡ only_body unit slot.now }
{
    if own != unit {
        return None;
    }
    match slot {
        Some(item) if is_body_of(item, unit) => Some(item),
        _ => None,
    }
}

/// The last body of the unit before the id, whose slot is of the unit.
pub(crate) fn last_body<'a>(
    slots: &'a [Option<Item>],
    units: &[u32],
    in_order: bool,
    id: u32,
    unit: u32,
) -> Option<&'a Item>
    requires units { AreUnitsIn slots.now units.now }
    requires rise { in_order ≡ true → UnitsRise 0 units.now }
    requires within { id < length slots.now }
    requires own { get_or units.now id 0 ≡ unit }
    ensures { option_copied result ≡ body_before unit id (present 0 slots.now) }
{
    let mut place = id as usize;
    'slots: while 0 < place {
        place -= 1;
        let own = units[place];
        if let Some(body) = only_body(&slots[place], own, unit) {
            return Some(body);
        }
        if in_order && own != unit {
            return None;
        }
    }
    None
}
