//! Moves of units.

ghost use Rattle.std.specs.Prelude.{◌≡◌, true, All, if◌then◌else◌};
ghost use Rattle.std.specs.List.{AllZip, list_all};
ghost use Rattle.one_item.specs.Positions.{is_on_board};
ghost use Rattle.one_item.specs.ItemMoves.{item_stays};
ghost use Rattle.board_items.specs.UnitMoves.{moves};
ghost use Rattle.board_items.specs.ItemSlots.{IsUnitIn, AreUnitsIn, ArePlacesOf, is_slot_on_board, slot_stays, IsMovedItem, IsMovedSlot};

use crate::places::Places;
use one_item::{Item, Step};

/// Whether the item moves with the unit.
fn moves(item: &Item, unit: u32) -> bool
    ensures { result ≡ moves unit item.now }
{
    item.unit == unit && !item.what.is_note()
}

// ---- whether all points stay on the board

/// Whether the item stays, or does not move with the unit.
fn slot_stays(slot: &Option<Item>, unit: u32, step: Step) -> bool
    requires { is_slot_on_board slot.now ≡ true }
    ensures { result ≡ slot_stays unit step.dx step.dy slot.now }
{
    match slot {
        None => true,
        Some(item) => !moves(item, unit) || item.stays(step),
    }
}

/// Whether the item of a slot stays, or does not move with the unit; the unit that stands beside the slot is asked first.
fn own_stays(slot: &Option<Item>, own: u32, unit: u32, step: Step) -> bool
    requires own { IsUnitIn slot.now own }
    requires on_board { is_slot_on_board slot.now ≡ true }
    ensures { result ≡ slot_stays unit step.dx step.dy slot.now }
{
    own != unit || slot_stays(slot, unit, step)
}

/// Whether each item that moves with the unit stays on the board; the slots of the unit are among the places.
pub(crate) fn slots_stay(
    slots: &[Option<Item>],
    units: &[u32],
    places: Places,
    unit: u32,
    step: Step,
) -> bool
    requires units { AreUnitsIn slots.now units.now }
    requires places { ArePlacesOf unit units.now places.from places.end }
    requires on_board { All (λ slot. is_slot_on_board slot ≡ true) slots.now }
    ensures { result ≡ list_all (λ slot. slot_stays unit step.dx step.dy slot) slots.now }
{
    for place in places.from as usize..places.end as usize {
        if !own_stays(&slots[place], units[place], unit, step) {
            return false;
        }
    }
    true
}

// ---- moving

/// Moves the item if it moves with the unit.
fn shift_moving(item: &mut Item, unit: u32, step: Step)
    requires on_board { is_on_board item.old ≡ true }
    requires stays { (if moves unit item.old then item_stays step.dx step.dy item.old else true)
        ≡ true }
    ensures { IsMovedItem unit step.dx step.dy item.old item.new }
{
    if moves(item, unit) {
        item.first_has_points();
        item.shift(step);
    }
}

fn shift_slot(slot: &mut Option<Item>, unit: u32, step: Step)
    requires on_board { is_slot_on_board slot.old ≡ true }
    requires stays { slot_stays unit step.dx step.dy slot.old ≡ true }
    ensures { IsMovedSlot unit step.dx step.dy slot.old slot.new }
{
    if let Some(item) = slot {
        shift_moving(item, unit, step);
    }
}

/// Moves the item of a slot if it moves with the unit; the unit that stands beside the slot is asked first.
fn shift_own(slot: &mut Option<Item>, own: u32, unit: u32, step: Step)
    requires own { IsUnitIn slot.old own }
    requires on_board { is_slot_on_board slot.old ≡ true }
    requires stays { slot_stays unit step.dx step.dy slot.old ≡ true }
    ensures { IsMovedSlot unit step.dx step.dy slot.old slot.new }
{
    if own == unit {
        shift_slot(slot, unit, step);
    }
}

/// Moves each item that moves with the unit.
pub(crate) fn shift_slots(
    slots: &mut [Option<Item>],
    units: &[u32],
    places: Places,
    unit: u32,
    step: Step,
)
    requires units { AreUnitsIn slots.old units.now }
    requires places { ArePlacesOf unit units.now places.from places.end }
    requires on_board { All (λ slot. is_slot_on_board slot ≡ true) slots.old }
    requires stays { list_all (λ slot. slot_stays unit step.dx step.dy slot) slots.old ≡ true }
    ensures { AllZip (IsMovedSlot unit step.dx step.dy) slots.old slots.new }
{
    for place in places.from as usize..places.end as usize {
        shift_own(&mut slots[place], units[place], unit, step);
    }
}
