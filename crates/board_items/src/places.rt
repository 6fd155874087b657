//! Where the slots of a unit stand in the row.

ghost use Rattle.std.specs.Prelude.{◌≡◌, ◌<◌, ◌≤◌, true, length};
ghost use Rattle.std.specs.List.{AllWithin};
ghost use Rattle.board_items.specs.Boards.{IsSound};
ghost use Rattle.board_items.specs.ItemSlots.{UnitsRise, ArePlacesOf, HaveIdsIn};

use crate::board::Board;

/// The places from one on and before another.
#[derive(Clone, Copy, Drop)]
pub(crate) struct Places {
    pub(crate) from: u32,
    pub(crate) end: u32,
}

/// How many units stand before those that are not below this one.
fn first_of(units: &[u32], unit: u32) -> usize
    requires { UnitsRise 0 units.now }
    ensures within { result ≤ length units.now }
    ensures below { AllWithin (λ own. own < unit) units.now 0 result }
    ensures from { AllWithin (λ own. unit ≤ own) units.now result (length units.now) }
{
    units.partition_point(|own| *own < unit)
}

/// How many stand before those that are above it.
fn end_of(units: &[u32], unit: u32) -> usize
    requires { UnitsRise 0 units.now }
    ensures within { result ≤ length units.now }
    ensures to { AllWithin (λ own. own ≤ unit) units.now 0 result }
    ensures above { AllWithin (λ own. unit < own) units.now result (length units.now) }
{
    units.partition_point(|own| *own <= unit)
}

/// Places among which all slots of the unit are: its own where the row is in order, else all.
pub(crate) fn places_in(units: &[u32], in_order: bool, unit: u32) -> Places
    requires rise { in_order ≡ true → UnitsRise 0 units.now }
    requires few { length units.now ≤ 4294967295 }
    ensures { ArePlacesOf unit units.now result.from result.end }
{
    if !in_order {
        return Places {
            from: 0,
            end: units.len() as u32,
        };
    }
    Places {
        from: first_of(units, unit) as u32,
        end: end_of(units, unit) as u32,
    }
}

impl Board {
    /// Places among which all items of the unit are: no other id is one of theirs.
    pub(crate) fn places_of(&self, unit: u32) -> Places
        ensures ordered { result.from ≤ result.end }
        ensures within { result.end ≤ self.now.next_id }
        ensures all { HaveIdsIn unit result.from result.end self.now.items }
        ensures sound { IsSound self.now }
    {
        places_in(&self.units, self.in_order, unit)
    }
}
