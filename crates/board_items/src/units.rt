//! Units: the items that came from one list of the board file.

ghost use Rattle.std.specs.Prelude.{◌≡◌};
ghost use Rattle.board_items.specs.BoardIterators.{named_left, unit_left};
ghost use Rattle.board_items.specs.Units.{found_of, has_other_unit, has_body_named_otherwise, is_footprint_named_otherwise};

use crate::board::Board;
use crate::found::Found;
use crate::walk::{NamedIter, UnitIter};
use drc_io::Name;

/// Whether one of these is of another unit.
fn has_other_unit(items: NamedIter<'_>, unit: u32) -> bool
    ensures { result ≡ has_other_unit unit (named_left items.entry) }
{
    for (_, item) in items {
        if item.unit != unit {
            return true;
        }
    }
    false
}

/// Whether one of these is a body with another name.
fn has_body_named_otherwise(items: UnitIter<'_>, name: &Name) -> bool
    ensures { result ≡ has_body_named_otherwise name.now (unit_left items.entry) }
{
    for (_, item) in items {
        if item.what.is_body() && !(item.name == *name) {
            return true;
        }
    }
    false
}

/// Whether the unit is a footprint with another name.
fn is_footprint_named_otherwise(board: &Board, unit: u32, name: &Name) -> bool
    ensures { result ≡ is_footprint_named_otherwise unit name.now board.now.items }
{
    has_body_named_otherwise(board.of_unit(unit), name)
}

/// What the name stands for. The items of the name are gone through once, and those of its unit.
pub(crate) fn found_of(board: &Board, name: &Name) -> Found
    ensures { result ≡ found_of name.now board.now.items }
{
    if name.bytes().is_empty() {
        return Found::None;
    }
    let mut items = board.named(name);
    let Some((_, item)) = items.next() else {
        return Found::None;
    };
    let unit = item.unit;
    if has_other_unit(items, unit) {
        Found::Shared
    } else if is_footprint_named_otherwise(board, unit, name) {
        Found::Inside
    } else {
        Found::Unit(unit)
    }
}
