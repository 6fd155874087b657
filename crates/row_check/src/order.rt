//! The order of rows.

ghost use Rattle.std.specs.Prelude.{◌≡◌, OnOk};
ghost use Rattle.std.specs.List.Sorted.{IsPermutation};
ghost use Rattle.row_check.specs.Whole.{AreInOrder, place_of};

use pair_check::Row;
use std::alloc::AllocError;

/// Where a row stands in the order: by the first id, then by the second, then by the number of the kind.
#[derive(Clone, Copy, PartialEq, Eq, PartialOrd, Ord)]
pub struct Place {
    first: u32,
    second: u32,
    kind: u32,
}

fn place_of(row: &Row) -> Place
    ensures { result ≡ place_of row.now }
{
    Place {
        first: row.first(),
        second: row.second(),
        kind: row.kind().number(),
    }
}

/// Puts rows in order. Only running out of memory fails it.
pub fn put_in_order(rows: &mut Vec<Row>) -> Result<(), AllocError>
    ensures { OnOk result
        (IsPermutation rows.old.items rows.new.items × AreInOrder rows.new.items) }
{
    rows.sort_by_key(|row| place_of(row))?;
    Ok(())
}
