//! Rows after a change.

ghost use Rattle.std.specs.Prelude.{◌≡◌, OnOk, filter, not};
ghost use Rattle.std.specs.List.{AllZip};
ghost use Rattle.std.specs.List.Sorted.{IsStrictlyIncreasing};
ghost use Rattle.pair_check.specs.Rows.{Checked, AreRows};
ghost use Rattle.pair_check.specs.CheckViews.{checked_by, IsWholeView};
ghost use Rattle.row_check.specs.RowsOfTile.{IsIndexOf, AreRowsOfTile};
ghost use Rattle.row_check.specs.Whole.{AreEnough};
ghost use Rattle.kept_rows.specs.CheckChanges.{IsCheckChange, is_touched};

use box_index::TileIndex;
use row_check::order::put_in_order;
use row_check::{CheckView, Row, TileRows, is_changed, push_batches, push_singles, soundness};
use std::alloc::{AllocError, Global};

/// Whether one of the items of the row changed.
fn is_touched(changed: &[u32], row: &Row) -> bool
    requires { IsStrictlyIncreasing changed.now }
    ensures { result ≡ is_touched changed.now row.now }
{
    is_changed(changed, row.first()) || is_changed(changed, row.second())
}

/// Drops the rows of what changed. It takes no memory.
fn keep_untouched(rows: &mut Vec<Row>, changed: &[u32])
    requires { IsStrictlyIncreasing changed.now }
    ensures { rows.new.items ≡ filter (λ row. not (is_touched changed.now row)) rows.old.items }
{
    rows.retain(|row| !is_touched(changed, row));
}

/// Makes the rows of what was checked before a change those of what is checked now.
///
/// `changed` are the ids, rising, of all that changed. `_tiles` are all tiles that hold an entry that changed, and the batches are
/// their rows with such an entry. The tiles tell the contract alone which rows these are. Only running out of memory fails it, and
/// the rows are then of no use.
pub fn update_rows(
    alloc: Global,
    view: &CheckView,
    index: &TileIndex,
    rows: &mut Vec<Row>,
    changed: &[u32],
    _tiles: &[u32],
    batches: &[TileRows],
) -> Result<(), AllocError>
    requires view { IsWholeView view.now }
    requires index { IsIndexOf (checked_by view.now) index.now }
    requires changed { IsStrictlyIncreasing changed.now }
    requires enough { AreEnough index.now changed.now _tiles.now }
    requires batches { AllZip
        (λ tile batch. AreRowsOfTile (checked_by view.now) index.now tile changed.now batch)
        _tiles.now batches.now }
    ensures { (old : Checked) → IsCheckChange old (checked_by view.now) changed.now
        → AreRows old rows.old.items → OnOk result (AreRows (checked_by view.now) rows.new.items) }
{
    soundness(index);
    keep_untouched(rows, changed);
    push_singles(alloc, view, changed, rows)?;
    push_batches(rows, batches)?;
    put_in_order(rows)?;
    Ok(())
}
