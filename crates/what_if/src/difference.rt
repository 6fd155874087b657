//! Rows that stand in one list and not in another. Both lists are in the order of rows, so each is gone through once.

ghost use Rattle.std.specs.Prelude.{◌≡◌, ◌≢◌, ◌↔◌, ◌++◌, ◌∷◌, [], ◌<◌, ◌≤◌, ℕ, IsTrue, Some, MatchBool, OnOk, IfOk, length, slice_get, slice_index_or};
ghost use Rattle.std.specs.List.{AllPairs};
ghost use Rattle.pair_check.specs.PlainRow.{PlainRow};
ghost use Rattle.pair_check.specs.Rows.{Before};
ghost use Rattle.what_if.specs.Trials.{rows_not_in};

use pair_check::laws::one_row;
use row_check::Row;
use std::alloc::{AllocError, Global};

/// Whether the one row comes before the other: by the first item, then by the second, then by the kind.
fn comes_before(row: &Row, other: &Row) -> bool
    ensures { IsTrue result ↔ Before row.now other.now }
{
    if row.first() != other.first() {
        return row.first() < other.first();
    }
    if row.second() != other.second() {
        return row.second() < other.second();
    }
    row.kind().number() < other.kind().number()
}

/// The first place, from this one on, at which no row stands that comes before the given one.
fn past(others: &[Row], from: usize, row: &Row) -> usize
    requires { from ≤ length others.now }
    ensures range { (from ≤ result) × (result ≤ length others.now) }
    ensures before { (k : ℕ) (d : PlainRow) → from ≤ k → k < result
        → Before (slice_index_or others.now k d) row.now }
    ensures stops { (d : PlainRow) → result < length others.now
        → ¬ (Before (slice_index_or others.now result d) row.now) }
{
    for at in from..others.len() {
        if !comes_before(&others[at], row) {
            return at;
        }
    }
    others.len()
}

/// Whether the row stands at the place.
fn stands_at(others: &[Row], at: usize, row: &Row) -> bool
    ensures { MatchBool result (slice_get others.now at ≡ Some row.now)
        (slice_get others.now at ≢ Some row.now) }
{
    one_row();
    match others.get(at) {
        Some(other) => *other == *row,
        None => false,
    }
}

/// Appends the row where it does not stand among the others. `at` is the first place there at which no row stands that comes before it.
fn push_missing(only: &mut Vec<Row>, others: &[Row], at: usize, row: &Row) -> Result<(), AllocError>
    requires ordered { AllPairs Before others.now }
    requires before { (k : ℕ) (d : PlainRow) → k < at
        → Before (slice_index_or others.now k d) row.now }
    requires stops { (d : PlainRow) → at < length others.now
        → ¬ (Before (slice_index_or others.now at d) row.now) }
    ensures { OnOk result
        (only.new.items ≡ only.old.items ++ rows_not_in others.now (row.now ∷ [])) }
{
    if stands_at(others, at, row) {
        return Ok(());
    }
    only.push(*row)?;
    Ok(())
}

/// The rows that do not stand among the others, in their order.
pub(crate) fn rows_missing(
    alloc: Global,
    others: &[Row],
    rows: &[Row],
) -> Result<Vec<Row>, AllocError>
    requires others { AllPairs Before others.now }
    requires rows { AllPairs Before rows.now }
    ensures { IfOk result (λ only. only.items ≡ rows_not_in others.now rows.now) }
{
    let mut only = Vec::new(alloc);
    let mut at = 0;
    for row in rows {
        at = past(others, at, row);
        push_missing(&mut only, others, at, row)?;
    }
    Ok(only)
}
